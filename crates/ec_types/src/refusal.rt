//! Why a program is refused.
use ec_base::Span;
use thiserror::Error;

/// Why a program is refused, by its number, and where. `other` is the first place of a name that is declared again, and the
/// `printf` that a branch comes to.
#[derive(Clone, Copy, Debug, PartialEq, Eq, Error)]
#[error("refused {what}")]
pub struct TypeRefusal {
    pub what: u8,
    pub at: Span,
    pub other: Option<Span>,
}
