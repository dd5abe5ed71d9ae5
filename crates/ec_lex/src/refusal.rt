//! Refusals of texts.
use ec_base::Span;
use thiserror::Error;

/// Why a text is refused, by the number of the reason, and where.
#[derive(Clone, Copy, Debug, Error)]
#[error("refused {what}")]
pub struct LexRefusal {
    pub what: u8,
    pub at: Span,
}
