//! What a text is cut into.
use crate::refusal::LexRefusal;
use ec_base::{List, Token};

/// The tokens of a text up to its first refusal, the end last where there is none.
#[derive(Drop)]
pub struct Scan {
    pub tokens: List<Token>,
    pub refusal: Option<LexRefusal>,
}
