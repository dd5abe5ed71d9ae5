//! How the calls of a shelf and of a sink end.
use ec_base::Text;
use thiserror::Error;

/// A device failed at a read or a write, and its count of faults rose.
#[derive(Clone, Copy, Debug, Error)]
#[error("shelf fault")]
pub struct ShelfFault;

/// A device failed at a piece, and its count of faults rose.
#[derive(Clone, Copy, Debug, Error)]
#[error("sink fault")]
pub struct SinkFault;

/// What a read gives.
#[derive(Debug, Drop)]
pub enum ReadEnd {
    /// The whole content.
    Whole(Text),
    /// The content has more bytes than were allowed.
    TooLong,
}
