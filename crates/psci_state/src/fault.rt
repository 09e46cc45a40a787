//! Why a word is refused.

use thiserror::Error;

/// The word is no power state of the board, in the board's format.
#[derive(Clone, Copy, Debug, PartialEq, Eq, Error)]
#[error("the word is no power state of this board")]
pub struct BadState;
