//! What is known before a word is read.
use crate::names::{ExpectedValue, Section};

/// What decides how a word is read, besides the word.
#[derive(Clone, Copy)]
pub struct Context {
    /// The open section, `None` before the first.
    pub section: Option<Section>,
    /// The value that the last option still expects, if any.
    pub expected: Option<ExpectedValue>,
}
