//! Makes moves on the board and takes them back.
pub(crate) mod play;
pub(crate) mod playing;
pub(crate) mod undoing;
