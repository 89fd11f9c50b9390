//! Tests whether moves are legal: where men arrive, what exposes a king, what parries a check.
pub(crate) mod blockers;
pub(crate) mod castling;
pub(crate) mod evasions;
pub(crate) mod exposure;
pub(crate) mod legal;
pub(crate) mod single_move;
pub(crate) mod targets;
