//! A request for parts of a phase, and its outcome.
use pop_events::Phase;

/// A request for the parts `first` to `last`, inclusive, of a phase of an item. Items and parts are
/// numbered from 1.
#[derive(Clone, Copy)]
pub struct PartRequest {
    pub item: u64,
    pub phase: Phase,
    pub first: u64,
    pub last: u64,
    /// The number of moves, 1 or more, that distinguish the parts of help play.
    pub depth: usize,
}

/// How a request ended: its parts are printed, or why they aren't.
#[derive(Clone, Copy)]
pub enum Outcome {
    /// The parts were printed.
    Shown,
    /// The input has no item of this number.
    NoItem,
    /// The item is faulty.
    FaultyItem,
    /// The problem has no set play.
    NoPhase,
    /// The phase has no part of one of these numbers.
    NoPart,
    /// The input device failed before the item was read.
    InputFailed,
    /// The output device failed.
    OutputFailed,
}
