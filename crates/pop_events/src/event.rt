//! The events of a search.
use crate::shown::Shown;
use arrayvec::ArrayVec;
use pop_stipulation::MOST_HALF_MOVES;

/// A phase of a problem, which has its own solutions: set play, in which the other side starts, or the play.
#[derive(Clone, Copy, Debug, PartialEq, Eq)]
pub enum Phase {
    /// Set play.
    Set,
    /// The play.
    Play,
}

/// What a search returns. In order, for each phase: its name, and then either `Impossible`, or its solutions and their
/// total.
#[derive(Drop)]
pub enum Event {
    /// A phase begins.
    Phase(Phase),
    /// A solution of help play: its moves. `half` is the number of the first move's half-move, counted from 1.
    Line {
        half: u32,
        moves: ArrayVec<Shown, MOST_HALF_MOVES>,
    },
    /// A move of battle play in the tree of a solution. `depth` is the number of moves above it in the tree, 0 for the
    /// first; `half` is the number of its half-move, counted from 1.
    Node {
        depth: u32,
        half: u32,
        shown: Shown,
    },
    /// Set play isn't possible: the side that isn't to move would be in check.
    Impossible,
    /// A phase ends: the number of its solutions, and whether the limit of solutions stopped it.
    Total {
        count: u32,
        stopped: bool,
    },
}
