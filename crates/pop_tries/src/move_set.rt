//! Sets of moves, by their origins and arrivals.
ghost use Rattle.std.specs.Prelude.{◌≡◌, false, true};
ghost use Rattle.chess_core.specs.declared.man.Move.{Move};
ghost use Rattle.pop_tries.specs.ties.MoveSets.{may_be, may_hold, no_moves};

use chess_attacks::words::contains;
use chess_core::{Move, Squares};

/// A set that may hold more than the moves put into it: all moves from one of their origins to one of their
/// arrivals.
#[derive(Clone, Copy)]
pub(crate) struct MoveSet {
    origins: Squares,
    arrivals: Squares,
}

impl MoveSet {
    /// Returns the set without any move.
    pub(crate) fn none() -> MoveSet
        ensures none { (m : Move) → may_hold result m ≡ false }
        ensures empty { result ≡ no_moves }
    {
        MoveSet {
            origins: 0,
            arrivals: 0,
        }
    }

    /// Returns whether the set may hold the move.
    pub(crate) fn may_hold(self, by: Move) -> bool
        ensures { result ≡ may_hold self by }
    {
        contains(self.origins, by.from) && contains(self.arrivals, by.to)
    }

    /// Returns the set with the move put into it.
    #[tactic(auto, using(crate::proofs::MoveSets::putting))]
    pub(crate) fn with(self, by: Move) -> MoveSet
        ensures put { may_hold result by ≡ true }
        ensures kept { (m : Move) → may_hold self m ≡ true → may_hold result m ≡ true }
    {
        MoveSet {
            origins: self.origins | 1u64 << by.from.index(),
            arrivals: self.arrivals | 1u64 << by.to.index(),
        }
    }
}

/// Returns whether a move may be in the set; without a set nothing is known.
pub(crate) fn may_be(set: Option<MoveSet>, by: Move) -> bool
    ensures { result ≡ may_be set by }
{
    match set {
        Some(set) => set.may_hold(by),
        None => true,
    }
}

/// Returns the set, if there is one, with the move put into it.
pub(crate) fn noted(set: Option<MoveSet>, by: Move) -> Option<MoveSet>
    ensures put { may_be result by ≡ true }
    ensures kept { (m : Move) → may_be set m ≡ true → may_be result m ≡ true }
{
    match set {
        Some(set) => Some(set.with(by)),
        None => None,
    }
}
