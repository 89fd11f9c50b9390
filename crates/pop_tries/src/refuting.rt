//! What is known of the refutations of a first move.
ghost use Rattle.std.specs.Prelude.{◌≡◌};
ghost use Rattle.pop_tries.specs.ties.MoveSets.{nothing_refuting};

use crate::move_set::MoveSet;

/// The replies that may refute a first move, and one that does.
#[derive(Clone, Copy)]
pub(crate) struct Refuting {
    /// Holds the replies that refute.
    pub moves: MoveSet,
    /// The place of a reply that refutes in the order of moves; 0 if none is known.
    pub last: u16,
}

impl Refuting {
    /// Returns what is known of a first move that no reply is known to refute.
    pub(crate) fn none() -> Refuting
        ensures { result ≡ nothing_refuting }
    {
        Refuting {
            moves: MoveSet::none(),
            last: 0,
        }
    }
}
