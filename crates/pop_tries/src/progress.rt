//! How far a search for tries has come.
ghost use Rattle.std.specs.Prelude.{◌≡◌, ◌+◌, ◌-◌, ◌≤◌};
ghost use Rattle.chess_rules.specs.ties.Places.{all_triples};
ghost use Rattle.pop_stipulation.specs.Stipulations.{half_moves};
ghost use Rattle.pop_tries.specs.ties.Searching.{contest_of};

use crate::contest::Contest;
use crate::first_moves::Group;
use crate::kept_tries::Candidates;
use crate::refuting::Refuting;
use crate::threats::Threat;
use chess_core::{Move, Square};
use chess_rules::{MovePlace, Undo};
use pop_events::TryEvent;
use pop_input::Problem;
use pop_stipulation::Battle;
use pop_walk::phases::Progress;

/// The greatest number of refutations of a try that can be asked for (own).
pub const MOST_REFUTATIONS: u32 = 200;

/// What a search for tries covers in a problem of battle.
#[derive(Clone, Copy)]
pub(crate) struct Task {
    pub problem: Problem,
    /// The problem's battle.
    pub battle: Battle,
    /// The greatest number of refutations of a try, 0 to `MOST_REFUTATIONS`.
    pub most: u32,
}

impl Task {
    /// Returns the battle with its stipulation.
    pub(crate) fn contest(&self) -> Contest
        ensures { result ≡ contest_of self.now }
    {
        Contest {
            battle: self.battle,
            stipulation: self.problem.stipulation(),
        }
    }

    /// Returns the number of half-moves left after a first move and a reply.
    pub(crate) fn half_moves_below(&self) -> usize
        ensures { result ≡ half_moves self.now.problem.stipulation - 2 }
    {
        self.problem.stipulation().half_moves().saturating_sub(2)
    }
}

/// A place among the first moves of a group.
#[derive(Clone, Copy)]
pub(crate) struct Firsts {
    pub group: Group,
    /// The place in the order of moves.
    pub place: MovePlace,
    /// How many first moves of the group have been shown.
    pub count: u32,
    /// The first moves that may be tries, among the keys those up to the place.
    pub candidates: Candidates,
}

impl Firsts {
    /// Returns the place after one more first move.
    pub(crate) fn counted(self) -> Self
        requires few { self.count ≤ all_triples }
        ensures { result ≡ record self { count = self.count + 1 } }
    {
        Firsts {
            count: self.count + 1,
            ..self
        }
    }
}

/// A first move that has been shown.
#[derive(Clone, Copy)]
pub(crate) struct First {
    /// The place after the move.
    pub firsts: Firsts,
    pub by: Move,
    pub undo: Undo,
    /// What is known of White's threats. `None` if White threatens nothing, or before the step at `Faced` has
    /// looked for threats.
    pub threat: Option<Threat>,
    /// What is known of the replies that refute.
    pub refuting: Refuting,
}

/// A reply that has been played.
#[derive(Clone, Copy)]
pub(crate) struct Played {
    /// The place after the reply in the order of moves.
    pub place: MovePlace,
    pub by: Move,
    pub undo: Undo,
}

/// What a search for tries returns of a problem.
#[derive(Drop)]
pub(crate) enum Course {
    /// The only event of help play.
    NoTries,
    /// The events of a battle that are still to come.
    InBattle {
        battle: Battle,
        progress: TriesProgress,
    },
    /// Nothing more of help play.
    Ended,
}

/// What a search for tries returns next of a battle.
#[derive(Clone, Copy)]
pub(crate) enum TriesProgress {
    /// The beginning of set play.
    SetPlay,
    /// That set play isn't possible.
    NotPossible,
    /// The other events of set play.
    InSetPlay {
        progress: Progress,
    },
    /// The beginning of a group.
    Beginning {
        group: Group,
        /// The first moves that may be tries, as in `Firsts`.
        candidates: Candidates,
    },
    /// The next first move of a group.
    FirstMove {
        firsts: Firsts,
    },
    /// What Black faces after a first move.
    Faced {
        first: First,
    },
    /// The threats, in the position after Black has passed; `crossed` is the en passant square before.
    Threats {
        first: First,
        crossed: Option<Square>,
    },
    /// The next reply after a place.
    Reply {
        first: First,
        place: MovePlace,
    },
    /// The moves shown after a reply.
    BelowReply {
        first: First,
        reply: Played,
    },
    /// The refutations of a try.
    But {
        first: First,
    },
    /// The next refutation after a place.
    Refutation {
        first: First,
        place: MovePlace,
    },
    /// That the first move stalemates, which refutes it.
    Stalemate {
        first: First,
    },
    /// Nothing.
    Over,
}

/// What a step of a search for tries leaves.
#[derive(Drop)]
pub(crate) struct Step {
    /// What the search does next.
    pub progress: TriesProgress,
    /// The event that the step emits, if there is one.
    pub event: Option<TryEvent>,
}
