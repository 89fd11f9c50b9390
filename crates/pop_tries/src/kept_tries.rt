//! The first moves that may be tries, and what is known of some that are.
ghost use Rattle.std.specs.Prelude.{◌≡◌, ◌<◌, ◌⊎◌, ℕ, IfSome, Some};
ghost use Rattle.pop_tries.specs.ties.Candidates.{candidates_of, try_at};

use crate::move_set::MoveSet;
use crate::refuting::Refuting;

/// The most tries that are kept.
pub(crate) const MOST_KEPT: usize = 16;

/// A try, by its place in the order of moves, and what is known of its refutations. At place 0 is no move.
#[derive(Clone, Copy)]
pub(crate) struct KeptTry {
    pub refuting: Refuting,
    pub place: u16,
}

/// The first moves that may be tries, and some that are.
#[derive(Clone, Copy)]
pub(crate) struct Candidates {
    /// The first tries that were found.
    pub kept: [KeptTry; MOST_KEPT],
    /// How many tries are kept; it affects speed only.
    count: usize,
    /// Holds the first moves that may be tries. `None` if nothing is known.
    pub set: Option<MoveSet>,
}

impl Candidates {
    /// Returns candidates of this set, of which none is kept.
    pub(crate) fn of(set: Option<MoveSet>) -> Candidates
        ensures { result ≡ candidates_of set }
    {
        let none = KeptTry {
            refuting: Refuting::none(),
            place: 0,
        };
        Candidates {
            kept: [none; MOST_KEPT],
            count: 0,
            set,
        }
    }

    /// Keeps a try and its refutations, if they are known and there is room.
    pub(crate) fn keep(&mut self, place: u16, refuting: Option<Refuting>)
        ensures set { self.new.set ≡ self.old.set }
        ensures kept { (i : ℕ) → i < MOST_KEPT
            → (try_at self.new.kept i ≡ try_at self.old.kept i)
            ⊎ ((refuting ≡ Some (try_at self.new.kept i).refuting)
            × ((try_at self.new.kept i).place ≡ place)) }
    {
        let Some(refuting) = refuting else {
            return;
        };
        let at = self.count;
        if at < MOST_KEPT {
            self.kept[at] = KeptTry { refuting, place };
            self.count = at + 1;
        }
    }

    /// Returns the refutations that are kept at `index`, if they are of the try at `place`.
    pub(crate) fn kept_at(&self, index: usize, place: u16) -> Option<Refuting>
        ensures { IfSome result (λ set. (i : ℕ) × (i < MOST_KEPT)
            × (set ≡ (try_at self.now.kept i).refuting)
            × ((try_at self.now.kept i).place ≡ place)) }
    {
        if index < MOST_KEPT {
            let kept = self.kept[index];
            if kept.place == place {
                return Some(kept.refuting);
            }
        }
        None
    }
}
