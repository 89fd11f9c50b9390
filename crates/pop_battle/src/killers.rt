//! The moves that decided tests.
ghost use Rattle.std.specs.List.{copy_within, repeat};
ghost use Rattle.std.specs.Prelude.{[], ◌<◌, ◌==◌, ◌∷◌, ◌≡◌, if◌then◌else◌, slice_index_or, slice_set};
ghost use Rattle.pop_stipulation.specs.declared.stipulation.Battle.TheVariants.{Direct};

use chess_rules::MovePlace;
use pop_stipulation::{Battle, MOST_HALF_MOVES};

/// The number of killers that stay when each moves a move deeper: the last two fall out.
const KEPT: usize = MOST_HALF_MOVES - 2;

/// For each number of half-moves below `MOST_HALF_MOVES`, the last two moves that decided a position with that many
/// half-moves left. A direct mate tries them first in the next position with as many half-moves left. A
/// killer may be an illegal move there: a bad guess costs only time. A selfmate tries its moves in order,
/// since the move that decided last is a bad guess.
#[derive(Drop)]
pub struct Killers {
    places: [MovePlace; MOST_HALF_MOVES],
    earlier: [MovePlace; MOST_HALF_MOVES],
}

impl Killers {
    /// Returns killers that are all at the start, before the first triple.
    pub fn none() -> Killers
        ensures last { result.places ≡ repeat MOST_HALF_MOVES (0 ∷ []) }
        ensures earlier { result.earlier ≡ repeat MOST_HALF_MOVES (0 ∷ []) }
    {
        Killers {
            places: [MovePlace::start(); MOST_HALF_MOVES],
            earlier: [MovePlace::start(); MOST_HALF_MOVES],
        }
    }

    /// Returns the killer for a position with `left` half-moves left; the start for a selfmate.
    pub fn of(&self, battle: Battle, left: usize) -> MovePlace
        ensures { battle ≡ Direct → left < MOST_HALF_MOVES
            → result ≡ slice_index_or self.now.places left 0 }
    {
        if battle == Battle::Direct && left < MOST_HALF_MOVES {
            self.places[left]
        } else {
            MovePlace::start()
        }
    }

    /// Returns the second killer for a position with `left` half-moves left; the start for a selfmate.
    pub fn earlier(&self, battle: Battle, left: usize) -> MovePlace
        ensures { battle ≡ Direct → left < MOST_HALF_MOVES
            → result ≡ slice_index_or self.now.earlier left 0 }
    {
        if battle == Battle::Direct && left < MOST_HALF_MOVES {
            self.earlier[left]
        } else {
            MovePlace::start()
        }
    }

    /// Shifts each killer two half-moves deeper.
    pub fn lengthen(&mut self)
        ensures last { self.new.places ≡ copy_within self.old.places 0 KEPT 2 }
        ensures earlier { self.new.earlier ≡ copy_within self.old.earlier 0 KEPT 2 }
    {
        self.places.copy_within(0..KEPT, 2);
        self.earlier.copy_within(0..KEPT, 2);
    }

    /// Records a killer for `left` half-moves; if it differs from the previous one, that becomes the
    /// second.
    pub fn put(&mut self, left: usize, place: MovePlace)
        ensures last { left < MOST_HALF_MOVES
            → self.new.places ≡ slice_set self.old.places left place }
        ensures earlier { left < MOST_HALF_MOVES → self.new.earlier
            ≡ (if slice_index_or self.old.places left 0 == place then self.old.earlier
            else slice_set self.old.earlier left (slice_index_or self.old.places left 0)) }
    {
        if left < MOST_HALF_MOVES {
            if !self.places[left].is(place) {
                self.earlier[left] = self.places[left];
            }
            self.places[left] = place;
        }
    }
}
