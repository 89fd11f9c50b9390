//! The mating side's men: where each can be, and from where it guards a square.
ghost use Rattle.chess_rules.specs.Play.{rebirth};
ghost use Rattle.std.specs.Prelude.{◌≡◌, ◌≢◌, ◌+◌, ◌<◌, ◌≤◌, ℕ, true, IfSome, Some, MatchOption, slice_index_or};
ghost use Rattle.chess_core.specs.declared.man.Kind.{Kind};
ghost use Rattle.chess_reach.specs.Reach.{guards};
ghost use Rattle.chess_reach.specs.ties.Whereabouts.{has};
ghost use Rattle.chess_reach.specs.ties.Ways.{CanBe, nowhere};
ghost use Rattle.chess_reach.specs.ties.Guards.{AreGuards};

use crate::ways::{Chain, MOVES, at_rest, chain_of, without_hops};
use crate::whereabouts::Whereabouts;
use chess_attacks::unblocked::unblocked_reach;
use chess_attacks::words::pop_first;
use chess_core::{Board, Colour, Kind, Man, Square, Squares};

/// The greatest number of men of the mating side with which plans are searched.
pub const MOST_GUARDS: usize = 8;

// The most squares for which it pays to look from each.
const MOST_LOOKED_FROM: u32 = 4;

/// A man of the mating side.
#[derive(Clone, Copy)]
pub(crate) struct Guard {
    pub(crate) kind: Kind,
    /// Its square now.
    pub(crate) from: Square,
    /// Where it can be within each number of moves.
    pub(crate) chain: Chain,
}

// Returns what men of a kind guard from these squares. For speed only.
#[inline(always)]
fn lines_from(colour: Colour, kind: Kind, squares: Squares) -> Squares {
    let mut lines = 0u64;
    let mut rest = squares;
    while let Some(square) = pop_first(&mut rest) {
        let more = unblocked_reach(Man { colour, kind }, square);
        lines |= more;
    }
    lines
}

impl Guard {
    // Returns a man without moves, which fills an entry that isn't used.
    pub(crate) fn unused() -> Guard {
        Guard {
            kind: Kind::King,
            from: Square::A1,
            chain: [Whereabouts::nowhere(); MOVES],
        }
    }

    // Returns where a man of this colour guards `square` from, other than `king`.
    #[inline(always)]
    pub(crate) fn guarding(&self, colour: Colour, king: Square, square: Square) -> Whereabouts
        ensures { (j : Kind) (s : ℕ) → s < 64 → CanBe self.now.kind j → s ≢ king
            → guards colour j s square ≡ true → has self.now.kind j s result ≡ true }
    {
        square.show_below_64();
        let enemy = colour.other();
        let off = !(1u64 << king.index());
        let kind = without_hops(self.kind);
        let unpromoted = unblocked_reach(
            Man {
                colour: enemy,
                kind,
            },
            square,
        ) & off;
        if !self.kind.is(Kind::Pawn) {
            return Whereabouts {
                unpromoted,
                queen: 0,
                knight: 0,
            };
        }
        let queen = unblocked_reach(
            Man {
                colour: enemy,
                kind: Kind::Queen,
            },
            square,
        ) & off;
        let knight = unblocked_reach(
            Man {
                colour: enemy,
                kind: Kind::Knight,
            },
            square,
        ) & off;
        Whereabouts {
            unpromoted,
            queen,
            knight,
        }
    }

    // Returns `square` itself, if a man of this colour that is captured there guards it from where it is reborn.
    fn defending(&self, colour: Colour, square: Square) -> Whereabouts
        ensures { (j : Kind) (h : ℕ) → CanBe self.now.kind j → h ≢ square
            → rebirth colour j square ≡ Some h → guards colour j h square ≡ true
            → has self.now.kind j square result ≡ true }
    {
        square.show_below_64();
        let kind = self.kind;
        let homes = at_rest(
            Man { colour, kind },
            &Whereabouts::promoted_too(square),
            true,
        );
        let lines = self.guarding(colour, square, square);
        lines.within(&homes).all_to(square)
    }

    // Returns where a man of this colour holds `square` from, other than `king`: from where it guards it, and on
    // the square itself, if it guards it from where it is reborn.
    #[inline(always)]
    pub(crate) fn holding(
        &self,
        colour: Colour,
        king: Square,
        square: Square,
        are_reborn: bool,
    ) -> Whereabouts
        ensures guarded { (j : Kind) (s : ℕ) → s < 64 → CanBe self.now.kind j → s ≢ king
            → guards colour j s square ≡ true → has self.now.kind j s result ≡ true }
        ensures defended { (j : Kind) (h : ℕ) → CanBe self.now.kind j → are_reborn ≡ true
            → h ≢ square
            → rebirth colour j square ≡ Some h → guards colour j h square ≡ true
            → has self.now.kind j square result ≡ true }
    {
        let guarding = self.guarding(colour, king, square);
        if !are_reborn {
            return guarding;
        }
        guarding.joined(&self.defending(colour, square))
    }

    // Returns the squares that a man of this colour guards from these, or `seen` if they are many. For speed
    // only.
    #[inline(always)]
    pub(crate) fn sight(&self, colour: Colour, from: &Whereabouts, seen: Squares) -> Squares {
        if from.anywhere().count_ones() > MOST_LOOKED_FROM {
            return seen;
        }
        let sight = lines_from(colour, self.kind, from.unpromoted);
        if !self.kind.is(Kind::Pawn) {
            return sight;
        }
        sight
            | lines_from(colour, Kind::Queen, from.queen)
            | lines_from(colour, Kind::Knight, from.knight)
    }

    // Returns the fewest moves, at least `least` and at most `spare` more, in which the man gets to one of
    // these squares; `None` if it doesn't.
    #[inline(always)]
    pub(crate) fn fewest(&self, squares: &Whereabouts, least: usize, spare: usize) -> Option<usize>
        ensures within { IfSome result (λ n. (least ≤ n) × (n ≤ least + spare)) }
        ensures fewest { (j : Kind) (s n : ℕ) → least ≤ n → n ≤ least + spare → n < MOVES
            → has self.now.kind j s (slice_index_or self.now.chain n nowhere) ≡ true
            → has self.now.kind j s squares.now ≡ true → MatchOption result ⊥ (λ f. f ≤ n) }
    {
        if squares.anywhere() == 0 {
            return None;
        }
        let mut moves = least;
        while moves < MOVES && moves - least <= spare {
            if self.chain[moves].meets(squares) {
                return Some(moves);
            }
            moves += 1;
        }
        None
    }
}

/// Lists the men of a colour, each with where it can be within each number of moves up to `most`, if its pawns
/// capture on squares of `prey` alone. Returns their number, or `None` if there are more than eight.
pub(crate) fn list_guards(
    board: &Board,
    colour: Colour,
    most: usize,
    prey: Squares,
    are_reborn: bool,
    guards: &mut [Guard; MOST_GUARDS],
) -> Option<usize>
    requires { most < MOVES }
    ensures { IfSome result
        (λ count. AreGuards are_reborn prey board.now.men colour most guards.new count) }
{
    let mut rest = board.side(colour);
    let mut count = 0;
    while let Some(from) = pop_first(&mut rest) {
        if count == MOST_GUARDS {
            return None;
        }
        let Some(man) = board.man_at(from) else {
            return None;
        };
        guards[count] = Guard {
            kind: man.kind,
            from,
            chain: chain_of(
                Man {
                    colour,
                    kind: man.kind,
                },
                from,
                most,
                prey,
                are_reborn,
            ),
        };
        count += 1;
    }
    Some(count)
}
