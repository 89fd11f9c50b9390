//! The squares where a man can be.
ghost use Rattle.std.specs.Prelude.{◌≡◌, ◌<◌, ◌==◌, ℕ, true, false};
ghost use Rattle.std.specs.Int.{bit_at};
ghost use Rattle.chess_core.specs.Position.{same_kind};
ghost use Rattle.chess_core.specs.declared.man.Kind.{Kind};
ghost use Rattle.chess_core.specs.declared.man.Kind.TheVariants.{Pawn};
ghost use Rattle.chess_reach.specs.ties.Whereabouts.{has};

use chess_core::{Square, Squares};

/// The squares where a man can be, by what it is there.
#[derive(Clone, Copy)]
pub(crate) struct Whereabouts {
    /// As the man that it is now.
    pub(crate) unpromoted: Squares,
    /// Promoted to another kind than a knight. It counts as a queen, which guards all that a rook, a
    /// bishop or a grasshopper does.
    pub(crate) queen: Squares,
    /// Promoted to a knight.
    pub(crate) knight: Squares,
}

/// Returns `homes` if there are squares, otherwise no square.
#[inline(always)]
pub(crate) fn if_any(squares: Squares, homes: Squares) -> Squares
    ensures { (s h : ℕ) → (bit_at squares s == 1) ≡ true → (bit_at homes h == 1) ≡ true
        → (bit_at result h == 1) ≡ true }
{
    if squares == 0 {
        return 0;
    }
    homes
}

impl Whereabouts {
    // Returns no square.
    #[inline(always)]
    pub(crate) fn nowhere() -> Whereabouts {
        Whereabouts {
            unpromoted: 0,
            queen: 0,
            knight: 0,
        }
    }

    // Returns the square on which the man is now.
    #[tactic(auto, using(crate::proofs::Parts::has_now, crate::proofs::Parts::has_now_alone))]
    #[inline(always)]
    pub(crate) fn at(square: Square) -> Whereabouts
        ensures here { (k : Kind) → has k k square result ≡ true }
        ensures alone { (k j : Kind) (t : ℕ) → t < 64 → has k j t result ≡ true
            → (t ≡ square) × (same_kind k Pawn ≡ true → same_kind j Pawn ≡ true) }
    {
        Whereabouts {
            unpromoted: 1u64 << square.index(),
            queen: 0,
            knight: 0,
        }
    }

    // Returns this square alone, for a man that may be promoted on it.
    #[tactic(auto, using(crate::proofs::Parts::has_all))]
    #[inline(always)]
    pub(crate) fn promoted_too(square: Square) -> Whereabouts
        ensures { (k j : Kind) → has k j square result ≡ true }
    {
        let here = 1u64 << square.index();
        Whereabouts {
            unpromoted: here,
            queen: here,
            knight: here,
        }
    }

    // Returns this square alone, for what the man can be at all.
    #[inline(always)]
    pub(crate) fn all_to(&self, square: Square) -> Whereabouts
        ensures { (k j : Kind) (s : ℕ) → has k j s self.now ≡ true → has k j square result ≡ true }
    {
        let here = 1u64 << square.index();
        Whereabouts {
            unpromoted: if_any(self.unpromoted, here),
            queen: if_any(self.queen, here),
            knight: if_any(self.knight, here),
        }
    }

    // Returns the squares of either.
    #[tactic(auto, using(crate::proofs::Parts::has_left, crate::proofs::Parts::has_right))]
    #[inline(always)]
    pub(crate) fn joined(&self, other: &Whereabouts) -> Whereabouts
        ensures first { (k j : Kind) (t : ℕ) → has k j t self.now ≡ true → has k j t result ≡ true }
        ensures second { (k j : Kind) (t : ℕ) → has k j t other.now ≡ true
            → has k j t result ≡ true }
    {
        Whereabouts {
            unpromoted: self.unpromoted | other.unpromoted,
            queen: self.queen | other.queen,
            knight: self.knight | other.knight,
        }
    }

    // Returns the squares of both.
    #[tactic(auto, using(crate::proofs::Parts::has_both))]
    #[inline(always)]
    pub(crate) fn within(&self, other: &Whereabouts) -> Whereabouts
        ensures { (k j : Kind) (t : ℕ) → has k j t self.now ≡ true → has k j t other.now ≡ true
            → has k j t result ≡ true }
    {
        Whereabouts {
            unpromoted: self.unpromoted & other.unpromoted,
            queen: self.queen & other.queen,
            knight: self.knight & other.knight,
        }
    }

    // Returns the squares that aren't among the others.
    #[tactic(auto, using(crate::proofs::Parts::has_off))]
    #[inline(always)]
    pub(crate) fn without(&self, other: &Whereabouts) -> Whereabouts
        ensures { (k j : Kind) (t : ℕ) → t < 64 → has k j t self.now ≡ true
            → has k j t other.now ≡ false → has k j t result ≡ true }
    {
        Whereabouts {
            unpromoted: self.unpromoted & !other.unpromoted,
            queen: self.queen & !other.queen,
            knight: self.knight & !other.knight,
        }
    }

    // Returns whether the man can be on a square of both.
    #[tactic(auto, using(crate::proofs::Parts::has_meeting))]
    #[inline(always)]
    pub(crate) fn meets(&self, other: &Whereabouts) -> bool
        ensures { (k j : Kind) (t : ℕ) → has k j t self.now ≡ true → has k j t other.now ≡ true
            → result ≡ true }
    {
        self.unpromoted & other.unpromoted | self.queen & other.queen | self.knight & other.knight
            != 0
    }

    // Returns the squares where the man can be at all.
    #[tactic(auto, using(crate::proofs::Parts::has_some))]
    #[inline(always)]
    pub(crate) fn anywhere(&self) -> Squares
        ensures { (k j : Kind) (t : ℕ) → has k j t self.now ≡ true → (bit_at result t == 1) ≡ true }
    {
        self.unpromoted | self.queen | self.knight
    }
}
