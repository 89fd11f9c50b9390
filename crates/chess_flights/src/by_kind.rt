//! A value for each kind of man, and what is computed for all kinds. Code here and above that goes through
//! all kinds uses this module.
ghost use Rattle.std.specs.Prelude.{◌≡◌, ◌==◌, ℕ, true};
ghost use Rattle.std.specs.Int.{bit_at};
ghost use Rattle.chess_core.specs.declared.man.Kind.{Kind};
ghost use Rattle.chess_flights.specs.ties.ByKind.{value_for};

use chess_core::{Kind, Squares};
use std::alloc::AllocError;

/// A value for each kind.
#[derive(Copy)]
pub struct ByKind<T> {
    /// The value for kings.
    pub kings: T,
    /// The value for queens.
    pub queens: T,
    /// The value for rooks.
    pub rooks: T,
    /// The value for bishops.
    pub bishops: T,
    /// The value for knights.
    pub knights: T,
    /// The value for pawns.
    pub pawns: T,
    /// The value for grasshoppers.
    pub grasshoppers: T,
    /// The value for nightriders.
    pub nightriders: T,
}

impl<T: Copy> Clone for ByKind<T> {
    ghost is_clone = { λ values copy. copy ≡ values };

    fn clone(&self) -> Result<ByKind<T>, AllocError> {
        Ok(*self)
    }
}

/// A computation for one kind, from the value for it.
pub trait ForKind<T> {
    ghost use Rattle.chess_core.specs.declared.man.Kind.{Kind};

    /// What is computed for a kind.
    type Out;

    /// What the computation requires; nothing unless it says so.
    ghost fits: { Self → Type 0 } = { λ _. Unit {0} };

    /// What the result for a kind and its value means.
    ghost holds: { Self → Kind → T → Self.Out → Type 0 };

    /// Returns the result for the kind, whose value is `value`.
    fn of(&self, kind: Kind, value: T) -> Self::Out
        requires { fits self.now }
        ensures { holds self.now kind value result };
}

/// Returns the same value for each kind.
#[inline(always)]
pub fn for_all<T: Copy>(value: T) -> ByKind<T>
    ensures { (k : Kind) → value_for result k ≡ value }
{
    ByKind {
        kings: value,
        queens: value,
        rooks: value,
        bishops: value,
        knights: value,
        pawns: value,
        grasshoppers: value,
        nightriders: value,
    }
}

/// Returns the field that is named after this kind.
#[inline(always)]
pub fn value_for<T: Copy>(values: &ByKind<T>, kind: Kind) -> T
    ensures { result ≡ value_for values.now kind }
{
    match kind {
        Kind::King => values.kings,
        Kind::Queen => values.queens,
        Kind::Rook => values.rooks,
        Kind::Bishop => values.bishops,
        Kind::Knight => values.knights,
        Kind::Pawn => values.pawns,
        Kind::Grasshopper => values.grasshoppers,
        Kind::Nightrider => values.nightriders,
    }
}

/// Computes `f` for each kind.
#[inline(always)]
pub fn for_each_kind<T: Copy, F: ForKind<T>>(f: &F, values: &ByKind<T>) -> ByKind<F::Out>
    requires { F.fits f.now }
    ensures { (k : Kind) → F.holds f.now k (value_for values.now k) (value_for result k) }
{
    ByKind {
        kings: f.of(Kind::King, values.kings),
        queens: f.of(Kind::Queen, values.queens),
        rooks: f.of(Kind::Rook, values.rooks),
        bishops: f.of(Kind::Bishop, values.bishops),
        knights: f.of(Kind::Knight, values.knights),
        pawns: f.of(Kind::Pawn, values.pawns),
        grasshoppers: f.of(Kind::Grasshopper, values.grasshoppers),
        nightriders: f.of(Kind::Nightrider, values.nightriders),
    }
}

/// Returns whether `f` is true for each kind. Stops at the first kind for which it is false. `false` promises
/// nothing: it costs callers time alone.
#[inline(always)]
pub fn is_for_all<T: Copy, F: ForKind<T, Out = bool>>(f: &F, values: &ByKind<T>) -> bool
    requires { F.fits f.now }
    ensures { result ≡ true → (k : Kind) → F.holds f.now k (value_for values.now k) true }
{
    f.of(Kind::Queen, values.queens)
        && f.of(Kind::Rook, values.rooks)
        && f.of(Kind::Bishop, values.bishops)
        && f.of(Kind::Knight, values.knights)
        && f.of(Kind::Pawn, values.pawns)
        && f.of(Kind::Grasshopper, values.grasshoppers)
        && f.of(Kind::Nightrider, values.nightriders)
        && f.of(Kind::King, values.kings)
}

/// Returns the squares of all kinds.
#[inline(always)]
pub fn union_of(squares: &ByKind<Squares>) -> Squares
    ensures all { (k : Kind) (s : ℕ) → (bit_at (value_for squares.now k) s == 1) ≡ true
        → (bit_at result s == 1) ≡ true }
    ensures alone { (s : ℕ) → (bit_at result s == 1) ≡ true
        → (k : Kind) × ((bit_at (value_for squares.now k) s == 1) ≡ true) }
{
    squares.kings
        | squares.queens
        | squares.rooks
        | squares.bishops
        | squares.knights
        | squares.pawns
        | squares.grasshoppers
        | squares.nightriders
}
