//! Bitboards: sets of squares as 64-bit words, bit 0 for a1, bit 63 for h8; and their squares in order.
ghost use Rattle.std.specs.Prelude.{◌≡◌, ℕ, ◌<◌, ◌≤◌, ◌-◌, ◌*◌, ◌^◌, ◌==◌, ◌&&◌, IfSome, None, find, nat_le};
ghost use Rattle.std.specs.Int.{bit_at, trailing_zeros, w64};
ghost use Rattle.std.specs.List.{range_with_len};
ghost use Rattle.chess_core.specs.Squares.{is_square};
ghost use Rattle.chess_core.specs.ties.Words.{word};
ghost use Rattle.chess_attacks.specs.ties.Taking.{IsPopped};

use chess_core::{Square, Squares};

/// Returns the bitboard of this square only, or the empty bitboard for `None`.
#[tactic(auto, using(crate::proofs::Bits::word_only, crate::proofs::Bits::word_empty))]
pub fn only(square: Option<Square>) -> Squares
    ensures { result ≡ word (λ t. is_square square t) }
{
    match square {
        Some(square) => 1u64 << square.index(),
        None => 0,
    }
}

/// Returns whether the bitboard holds the square.
pub fn contains(word: Squares, square: Square) -> bool
    ensures { result ≡ (bit_at word square == 1) }
{
    word >> square.index() & 1 == 1
}

/// Returns the lowest square of the bitboard whose number is `from` or more (a1 is 0, h8 is 63), or `None`.
pub fn next_bit(word: Squares, from: u8) -> Option<Square>
    ensures value { result ≡ find (λ s. bit_at word s == 1) (range_with_len from (64 - from)) }
    ensures following { IfSome result (λ s. from ≤ s) }
{
    if from >= 64 {
        return None;
    }
    let rest = word & (u64::MAX << from);
    if rest == 0 {
        return None;
    }
    Some(lowest(rest))
}

/// Returns the squares of the bitboard whose number is `from` or more.
#[tactic(auto, using(crate::proofs::Bits::none_from, crate::proofs::Bits::kept_from))]
pub fn squares_from(word: Squares, from: u8) -> Squares
    ensures { (t : ℕ) → t < 64 → (bit_at result t == 1) ≡ (nat_le from t && bit_at word t == 1) }
{
    if from >= 64 {
        return 0;
    }
    let following = u64::MAX << from;
    word & following
}

/// Removes the lowest square from the bitboard and returns it; `None` if the bitboard is empty. A `while
/// let` loop over it visits all squares in order.
#[inline(always)]
#[tactic(auto, using(crate::proofs::LowestBit::lowest_goes))]
pub fn pop_first(word: &mut Squares) -> Option<Square>
    ensures none { result ≡ None → word.old ≡ 0 }
    ensures taken { IfSome result (λ s. IsPopped word.old s word.new) }
{
    let squares = *word;
    if squares == 0 {
        return None;
    }
    *word = squares & (squares - 1);
    Some(lowest(squares))
}

// Returns the lowest square of a bitboard that isn't empty.
pub(crate) fn lowest(word: Squares) -> Square
    requires { 0 < word }
    ensures { result ≡ trailing_zeros w64 word }
{
    Square::numbered(word.trailing_zeros() as u8)
}

/// Returns the highest square of a bitboard that isn't empty.
pub fn highest(word: Squares) -> Square
    requires { 0 < word }
    ensures low { 2 ^ result ≤ word }
    ensures high { word < 2 * 2 ^ result }
    ensures small { result < 64 }
{
    Square::numbered(word.ilog2() as u8)
}
