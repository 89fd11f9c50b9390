//! The squares that the men of the king's side can block.
ghost use Rattle.std.specs.Prelude.{◌≡◌, ◌<◌, ◌≤◌, ◌==◌, ℕ, true, Bool, slice_index_or};
ghost use Rattle.std.specs.Int.{bit_at};
ghost use Rattle.chess_core.specs.declared.man.Kind.{Kind};
ghost use Rattle.chess_reach.specs.ties.Guards.{AreBlocks};
ghost use Rattle.chess_reach.specs.ties.Ways.{IsUsual, nowhere};
ghost use Rattle.chess_reach.specs.ties.Whereabouts.{has};

use crate::ways::{Chain, MOVES, chain_of};
use chess_attacks::words::pop_first;
use chess_core::{Board, Colour, Kind, Squares};

/// The squares to which some man of the king's side, other than the king, gets, by the number of moves.
pub(crate) type Blocks = [Squares; MOVES];

// Adds where a man can be.
fn add_man(blocks: &mut Blocks, chain: &Chain)
    ensures kept { (n t : ℕ) → (bit_at (slice_index_or blocks.old n 0) t == 1) ≡ true
        → (bit_at (slice_index_or blocks.new n 0) t == 1) ≡ true }
    ensures added { (k j : Kind) (n t : ℕ) → n < MOVES
        → has k j t (slice_index_or chain.now n nowhere) ≡ true
        → (bit_at (slice_index_or blocks.new n 0) t == 1) ≡ true }
{
    for n in 0..MOVES {
        let squares = chain[n].anywhere();
        blocks[n] |= squares;
    }
}

/// Returns the squares to which some man gets at all.
#[inline(always)]
pub(crate) fn all_blockable(blocks: &Blocks) -> Squares
    ensures { (n t : ℕ) → n < MOVES → (bit_at (slice_index_or blocks.now n 0) t == 1) ≡ true
        → (bit_at result t == 1) ≡ true }
{
    let mut all = 0u64;
    for n in 0..MOVES {
        all |= blocks[n];
    }
    all
}

/// Returns the squares to which the men of a colour get, other than its king, by the number of moves up to
/// `most`.
pub(crate) fn blocks_of(board: &Board, colour: Colour, most: usize, are_reborn: bool) -> Blocks
    requires { most < MOVES }
    ensures { (allowed : Kind → Bool) → IsUsual allowed
        → AreBlocks are_reborn allowed board.now.men colour most result }
{
    let mut blocks = [0u64; MOVES];
    let men = board.side(colour) & !board.squares(colour, Kind::King);
    let mut rest = men;
    while let Some(from) = pop_first(&mut rest) {
        if let Some(man) = board.man_at(from) {
            let chain = chain_of(man, from, most, Squares::MAX, are_reborn);
            add_man(&mut blocks, &chain);
        }
    }
    blocks
}
