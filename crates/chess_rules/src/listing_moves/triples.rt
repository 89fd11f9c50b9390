//! Triples of origin, arrival and promotion by their numbers, which are the order of moves. Cursors count
//! triples: after a move they are at its number plus 1.
ghost use Rattle.std.specs.Prelude.{◌≡◌, ◌<◌, ◌≤◌};
ghost use Rattle.chess_rules.specs.ties.Places.{HasNoMoveFrom, NamesMove, all_triples, per_origin, triple_at};

use crate::legality::targets::is_promoting;
use chess_attacks::words::next_bit;
use chess_core::{Board, Kind, Move, PROMOTIONS, Square, Squares};

// The number of triples with the same origin and arrival: one for each promotion.
pub(crate) const PER_ARRIVAL: u16 = PROMOTIONS as u16;

// The number of triples with the same origin.
pub(crate) const PER_ORIGIN: u16 = 64 * PER_ARRIVAL;

// The number of all triples of origin, arrival and promotion.
pub(crate) const TRIPLES: u16 = 64 * PER_ORIGIN;

// Returns the triple with this number, from 0 to `TRIPLES - 1`, in the order of moves.
pub(crate) fn move_at(number: u16) -> Move
    requires { number < all_triples }
    ensures { result ≡ triple_at number }
{
    Move {
        from: Square::numbered((number / PER_ORIGIN) as u8),
        to: Square::numbered((number / PER_ARRIVAL % 64) as u8),
        promo: Kind::promotion((number % PER_ARRIVAL) as usize),
    }
}

// Returns the first triple from `start` on that goes from `from` to one of the squares of `word`, with a
// promotion exactly if a pawn arrives on its last rank; `PER_ORIGIN` if there is none. Triples are counted
// from the first with this origin.
pub(crate) fn next_from(board: &Board, from: Square, word: Squares, start: u16) -> u16
    requires { start ≤ per_origin }
    ensures low { start ≤ result }
    ensures high { result ≤ per_origin }
    ensures barren { HasNoMoveFrom board.now from word start result }
    ensures named { result < per_origin → NamesMove board.now from word result }
{
    let Some(man) = board.man_at(from) else {
        return PER_ORIGIN;
    };
    let mut at = start;
    while let Some(to) = next_bit(word, (at / PER_ARRIVAL) as u8) {
        let first = u16::from(to.index()) * PER_ARRIVAL;
        if is_promoting(man, to) {
            return if at <= first { first + 1 } else { at };
        }
        if at <= first {
            return first;
        }
        at = first + PER_ARRIVAL;
    }
    PER_ORIGIN
}
