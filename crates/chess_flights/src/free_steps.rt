//! The steps of the enemy king that no man of its own bars, and the moves that do no more than bring a man
//! to a square. Both standing flights and quiet steps use them.
ghost use Rattle.std.specs.Prelude.{◌≡◌, ◌<◌, ◌==◌, false, true};
ghost use Rattle.std.specs.Int.{bit_at};
ghost use Rattle.chess_core.specs.Position.{other};
ghost use Rattle.chess_core.specs.declared.man.Move.{Move};
ghost use Rattle.chess_flights.specs.ties.Flights.{AreOpen};
ghost use Rattle.chess_flights.specs.ties.FreeSteps.{GoesSimply, NoneHops};
ghost use Rattle.chess_rules.specs.Play.{is_castling};
ghost use Rattle.chess_rules.specs.ties.Targets.{is_promoting};

use chess_attacks::Rules;
use chess_attacks::leaps::king_leaps;
use chess_attacks::lines::occupied;
use chess_attacks::words::only;
use chess_core::{Board, Colour, Kind, LAST_RANKS, Man, Square, Squares};

/// Returns whether no grasshopper is on the board.
#[tactic(auto, using(crate::proofs::QuietFilter::no_grasshopper))]
pub fn none_hops(board: &Board) -> bool
    ensures { result ≡ true → NoneHops board.now.men }
{
    board.squares(Colour::White, Kind::Grasshopper)
        | board.squares(Colour::Black, Kind::Grasshopper)
        == 0
}

/// Returns the squares to which the enemy king on `king` may step, attacked or not: the squares next to
/// it without a man of its side and without a king, and in Circe without any man.
#[tactic(auto, using(crate::proofs::QuietFilter::open_in_circe, crate::proofs::QuietFilter::open_elsewhere))]
pub fn free_steps<R: Rules>(board: &Board, king: Square) -> Squares
    ensures { AreOpen R.rule board.now.men (other board.now.turn) king result }
{
    let near = king_leaps(king);
    if R::captures_are_reborn() {
        return near & !occupied(board);
    }
    let mover = board.turn();
    near & !(board.side(mover.other()) | board.squares(mover, Kind::King))
}

// Returns the squares to which the man on `from` goes by castling or with promotion, if at all.
fn special_arrivals(man: Man, from: Square) -> Squares
    ensures { (m : Move) → m.from ≡ from → m.to < 64 → (bit_at result m.to == 1) ≡ false
        → (is_castling man m ≡ false) × (is_promoting man m.to ≡ false) }
{
    from.show_below_64();
    if man.kind.is(Kind::Pawn) {
        return LAST_RANKS;
    }
    if man.kind.is(Kind::King) {
        return !king_leaps(from);
    }
    0
}

/// Returns the squares to which the man's move may be more than simple: by castling, promotion or en
/// passant, and in Circe by any capture.
pub fn unsimple_squares<R: Rules>(board: &Board, man: Man, from: Square) -> Squares
    ensures { (m : Move) → m.from ≡ from → m.to < 64 → (bit_at result m.to == 1) ≡ false
        → GoesSimply R.rule board.now man m }
{
    let captures = if R::captures_are_reborn() {
        occupied(board)
    } else {
        0
    };
    only(board.crossed()) | special_arrivals(man, from) | captures
}
