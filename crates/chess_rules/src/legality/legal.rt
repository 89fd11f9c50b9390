//! Tests whether a move is legal.
ghost use Rattle.std.specs.Prelude.{◌≡◌, ◌&&◌, ◌||◌, ℕ, Some, true};
ghost use Rattle.chess_core.specs.Castling.{has_unmoved};
ghost use Rattle.chess_core.specs.declared.man.Kind.TheVariants.{King};
ghost use Rattle.chess_core.specs.Position.{man_on, same_kind};
ghost use Rattle.chess_rules.specs.Legal.{can_castle, can_go, is_legal, is_pseudo_legal, last_rank, second_rank};
ghost use Rattle.chess_core.specs.WellFormed.{IsWellFormed};
ghost use Rattle.chess_attacks.specs.Reaches.{reaches};
ghost use Rattle.chess_core.specs.ties.Words.{word};
ghost use Rattle.chess_rules.specs.ties.Evasions.{AreEvasions};
ghost use Rattle.chess_rules.specs.ties.Blockers.{may_expose};
ghost use Rattle.chess_rules.specs.ties.Targets.{IsAimed, may_arrive};

use crate::legality::castling::can_castle;
use crate::legality::evasions::is_safe;
use chess_attacks::Rules;
use chess_attacks::reach::reaches;
use chess_core::{Board, Colour, Kind, Man, Move, Squares};

// Returns the rank on which the colour's pawns promote.
pub(crate) fn last_rank(colour: Colour) -> u8
    ensures { result ≡ last_rank colour }
{
    match colour {
        Colour::White => 8,
        Colour::Black => 1,
    }
}

// Returns the rank from which the colour's pawns may go two squares.
pub(crate) fn second_rank(colour: Colour) -> u8
    ensures { result ≡ second_rank colour }
{
    match colour {
        Colour::White => 2,
        Colour::Black => 7,
    }
}

// Returns whether the man is a king that still has its castling right.
fn is_unmoved_king(board: &Board, man: Man, m: Move) -> bool
    ensures { result ≡ (same_kind man.kind King && has_unmoved board.now.unmoved m.from) }
{
    man.kind.is(Kind::King) && board.unmoved().has(m.from)
}

// Returns whether a king with its castling right reaches the arrival or may castle there. Out of line:
// rare, and keeps the hot path short. The board is unchanged.
#[inline(never)]
fn can_king_go<R: Rules>(board: &mut Board, man: Man, m: &Move) -> bool
    requires here { man_on board.old.men m.now.from ≡ Some man }
    requires well_formed { IsWellFormed board.old }
    ensures answer { result ≡ (reaches board.old.men m.now.from m.now.to
        || can_castle R.rule board.old man m.now) }
    ensures board { board.new ≡ board.old }
{
    reaches(board, m.from, m.to) || can_castle::<R>(board, man, *m)
}

// Returns whether the man may go to the arrival, which is one of its arrival squares: only castling
// needs more tests. The board is unchanged.
#[inline(always)]
#[tactic(auto, using(crate::proofs::Arrivals::goes_on))]
fn can_go<R: Rules>(board: &mut Board, man: Man, m: &Move) -> bool
    requires here { man_on board.old.men m.now.from ≡ Some man }
    requires may_arrive { may_arrive board.old man m.now.from m.now.to ≡ true }
    requires well_formed { IsWellFormed board.old }
    ensures answer { result ≡ can_go R.rule board.old man m.now }
    ensures board { board.new ≡ board.old }
{
    if is_unmoved_king(board, man, *m) {
        can_king_go::<R>(board, man, m)
    } else {
        true
    }
}

/// Returns whether the move is pseudo-legal: legal, except that it may leave its own king in check. The
/// move must go to one of the man's `arrivals`; promotion and castling remain to be tested. The board is
/// unchanged.
#[inline(always)]
#[tactic(auto, using(crate::proofs::Arrivals::aimed_plain, crate::proofs::Arrivals::aimed_promotion, crate::proofs::Arrivals::may_go_aimed))]
pub fn is_pseudo_legal<R: Rules>(board: &mut Board, m: &Move) -> bool
    requires well_formed { IsWellFormed board.old }
    requires aimed { IsAimed R.rule board.old m.now }
    ensures answer { result ≡ is_pseudo_legal R.rule board.old m.now }
    ensures board { board.new ≡ board.old }
{
    if let Some(kind) = m.promo {
        return board.may_promote(kind);
    }
    match board.man_at(m.from) {
        Some(man) => can_go::<R>(board, man, m),
        None => false,
    }
}

// Returns whether the move is legal: pseudo-legal, and its own king isn't in check after it (FIDE Laws
// 3.9.2). `squares` are the squares from which a move may expose the mover's king, `evasion_squares` the
// squares where a move may parry a check. The board is unchanged. Inlined: both searches call it for
// each move, and the compiler wouldn't inline it by itself.
#[tactic(auto, unfolding(crate::specs::Legal::is_legal))]
#[inline(always)]
pub(crate) fn is_legal<R: Rules>(
    board: &mut Board,
    squares: Squares,
    evasion_squares: Squares,
    m: Move,
) -> bool
    requires well_formed { IsWellFormed board.old }
    requires aimed { IsAimed R.rule board.old m }
    requires squares { squares ≡ word (may_expose board.old.men board.old.turn) }
    requires evasion_squares { AreEvasions R.rule board.old.men board.old.turn evasion_squares }
    ensures answer { result ≡ is_legal R.rule board.old m }
    ensures board { board.new ≡ board.old }
{
    is_pseudo_legal::<R>(board, &m) && is_safe::<R>(board, squares, evasion_squares, m)
}
