//! Takes moves back.
ghost use Rattle.std.specs.Prelude.{◌≡◌, ℕ, IsSome, Some, true};
ghost use Rattle.chess_core.specs.Position.{man_on, with_man};
ghost use Rattle.chess_rules.specs.ties.Games.{RestoresPosition, WasPlayed};
ghost use Rattle.chess_rules.specs.Play.{corner, halfway, is_castling, without_at};
ghost use Rattle.chess_rules.specs.ties.Playing.{CanCastle};
ghost use Rattle.chess_rules.specs.ties.Undoing.{CanReturn, before_by, leaving_man, returned_men, return_square, uncastled_men};
ghost use Rattle.chess_core.specs.WellFormed.{IsWellFormed};

use crate::making_moves::play::{castle, corner, halfway, is_castling, put_at, remove_at};
use chess_attacks::Rules;
use chess_core::{Board, Kind, Man, Move, Square, Undo};

// Returns the man that left the origin: the pawn if it promoted.
fn leaving_man(man: Man, promo: Option<Kind>) -> Man
    ensures { result ≡ leaving_man man promo }
{
    match promo {
        Some(_) => Man {
            colour: man.colour,
            kind: Kind::Pawn,
        },
        None => man,
    }
}

// Returns the square to which the captured man returns: after en passant, one rank before the arrival.
// `None` if nobody was captured.
fn return_square(
    man: Man,
    m: Move,
    crossed: Option<Square>,
    captured: Option<Man>,
) -> Option<Square>
    ensures { result ≡ return_square man m crossed captured }
{
    if captured.is_none() {
        None
    } else if man.kind.is(Kind::Pawn) && m.from.file() != m.to.file() && crossed == Some(m.to) {
        Square::new(m.to.file(), m.from.rank())
    } else {
        Some(m.to)
    }
}

// Returns the castling rook to its corner.
#[tactic(auto, unfolding(crate::specs::ties::Undoing::uncastled_men))]
fn uncastle(board: &mut Board, man: Man, m: Move)
    requires { is_castling man m ≡ true
        → CanCastle board.old.men (halfway m) (corner m) }
    ensures { board.new ≡ record board.old { men = uncastled_men board.old.men man m } }
{
    if is_castling(man, m) {
        castle(board, halfway(m), corner(m));
    }
}

// Takes back the move of `man`, after its reborn man has left the board.
#[tactic(auto, unfolding(crate::specs::ties::Undoing::before_by, crate::specs::ties::Undoing::returned_men))]
fn go_back(board: &mut Board, man: Man, m: &Move, undo: &Undo)
    requires { CanReturn board.old.men man m.now undo.now }
    ensures { board.new ≡ before_by board.old man m.now undo.now }
{
    uncastle(board, man, *m);
    board.lift(m.to);
    put_at(
        board,
        return_square(man, *m, undo.crossed, undo.captured),
        undo.captured,
    );
    board.place(m.from, man);
    board.set_unmoved(undo.unmoved);
    board.set_crossed(undo.crossed);
    board.set_turn(board.turn().other());
}

// Removes the reborn man, if there is one.
fn lift_reborn(board: &mut Board, undo: &Undo)
    requires { (s : ℕ) → undo.now.rebirth ≡ Some s → IsSome (man_on board.old.men s) }
    ensures { board.new ≡ record board.old { men = without_at board.old.men undo.now.rebirth } }
{
    remove_at(board, undo.rebirth);
}

// Takes back a move: first removes the reborn man, then returns the men that moved and the captured man.
fn undo_move<R: Rules>(board: &mut Board, m: Move, undo: Undo)
    requires { WasPlayed R.rule board.old m undo }
    ensures { RestoresPosition R.rule board.old m undo board.new }
{
    lift_reborn(board, &undo);
    m.to.show_below_64();
    if let Some(arrived) = board.man_at(m.to) {
        go_back(board, leaving_man(arrived, m.promo), &m, &undo);
    }
}

/// Takes back the last move played. `undo` is what `play` returned for it.
pub fn unplay<R: Rules>(board: &mut Board, m: Move, undo: Undo)
    requires { WasPlayed R.rule board.old m undo }
    ensures before { RestoresPosition R.rule board.old m undo board.new }
    ensures well_formed { IsWellFormed board.new }
{
    undo_move::<R>(board, m, undo);
}
