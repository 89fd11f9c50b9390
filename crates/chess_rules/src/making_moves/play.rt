//! Makes moves on the board.
ghost use Rattle.std.specs.Prelude.{◌≡◌, ℕ, IsSome, None, Some, false, true};
ghost use Rattle.chess_core.specs.Position.{man_on, same_kind};
ghost use Rattle.chess_core.specs.declared.man.Man.{Man};
ghost use Rattle.chess_core.specs.declared.man.Kind.TheVariants.{King};
ghost use Rattle.chess_rules.specs.Play.{position_after_by, arriving_man, capture_square, captured_man, corner, halfway, is_castling, is_double_step, man_on_at, move_man, moved_men, put_at, rebirth, rebirth_at, undo_by, unmoved_with_rook, unmoved_without_at, without_at, position_after, undo_of};
ghost use Rattle.chess_rules.specs.ties.Playing.{CanCastle, CanMove};
ghost use Rattle.chess_core.specs.WellFormed.{IsWellFormed};
ghost use Rattle.chess_rules.specs.Legal.{is_pseudo_legal};

use chess_attacks::Rules;
use chess_core::{Board, Colour, Kind, Man, Move, Square, Undo, Unmoved};

/// Returns the man that arrives: the man itself, or the piece to which it promotes.
pub fn arriving_man(man: Man, promo: Option<Kind>) -> Man
    ensures { result ≡ arriving_man man promo }
{
    match promo {
        Some(kind) => Man {
            colour: man.colour,
            kind,
        },
        None => man,
    }
}

/// Returns the corner of the rook with which a king castles by this move. For other moves the result
/// means nothing.
pub fn corner(m: Move) -> Square
    ensures { result ≡ corner m }
{
    let from = m.from.index();
    let first = from - from % 8;
    Square::numbered(if m.from < m.to { first + 7 } else { first })
}

/// Returns the square halfway between origin and arrival: the one that a castling king or a pawn's double
/// step crosses.
pub fn halfway(m: Move) -> Square
    ensures { result ≡ halfway m }
{
    Square::numbered((m.from.index() + m.to.index()) / 2)
}

/// Returns whether the move is castling if this man makes it: a king goes two files along its rank.
pub fn is_castling(man: Man, m: Move) -> bool
    ensures { result ≡ is_castling man m }
{
    man.kind.is(Kind::King)
        && m.from.rank() == m.to.rank()
        && (m.from.file() + 2 == m.to.file() || m.to.file() + 2 == m.from.file())
}

// Returns whether the move is a double step if this man makes it.
fn is_double_step(man: Man, m: Move) -> bool
    ensures { result ≡ is_double_step man m }
{
    man.kind.is(Kind::Pawn)
        && (m.from.rank() + 2 == m.to.rank() || m.to.rank() + 2 == m.from.rank())
}

/// Returns the square of the captured man, or `None` if the move captures nothing. For en passant it is one
/// rank before the arrival.
#[tactic(auto, unfolding(crate::specs::Play::capture_square))]
pub fn capture_square(board: &Board, man: Man, m: Move) -> Option<Square>
    ensures { result ≡ capture_square board.now man m }
{
    if board.man_at(m.to).is_some() {
        Some(m.to)
    } else if man.kind.is(Kind::Pawn)
        && m.from.file() != m.to.file()
        && board.crossed() == Some(m.to)
    {
        Square::new(m.to.file(), m.from.rank())
    } else {
        None
    }
}

// Removes the man on the square, if there is a square.
pub(crate) fn remove_at(board: &mut Board, square: Option<Square>)
    requires { (s : ℕ) → square ≡ Some s → IsSome (man_on board.old.men s) }
    ensures { board.new ≡ record board.old { men = without_at board.old.men square } }
{
    if let Some(square) = square {
        board.lift(square);
    }
}

// Carries out the move on the board, rebirth apart: moves the man, removes the captured man, and in
// castling moves the rook.
#[inline(always)]
#[tactic(auto, using(crate::proofs::Plays::capture_clears), unfolding(crate::specs::Play::moved_men))]
fn move_men(board: &mut Board, man: Man, m: Move, captured: Option<Square>)
    requires moves { CanMove board.old man m }
    requires captured { captured ≡ capture_square board.old man m }
    ensures { board.new ≡ record board.old { men = moved_men board.old man m } }
{
    board.lift(m.from);
    remove_at(board, captured);
    board.place(m.to, arriving_man(man, m.promo));
    if is_castling(man, m) {
        castle(board, corner(m), halfway(m));
    }
}

// Moves the rook on `from`, if there is one, to `to`.
pub(crate) fn castle(board: &mut Board, from: Square, to: Square)
    requires { CanCastle board.old.men from to }
    ensures { board.new ≡ record board.old {
      men = move_man board.old.men from to
          (man_on board.old.men from);
    } }
{
    if let Some(rook) = board.man_at(from) {
        board.lift(from);
        board.place(to, rook);
    }
}

// Returns the home square of a man captured on `square`; `None` for kings (Popeye manual, Circe).
#[tactic(auto, unfolding(crate::specs::Play::rebirth))]
fn rebirth(colour: Colour, kind: Kind, square: Square) -> Option<Square>
    ensures { result ≡ rebirth colour kind square }
{
    let light = (square.file() + square.rank()) % 2 == 1;
    match (colour, kind) {
        (_, Kind::King) => None,
        (Colour::White, Kind::Queen) => Some(Square::D1),
        (Colour::Black, Kind::Queen) => Some(Square::D8),
        (Colour::White, Kind::Rook) => Some(if light { Square::H1 } else { Square::A1 }),
        (Colour::Black, Kind::Rook) => Some(if light { Square::A8 } else { Square::H8 }),
        (Colour::White, Kind::Bishop) => Some(if light { Square::F1 } else { Square::C1 }),
        (Colour::Black, Kind::Bishop) => Some(if light { Square::C8 } else { Square::F8 }),
        (Colour::White, Kind::Knight) => Some(if light { Square::B1 } else { Square::G1 }),
        (Colour::Black, Kind::Knight) => Some(if light { Square::G8 } else { Square::B8 }),
        (Colour::White, Kind::Pawn) => Square::new(square.file(), 2),
        (Colour::Black, Kind::Pawn) => Square::new(square.file(), 7),
        (Colour::White, _) => Square::new(square.file(), 8),
        (Colour::Black, _) => Square::new(square.file(), 1),
    }
}

// Returns the man on the square, or `None` without a square or a man.
fn man_on_at(board: &Board, square: Option<Square>) -> Option<Man>
    ensures { result ≡ man_on_at board.now.men square }
{
    match square {
        Some(square) => board.man_at(square),
        None => None,
    }
}

// Returns the square on which the captured man is reborn, or `None` if it isn't: without Circe, or where
// its home square is occupied.
fn rebirth_at(
    board: &Board,
    are_reborn: bool,
    captured: Option<Man>,
    square: Option<Square>,
) -> Option<Square>
    ensures { result ≡ rebirth_at are_reborn board.now.men captured square }
{
    let Some(man) = captured else {
        return None;
    };
    let Some(square) = square else {
        return None;
    };
    if !are_reborn {
        return None;
    }
    let Some(home) = rebirth(man.colour, man.kind, square) else {
        return None;
    };
    if board.man_at(home).is_some() {
        None
    } else {
        Some(home)
    }
}

// Places the man on the square; without a square or a man it does nothing.
pub(crate) fn put_at(board: &mut Board, square: Option<Square>, man: Option<Man>)
    requires empty { (r : ℕ) → square ≡ Some r → man_on board.old.men r ≡ None }
    requires mortal { (y : Man) → man ≡ Some y → same_kind y.kind King ≡ false }
    ensures { board.new ≡ record board.old { men = put_at board.old.men square man } }
{
    if let Some(square) = square {
        if let Some(man) = man {
            board.place(square, man);
        }
    }
}

// Returns the castling rights without this square, if there is one.
fn without_unmoved_at(unmoved: Unmoved, square: Option<Square>) -> Unmoved
    ensures { result ≡ unmoved_without_at unmoved square }
{
    match square {
        Some(square) => unmoved.without(square),
        None => unmoved,
    }
}

// Returns the castling rights with the square on which a rook is reborn, if one is.
fn with_rook(unmoved: Unmoved, square: Option<Square>, man: Option<Man>) -> Unmoved
    ensures { result ≡ unmoved_with_rook unmoved square man }
{
    match square {
        Some(square) => match man {
            Some(man) => {
                if man.kind.is(Kind::Rook) {
                    unmoved.with(square)
                } else {
                    unmoved
                }
            }
            None => unmoved,
        },
        None => unmoved,
    }
}

// Makes the move of `man`, which is on the origin: first the man, then the castling rook, and last the
// reborn man. Returns what is needed to take the move back.
fn play_by<R: Rules>(board: &mut Board, man: Man, m: Move) -> Undo
    requires moves { CanMove board.old man m }
    requires mortal { (y : Man) → captured_man board.old man m ≡ Some y
        → same_kind y.kind King ≡ false }
    ensures after { board.new ≡ position_after_by R.rule board.old man m }
    ensures undo { result ≡ undo_by R.rule board.old man m }
{
    let square = capture_square(board, man, m);
    let captured = man_on_at(board, square);
    let before = board.unmoved();
    let crossed = board.crossed();
    let moved = without_unmoved_at(before.without(m.from).without(m.to), square);
    let stayed = if is_castling(man, m) {
        moved.without(corner(m))
    } else {
        moved
    };
    move_men(board, man, m, square);
    let reborn = rebirth_at(board, R::captures_are_reborn(), captured, square);
    put_at(board, reborn, captured);
    board.set_unmoved(with_rook(stayed, reborn, captured));
    board.set_crossed(if is_double_step(man, m) {
        Some(halfway(m))
    } else {
        None
    });
    board.set_turn(board.turn().other());
    Undo {
        captured,
        rebirth: reborn,
        unmoved: before,
        crossed,
    }
}

/// Plays the move and returns what is needed to take it back. The move must be legal, or illegal only
/// because it leaves its own king in check.
#[tactic(auto, unfolding(crate::specs::Play::position_after, crate::specs::Play::undo_of))]
pub fn play<R: Rules>(board: &mut Board, m: Move) -> Undo
    requires well_formed { IsWellFormed board.old }
    requires pseudo { is_pseudo_legal R.rule board.old m ≡ true }
    ensures after { board.new ≡ position_after R.rule board.old m }
    ensures undo { result ≡ undo_of R.rule board.old m }
    ensures well_formed { IsWellFormed board.new }
{
    match board.man_at(m.from) {
        Some(man) => play_by::<R>(board, man, m),
        None => Undo {
            captured: None,
            rebirth: None,
            unmoved: board.unmoved(),
            crossed: board.crossed(),
        },
    }
}
