//! What the search does on the board: next moves, mates, goals, and moves as they are shown.
ghost use Rattle.std.specs.Prelude.{[], ◌∷◌, ◌≡◌, IfSome, MatchOption, false, is_some, true};
ghost use Rattle.chess_core.specs.Diagrams.{position_of};
ghost use Rattle.chess_core.specs.WellFormed.{IsWellFormed};
ghost use Rattle.chess_attacks.specs.Attacks.{in_check};
ghost use Rattle.chess_rules.specs.Legal.{is_legal};
ghost use Rattle.chess_rules.specs.ties.Places.{IsPlaceIn, moves_after, place_of};
ghost use Rattle.pop_stipulation.specs.declared.stipulation.Goal.{Goal};
ghost use Rattle.pop_stipulation.specs.declared.stipulation.Goal.TheVariants.{Mate};
ghost use Rattle.pop_events.specs.Shown.{castling_side, mark_of, reborn_man, shown_of};
ghost use Rattle.pop_battle.specs.Chess.{chess, is_impossible, set_start};
ghost use Rattle.pop_battle.specs.Game.{can_move as has_move, some_move};
ghost use Rattle.pop_battle.specs.declared.chess.Reached.TheVariants.{Certainly};
ghost use Rattle.pop_battle.specs.ties.Calls.{IsOnMate};
ghost use Rattle.pop_battle.specs.ties.Marks.{is_for_mate};

use chess_core::{Board, Diagram, Man, Move, Square};
use chess_mates::mate_cursor;
use chess_rules::{
    LegalCursor, MovePlace, Rules, Undo, has_legal_move, in_check, is_castling, is_mate,
    is_stalemate,
};
use pop_events::{Mark, Shown, Side};
use pop_stipulation::Goal;

/// Returns a cursor over the legal moves of the board's position, at `place`. Reuses `cursor` if there
/// is one.
pub(crate) fn cursor_at<R: Rules>(
    cursor: Option<LegalCursor<R>>,
    place: MovePlace,
    board: &Board,
) -> LegalCursor<R>
    requires cursor { IfSome cursor (λ k. IsPlaceIn R.rule board.now k) }
    ensures place { result.place ≡ place }
    ensures within { IsPlaceIn R.rule board.now result }
{
    let mut cursor = match cursor {
        Some(cursor) => cursor,
        None => LegalCursor::of(board),
    };
    cursor.go_to(place);
    cursor
}

/// Returns the next legal move after `place` and moves `place` to it, or to the end if there is none.
/// `cursor` keeps what has been computed about the position's moves from call to call; it is `None` before
/// the first call for a position. The board is unchanged.
pub fn next_move<R: Rules>(
    cursor: &mut Option<LegalCursor<R>>,
    place: &mut MovePlace,
    board: &mut Board,
) -> Option<Move>
    requires well_formed { IsWellFormed board.old }
    requires cursor { IfSome cursor.old (λ k. IsPlaceIn R.rule board.old k) }
    ensures unchanged { board.new ≡ board.old }
    ensures within { IfSome cursor.new (λ k. IsPlaceIn R.rule board.old k) }
    ensures next { MatchOption result (moves_after R.rule board.old place.old ≡ [])
        (λ m. (moves_after R.rule board.old place.old
        ≡ m ∷ moves_after R.rule board.old place.new)
        × (is_legal R.rule board.old m ≡ true)) }
    ensures place { place.new ≡ place_of result }
{
    if cursor.is_none() {
        *cursor = Some(LegalCursor::<R>::of(board));
    }
    let Some(cursor) = cursor else {
        return None;
    };
    cursor.go_to(*place);
    let found = cursor.next(board);
    *place = cursor.place();
    found
}

/// Returns a cursor at some legal move, or `None` if the board's position has none. Tests the killer first.
#[tactic(auto, using(crate::proofs::Boards::some_move))]
pub(crate) fn cursor_if_any_move<R: Rules>(
    killer: MovePlace,
    board: &mut Board,
) -> Option<LegalCursor<R>>
    requires well_formed { IsWellFormed board.old }
    ensures unchanged { board.new ≡ board.old }
    ensures within { IfSome result (λ k. IsPlaceIn R.rule board.old k) }
    ensures moves { (goal : Goal) → is_some result ≡ has_move (chess goal R.rule) board.old }
{
    let mut cursor = LegalCursor::<R>::of(board);
    cursor.go_to(killer.previous());
    if cursor.next_until(killer, board).is_some() {
        return Some(cursor);
    }
    cursor.go_to(MovePlace::start());
    if cursor.next(board).is_some() {
        return Some(cursor);
    }
    None
}

/// Returns the place of a legal move that mates, or `None` if no move does. It may be any mating move: the
/// search tries the killer and the moves after it first, which is faster.
pub(crate) fn find_mate<R: Rules>(killer: MovePlace, board: &mut Board) -> Option<MovePlace>
    requires well_formed { IsWellFormed board.old }
    ensures unchanged { board.new ≡ board.old }
    ensures mates { is_some result
        ≡ some_move (chess Mate R.rule) (chess Mate R.rule).goal board.old }
    ensures place { IfSome result (λ place. IsOnMate R.rule board.old place) }
{
    let before = killer.previous();
    let mut mates = mate_cursor::<R>(board);
    mates.go_to(before);
    if mates.next(board).is_some() {
        return Some(mates.place());
    }
    mates.go_to(MovePlace::start());
    if mates.next_until(before, board).is_some() {
        return Some(mates.place());
    }
    None
}

/// Returns what the last move did to the side to move: check, mate, stalemate or nothing. It looks for
/// stalemate only if that is the goal.
#[tactic(auto, unfolding(pop_events::specs::Shown::mark_of, chess_rules::specs::Legal::is_mate, chess_rules::specs::Legal::is_stalemate))]
pub(crate) fn mark_of<R: Rules>(goal: Goal, board: &mut Board) -> Mark
    requires well_formed { IsWellFormed board.old }
    ensures unchanged { board.new ≡ board.old }
    ensures mark { result ≡ mark_of goal R.rule board.old }
{
    if in_check::<R>(board, board.turn()) {
        return if has_legal_move::<R>(board) {
            Mark::Check
        } else {
            Mark::Mate
        };
    }
    if goal.is_for_stalemate() && !has_legal_move::<R>(board) {
        Mark::Stalemate
    } else {
        Mark::Plain
    }
}

/// Whether the goal is known to be reached in a position.
#[derive(Clone, Copy, Debug)]
pub enum Reached {
    Certainly,
    Perhaps,
}

/// Returns what the last move did to the side to move. It tests nothing if the goal is known to be reached.
#[tactic(auto, unfolding(pop_events::specs::Shown::mark_of, chess_rules::specs::Legal::is_mate, chess_rules::specs::Legal::is_stalemate))]
pub fn mark_after<R: Rules>(goal: Goal, reached: Reached, board: &mut Board) -> Mark
    requires well_formed { IsWellFormed board.old }
    requires reached { reached ≡ Certainly → (chess goal R.rule).goal board.old ≡ true }
    ensures unchanged { board.new ≡ board.old }
    ensures mark { result ≡ mark_of goal R.rule board.old }
{
    match (reached, goal) {
        (Reached::Perhaps, _) => mark_of::<R>(goal, board),
        (Reached::Certainly, Goal::Mate) => Mark::Mate,
        (Reached::Certainly, Goal::Stalemate) => Mark::Stalemate,
    }
}

/// Returns whether the goal is mate, and not stalemate.
pub fn is_for_mate(goal: Goal) -> bool
    ensures { result ≡ is_for_mate goal }
{
    match goal {
        Goal::Mate => true,
        Goal::Stalemate => false,
    }
}

/// Returns whether the goal is reached in the board's position. The board is unchanged.
pub fn reaches_goal<R: Rules>(goal: Goal, board: &mut Board) -> bool
    requires well_formed { IsWellFormed board.old }
    ensures unchanged { board.new ≡ board.old }
    ensures reached { result ≡ (chess goal R.rule).goal board.old }
{
    match goal {
        Goal::Mate => is_mate::<R>(board),
        Goal::Stalemate => is_stalemate::<R>(board),
    }
}

/// Returns whether the goal is reached in the board's position, which has no legal move.
#[tactic(auto, unfolding(chess_rules::specs::Legal::is_mate, chess_rules::specs::Legal::is_stalemate))]
pub(crate) fn is_reached_without_move<R: Rules>(goal: Goal, board: &Board) -> bool
    requires { has_move (chess goal R.rule) board.now ≡ false }
    ensures { result ≡ (chess goal R.rule).goal board.now }
{
    in_check::<R>(board, board.turn()) == is_for_mate(goal)
}

/// Returns the side to which the man castles by this move, or `None` if it doesn't castle.
fn castling_side(man: Man, by: Move) -> Option<Side>
    ensures { result ≡ castling_side man by }
{
    if !is_castling(man, by) {
        return None;
    }
    Some(if by.from < by.to { Side::H } else { Side::A })
}

/// Returns the reborn man and its square, if there are both.
fn reborn_man(man: Option<Man>, square: Option<Square>) -> Option<(Man, Square)>
    ensures { result ≡ reborn_man man square }
{
    match (man, square) {
        (Some(man), Some(square)) => Some((man, square)),
        _ => None,
    }
}

/// Returns a played move as it is shown. `man` made it, `there` is the man that was on the arrival square
/// before, and `undo` is what `play` returned.
#[tactic(auto, unfolding(pop_events::specs::Shown::shown_of))]
pub fn shown_of(man: Option<Man>, there: Option<Man>, by: Move, undo: &Undo, mark: Mark) -> Shown
    ensures { result ≡ shown_of man there by undo.now mark }
{
    let Some(man) = man else {
        return Shown::default();
    };
    let capture = undo.captured.is_some();
    Shown {
        man,
        from: by.from,
        to: by.to,
        capture,
        ep: capture && there.is_none(),
        promo: by.promo,
        castling: castling_side(man, by),
        rebirth: reborn_man(undo.captured, undo.rebirth),
        mark,
    }
}

/// Gives the move to the other side and clears the en passant square, as at the start of set play (own).
pub fn turn_over(board: &mut Board)
    ensures { board.new ≡ set_start board.old }
{
    board.set_turn(board.turn().other());
    board.set_crossed(None);
}

/// Restores the position of the diagram after set play.
#[tactic(auto, unfolding(chess_core::specs::Diagrams::position_of))]
pub fn turn_back(board: &mut Board, diagram: &Diagram)
    requires { board.old ≡ set_start (position_of diagram.now) }
    ensures { board.new ≡ position_of diagram.now }
{
    board.set_turn(diagram.turn);
    board.set_crossed(diagram.crossed);
}

/// Returns whether set play is impossible in the position: the side that isn't to move is in check.
#[tactic(auto, unfolding(crate::specs::Chess::is_impossible))]
pub fn is_impossible<R: Rules>(board: &Board) -> bool
    ensures { result ≡ is_impossible R.rule board.now }
{
    in_check::<R>(board, board.turn().other())
}
