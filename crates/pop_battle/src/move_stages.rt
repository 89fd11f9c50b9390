//! The order in which a test tries the moves of a position: killers first, then, if White has two or more
//! moves left to mate, the moves that give check or attack next to the king.
ghost use Rattle.std.specs.Prelude.{[], ◌++◌, ◌<◌, ◌==◌, ◌||◌, ◌≡◌, IfSome, MatchOption, Some, filter};
ghost use Rattle.chess_core.specs.Position.{Position};
ghost use Rattle.chess_core.specs.WellFormed.{IsWellFormed};
ghost use Rattle.chess_rules.specs.ties.Places.{IsPlaceIn, moves_after, place_of};
ghost use Rattle.pop_battle.specs.declared.frame.Early.TheVariants.{AimedMoves};
ghost use Rattle.pop_battle.specs.declared.frame.MoveStage.TheVariants.{Aimed};
ghost use Rattle.pop_battle.specs.ties.Calls.{Finds};
ghost use Rattle.pop_battle.specs.ties.Frames.{all_moves_of, belongs, comes_early, move_stages_after, moves_ahead, moves_here, moves_later};

use crate::frame::{Early, MoveStage, Order};
use crate::killers::Killers;
use chess_core::{Board, Move};
use chess_mates::{aims_at_king, next_aimed};
use chess_rules::{LegalCursor, MovePlace, Rules};
use pop_stipulation::Battle;

/// Returns which moves come right after the killers: those that give check or attack next to the king, if
/// White has two or more moves left to mate; otherwise none.
fn early_moves(battle: Battle, left: usize) -> Early {
    if battle == Battle::Direct && left % 2 == 1 && left >= 3 {
        Early::AimedMoves
    } else {
        Early::NoMoves
    }
}

/// Returns the order in which to try the moves of a position with `left` half-moves left.
pub(crate) fn order_of(killers: &Killers, battle: Battle, left: usize) -> Order {
    Order {
        killer: killers.of(battle, left),
        earlier: killers.earlier(battle, left),
        early: early_moves(battle, left),
    }
}

/// Returns whether a move that is no killer comes before other moves.
fn comes_early(early: Early, by: &Move, board: &Board) -> bool
    ensures { result ≡ comes_early early board.now by.now }
{
    match early {
        Early::AimedMoves => aims_at_king(board, by),
        Early::NoMoves => false,
    }
}

/// Returns whether the move, whose place is `place`, belongs to the stage.
#[tactic(auto, unfolding(crate::specs::ties::Frames::belongs))]
fn belongs(order: Order, move_stage: MoveStage, place: MovePlace, by: &Move, board: &Board) -> bool
    requires { place ≡ place_of (Some by.now) }
    ensures { result ≡ belongs board.now order move_stage by.now }
{
    if place.is(order.killer) {
        return move_stage == MoveStage::Killer;
    }
    if place.is(order.earlier) {
        return move_stage == MoveStage::Earlier;
    }
    match move_stage {
        MoveStage::Killer | MoveStage::Earlier => false,
        MoveStage::Aimed => comes_early(order.early, by, board),
        MoveStage::Others => !comes_early(order.early, by, board),
    }
}

/// Returns the next move after the cursor that belongs to the stage.
fn next_in_stage<R: Rules>(
    order: Order,
    move_stage: MoveStage,
    cursor: &mut LegalCursor<R>,
    board: &mut Board,
) -> Option<Move>
    requires well_formed { IsWellFormed board.old }
    requires place { IsPlaceIn R.rule board.old cursor.old }
    ensures { Finds R.rule board.old board.new (Some cursor.new) result
        (filter (belongs board.old order move_stage)
        (moves_after R.rule board.old cursor.old.place))
        (filter (belongs board.old order move_stage)
        (moves_after R.rule board.old cursor.new.place)) }
{
    while let Some(by) = cursor.next(board) {
        if belongs(order, move_stage, cursor.place(), &by, board) {
            return Some(by);
        }
    }
    None
}

/// Returns whether the move at this place is one of the two killers, which have stages of their own.
fn is_killer(order: Order, place: MovePlace) -> bool
    ensures { result ≡ (place == order.killer || place == order.earlier) }
{
    place.is(order.killer) || place.is(order.earlier)
}

/// Returns the next move after the cursor that gives check or attacks next to the king and is no killer.
#[tactic(auto, using(crate::proofs::Orders::aimed_filtered))]
fn next_early<R: Rules>(
    order: Order,
    cursor: &mut LegalCursor<R>,
    board: &mut Board,
) -> Option<Move>
    requires well_formed { IsWellFormed board.old }
    requires place { IsPlaceIn R.rule board.old cursor.old }
    requires early { order.early ≡ AimedMoves }
    ensures { Finds R.rule board.old board.new (Some cursor.new) result
        (filter (belongs board.old order Aimed) (moves_after R.rule board.old cursor.old.place))
        (filter (belongs board.old order Aimed)
        (moves_after R.rule board.old cursor.new.place)) }
{
    while let Some(by) = next_aimed::<R>(cursor, board) {
        if !is_killer(order, cursor.place()) {
            return Some(by);
        }
    }
    None
}

/// Returns the next move after the cursor in this stage.
#[tactic(auto, unfolding(crate::specs::ties::Frames::moves_here))]
fn next_here<R: Rules>(
    order: Order,
    move_stage: MoveStage,
    cursor: &mut LegalCursor<R>,
    board: &mut Board,
) -> Option<Move>
    requires well_formed { IsWellFormed board.old }
    requires place { IsPlaceIn R.rule board.old cursor.old }
    ensures { Finds R.rule board.old board.new (Some cursor.new) result
        (moves_here R.rule board.old order move_stage cursor.old.place)
        (moves_here R.rule board.old order move_stage cursor.new.place) }
{
    match (move_stage, order.early) {
        (MoveStage::Killer, _) => cursor.next_until(order.killer, board),
        (MoveStage::Earlier, _) => cursor.next_until(order.earlier, board),
        (MoveStage::Aimed, Early::AimedMoves) => next_early::<R>(order, cursor, board),
        (MoveStage::Aimed, Early::NoMoves) | (MoveStage::Others, _) => {
            next_in_stage::<R>(order, move_stage, cursor, board)
        }
    }
}

/// Returns the stage after this one, or `None` after the last. Without early moves their stage is skipped.
#[tactic(auto, using(crate::proofs::Orders::next_stage), unfolding(crate::specs::ties::Frames::moves_later))]
fn stage_after<R: Rules>(order: Order, move_stage: MoveStage) -> Option<MoveStage>
    ensures later { (p : Position) → MatchOption result (moves_later R.rule p order move_stage ≡ [])
        (λ s. moves_later R.rule p order move_stage ≡ all_moves_of R.rule p order s
        ++ moves_later R.rule p order s) }
    ensures falls { IfSome result (λ s. move_stages_after s < move_stages_after move_stage) }
{
    match (move_stage, order.early) {
        (MoveStage::Killer, _) => Some(MoveStage::Earlier),
        (MoveStage::Earlier, Early::AimedMoves) => Some(MoveStage::Aimed),
        (MoveStage::Earlier, Early::NoMoves) | (MoveStage::Aimed, _) => Some(MoveStage::Others),
        (MoveStage::Others, _) => None,
    }
}

/// Returns the place before the first move of a stage. If both killers are one move, the second killer's
/// stage is empty.
#[tactic(auto, using(crate::proofs::Orders::first_place), unfolding(crate::specs::ties::Frames::moves_here))]
pub(crate) fn place_before<R: Rules>(order: Order, move_stage: MoveStage) -> MovePlace
    ensures { (p : Position) → moves_here R.rule p order move_stage result
        ≡ all_moves_of R.rule p order move_stage }
{
    match move_stage {
        MoveStage::Killer => order.killer.previous(),
        MoveStage::Earlier if order.earlier.is(order.killer) => order.earlier,
        MoveStage::Earlier => order.earlier.previous(),
        MoveStage::Aimed | MoveStage::Others => MovePlace::start(),
    }
}

/// Returns the next move of a test, one stage after another.
pub(crate) fn next_tried<R: Rules>(
    order: Order,
    move_stage: &mut MoveStage,
    cursor: &mut LegalCursor<R>,
    board: &mut Board,
) -> Option<Move>
    requires well_formed { IsWellFormed board.old }
    requires place { IsPlaceIn R.rule board.old cursor.old }
    ensures { Finds R.rule board.old board.new (Some cursor.new) result
        (moves_ahead R.rule board.old order move_stage.old cursor.old.place)
        (moves_ahead R.rule board.old order move_stage.new cursor.new.place) }
{
    loop {
        if let Some(by) = next_here::<R>(order, *move_stage, cursor, board) {
            return Some(by);
        }
        let Some(following) = stage_after::<R>(order, *move_stage) else {
            return None;
        };
        *move_stage = following;
        cursor.go_to(place_before::<R>(order, following));
    }
}
