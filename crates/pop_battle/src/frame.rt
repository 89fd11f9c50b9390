//! Frames: the positions on the path of a search, with the moves tried from each.
ghost use Rattle.std.specs.Prelude.{◌≡◌, ⊤};
ghost use Rattle.pop_battle.specs.ties.Frames.{unordered};

use chess_core::{Move, Squares};
use chess_rules::{LegalCursor, MovePlace, Rules, Undo};
use pop_stipulation::Goal;
use std::alloc::AllocError;
use std::marker::Model;

/// A stage in the order in which a test tries the moves of a position. Each move belongs to exactly one
/// stage.
#[derive(Clone, Copy, Debug, PartialEq, Eq)]
pub enum MoveStage {
    /// The move of the last killer.
    Killer,
    /// The move of the second killer, if the killers differ.
    Earlier,
    /// The other moves that attack next to the enemy king or give check, if the order has this stage.
    Aimed,
    /// All other moves.
    Others,
}

/// Which moves come right after the killers.
#[derive(Clone, Copy, Debug)]
pub enum Early {
    /// Moves that give check or attack next to the enemy king.
    AimedMoves,
    /// None: all other moves follow in order.
    NoMoves,
}

/// How a test orders the moves of a position: two killers, which may be illegal moves, and which moves come
/// right after them. Contracts see the record `Order` with the same fields.
#[derive(Clone, Copy)]
pub struct Order {
    pub killer: MovePlace,
    pub earlier: MovePlace,
    pub early: Early,
}

impl Model for Order {
    ghost use Rattle.pop_battle.specs.ties.Frames.{Order as Ordering};

    ghost Value = { Ordering };

    ghost view = { λ o. record { killer = o.killer; earlier = o.earlier; early = o.early } };

    ghost inverse = { λ v. record { killer = v.killer; earlier = v.earlier; early = v.early } };
}

impl Order {
    /// Returns the order that tries all moves one after another.
    pub fn unordered() -> Order
        ensures { result ≡ unordered }
    {
        Order {
            killer: MovePlace::start(),
            earlier: MovePlace::start(),
            early: Early::NoMoves,
        }
    }
}

/// What is known of the lines of help play from a position: those that reach the goal end with the king of the
/// side to be mated on one of these squares.
#[derive(Clone, Copy, Debug)]
pub struct LineEnds {
    pub goal: Goal,
    pub squares: Squares,
}

/// A position on the path from a phase's first position, whose moves are tried in turn. Contracts see the
/// record `Frame` with the same fields.
#[derive(Copy)]
pub struct Frame<R: Rules> {
    // Fields lie in memory in this order: the largest come first.
    /// What `unplay` needs to take back the move that led here.
    pub undo: Undo,
    /// The number of half-moves to try from here.
    pub left: usize,
    /// The cursor over the position's legal moves, once they have been listed.
    pub cursor: Option<LegalCursor<R>>,
    /// The move that led here.
    pub by: Move,
    /// The place in the order of moves: the moves up to it have been tried.
    pub place: MovePlace,
    /// In a test: the order of the moves, and the stage of `place`.
    pub order: Order,
    pub move_stage: MoveStage,
    /// In help play: what is known of the lines from here.
    pub line_ends: Option<LineEnds>,
}

impl<R: Rules> Model for Frame<R> {
    ghost use Rattle.pop_battle.specs.ties.Frames.{Frame as Level};

    ghost Value = { Level };

    ghost view = { λ f. record {
      place = f.place;
      by = f.by;
      undo = f.undo;
      left = f.left;
      order = f.order;
      move_stage = f.move_stage;
      cursor = f.cursor;
      line_ends = f.line_ends;
    } };

    ghost inverse = { λ v. record {
      place = v.place;
      by = v.by;
      undo = v.undo;
      left = v.left;
      order = v.order;
      move_stage = v.move_stage;
      cursor = v.cursor;
      line_ends = v.line_ends;
    } };
}

impl<R: Rules> Clone for Frame<R> {
    ghost is_clone = { λ it copy. copy ≡ it };

    ghost is_infallible = { λ _. ⊤ };

    fn clone(&self) -> Result<Self, AllocError> {
        Ok(*self)
    }
}

impl<R: Rules> Default for Frame<R> {
    ghost use Rattle.std.specs.Prelude.{◌≡◌};
    ghost use Rattle.pop_battle.specs.ties.Frames.{no_frame};

    ghost is_default = { λ f. f ≡ no_frame };

    // Returns a frame of no position.
    #[tactic(auto, unfolding(chess_core::specs::Castling::none_unmoved))]
    fn default() -> Self {
        Frame {
            place: MovePlace::start(),
            by: Move::default(),
            undo: Undo::default(),
            left: 0,
            order: Order::unordered(),
            move_stage: MoveStage::Others,
            cursor: None,
            line_ends: None,
        }
    }
}
