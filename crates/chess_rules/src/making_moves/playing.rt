//! Makes moves and takes them back by methods of the rules.
ghost use Rattle.std.specs.Prelude.{◌≡◌, true};
ghost use Rattle.chess_core.specs.WellFormed.{IsWellFormed};
ghost use Rattle.chess_rules.specs.Legal.{is_pseudo_legal};
ghost use Rattle.chess_rules.specs.Play.{position_after, undo_of};
ghost use Rattle.chess_rules.specs.ties.Games.{RestoresPosition, WasPlayed};

use crate::making_moves::play::play;
use crate::making_moves::undoing::unplay;
use chess_attacks::{Circe, Madrasi, Orthodox, Rules};
use chess_core::{Board, Move, Undo};

/// Rules whose moves are made and taken back by `R::play` and `R::unplay`.
pub trait Play: Rules {
    /// Plays the move and returns what is needed to take it back. The move must be legal, or illegal only
    /// because it leaves its own king in check.
    final fn play(board: &mut Board, m: Move) -> Undo
        requires well_formed { IsWellFormed board.old }
        requires pseudo { is_pseudo_legal Self.rule board.old m ≡ true }
        ensures after { board.new ≡ position_after Self.rule board.old m }
        ensures undo { result ≡ undo_of Self.rule board.old m }
        ensures well_formed { IsWellFormed board.new }
    {
        play::<Self>(board, m)
    }

    /// Takes back the last move played. `undo` is what `play` returned for it.
    final fn unplay(board: &mut Board, m: Move, undo: Undo)
        requires { WasPlayed Self.rule board.old m undo }
        ensures before { RestoresPosition Self.rule board.old m undo board.new }
        ensures well_formed { IsWellFormed board.new }
    {
        unplay::<Self>(board, m, undo);
    }
}

impl Play for Orthodox {}

impl Play for Circe {}

impl Play for Madrasi {}
