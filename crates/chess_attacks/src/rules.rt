//! The three sets of rules: orthodox chess, Circe and Madrasi.
ghost use Rattle.std.specs.Prelude.{◌≡◌, ℕ, Some, false, true};
ghost use Rattle.chess_core.specs.Squares.{squares};
ghost use Rattle.chess_core.specs.Position.{king_square, man_on};
ghost use Rattle.chess_attacks.specs.RuleSet.{RuleSet, captures_are_reborn, circe, like_men_paralyse, madrasi, orthodox};
ghost use Rattle.chess_core.specs.WellFormed.{IsWellFormed};
ghost use Rattle.chess_attacks.specs.Attacks.{is_attacked_by_like, in_check, is_attacked, is_attacked_by_like_man, is_paralysed};

use crate::attacks_on::{attackers, is_reached, reaching_kind, some_unparalysed};
use crate::occupancy::occupancy_now;
use chess_core::{Board, Colour, Kind, Man, Move, Square};

/// A set of rules as a type parameter. Contracts see it as `rule`.
pub trait Rules: Copy {
    ghost rule: { RuleSet };

    /// Returns whether captured men are reborn (Circe): a capture then changes more than the squares of the
    /// two men.
    fn captures_are_reborn() -> bool
        ensures { result ≡ captures_are_reborn rule };

    /// Returns whether a man that an enemy man of its kind attacks is paralysed (Madrasi).
    fn like_men_paralyse() -> bool
        ensures { result ≡ like_men_paralyse rule };

    /// Returns whether the man on the square is paralysed: in Madrasi, if it isn't a king and an enemy man
    /// of its kind attacks it (Popeye manual, Madrasi).
    #[tactic(auto, unfolding(crate::specs::Attacks::is_paralysed))]
    final fn paralysed(board: &Board, square: Square) -> bool
        ensures { result ≡ is_paralysed rule board.now.men square }
    {
        Self::like_men_paralyse() && is_attacked_by_like_man(board, square)
    }

    /// Returns whether the colour attacks the square: one of its men that isn't paralysed could capture
    /// there (FIDE Laws 3.1.2).
    final fn attacked(board: &Board, square: Square, colour: Colour) -> bool
        ensures { result ≡ is_attacked rule board.now.men square colour }
    {
        if !Self::like_men_paralyse() {
            return is_reached(board, square, colour);
        }
        let men = attackers(board, square, colour);
        some_unparalysed::<Self>(board, men)
    }
}

// Returns whether an enemy man of the same kind as `man` reaches the square.
fn is_attacked_by_like(board: &Board, man: Man, square: Square) -> bool
    ensures { result ≡ is_attacked_by_like board.now.men man square }
{
    reaching_kind(
        board,
        occupancy_now(board),
        square,
        man.colour.other(),
        man.kind,
    ) != 0
}

// Returns whether a man other than a king is on the square and an enemy man of its kind reaches it.
fn is_attacked_by_like_man(board: &Board, square: Square) -> bool
    ensures { result ≡ is_attacked_by_like_man board.now.men (man_on board.now.men square) square }
{
    match board.man_at(square) {
        Some(man) => !man.kind.is(Kind::King) && is_attacked_by_like(board, man, square),
        None => false,
    }
}

/// Orthodox chess (FIDE Laws).
#[derive(Clone, Copy)]
pub struct Orthodox;

/// Circe: a captured man is reborn on its home square if that square is empty (Popeye manual, Circe).
#[derive(Clone, Copy)]
pub struct Circe;

/// Madrasi: a man is paralysed while an enemy man of its kind attacks it (Popeye manual, Madrasi).
#[derive(Clone, Copy)]
pub struct Madrasi;

impl Rules for Orthodox {
    ghost rule = { orthodox };

    fn captures_are_reborn() -> bool {
        false
    }

    fn like_men_paralyse() -> bool {
        false
    }
}

impl Rules for Circe {
    ghost rule = { circe };

    fn captures_are_reborn() -> bool {
        true
    }

    fn like_men_paralyse() -> bool {
        false
    }
}

impl Rules for Madrasi {
    ghost rule = { madrasi };

    fn captures_are_reborn() -> bool {
        false
    }

    fn like_men_paralyse() -> bool {
        true
    }
}

/// Returns whether the colour is in check: the other colour attacks its king's square (FIDE Laws 3.9.1). A
/// colour without a king is never in check (own).
#[tactic(auto, unfolding(crate::specs::Attacks::in_check))]
pub fn in_check<R: Rules>(board: &Board, colour: Colour) -> bool
    ensures { result ≡ in_check R.rule board.now.men colour }
{
    match board.king_of(colour) {
        Some(square) => R::attacked(board, square, colour.other()),
        None => false,
    }
}
