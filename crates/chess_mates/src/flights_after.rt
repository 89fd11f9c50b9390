//! What is known of the flights of the enemy king after a move, without playing it.
ghost use Rattle.std.specs.Prelude.{◌≡◌, ◌<◌, ◌&&◌, false, is_some, not, true};
ghost use Rattle.chess_core.specs.Position.{other, same_kind};
ghost use Rattle.chess_core.specs.WellFormed.{IsWellFormed};
ghost use Rattle.chess_core.specs.declared.man.Man.{Man};
ghost use Rattle.chess_core.specs.declared.man.Kind.TheVariants.{King};
ghost use Rattle.chess_flights.specs.ties.Flights.{IsSeenFrom, occupancy_lifted};
ghost use Rattle.chess_mates.specs.ties.KnownFlights.{IsKnown};
ghost use Rattle.chess_rules.specs.Legal.{is_pseudo_legal};
ghost use Rattle.chess_rules.specs.Play.{capture_square, position_after};
ghost use Rattle.chess_attacks.specs.RuleSet.{captures_are_reborn, like_men_paralyse};
ghost use Rattle.chess_rules.specs.ties.Exposure.{is_simple};

use chess_attacks::Rules;
use chess_core::{Board, Kind, Man, Move, Square};
use chess_flights::flights::{covered_squares, first_safe, occupancy_lifted, open_squares};
use chess_rules::unplayed::{capture_square, is_simple};

/// What is known of the flights of the side to move.
#[derive(Clone, Copy)]
pub(crate) enum Flights {
    /// It has a flight.
    Left,
    /// Its king has no legal move if it is in check.
    NoneLeft,
    /// Nothing is known.
    Unknown,
}

// Returns whether all flights are found under these rules: no capture is skipped, and no attacker may be
// paralysed.
fn are_all_seen<R: Rules>() -> bool
    ensures { result ≡ (not (captures_are_reborn R.rule) && not (like_men_paralyse R.rule)) }
{
    !R::captures_are_reborn() && !R::like_men_paralyse()
}

// Returns what is known of the flights of the enemy king on `king` after this man's simple move; the man
// isn't a king.
fn flights_from<R: Rules>(
    board: &Board,
    man: Man,
    m: Move,
    captured: Option<Square>,
    king: Square,
) -> Flights
    requires seen { IsSeenFrom R.rule board.now m man king }
    requires mortal { same_kind man.kind King ≡ false }
    requires captured { captured ≡ capture_square board.now man m }
    ensures { IsKnown R.rule (position_after R.rule board.now m) result }
{
    m.to.show_below_64();
    let occupancy = occupancy_lifted(board, m.from, captured, m.to, king);
    let near = open_squares::<R>(board, occupancy, king);
    let covered = covered_squares(occupancy.occupied, man, m.promo, m.to);
    if let Some(_) = first_safe(board, occupancy, near & !covered, board.turn()) {
        return Flights::Left;
    }
    if are_all_seen::<R>() {
        return Flights::NoneLeft;
    }
    Flights::Unknown
}

// Returns whether to look for flights after the man's move: nobody castles or is reborn, and the man
// isn't a king.
fn is_looked_at<R: Rules>(man: Man, m: Move, captures: bool) -> bool
    ensures { result ≡ (not (same_kind man.kind King) && is_simple R.rule man m captures) }
{
    !man.kind.is(Kind::King) && is_simple::<R>(man, m, captures)
}

// Returns what is known of the flights of the side to move after this move.
pub(crate) fn flights_after<R: Rules>(board: &Board, m: Move) -> Flights
    requires well_formed { IsWellFormed board.now }
    requires pseudo { is_pseudo_legal R.rule board.now m ≡ true }
    ensures { IsKnown R.rule (position_after R.rule board.now m) result }
{
    let Some(man) = board.man_at(m.from) else {
        return Flights::Unknown;
    };
    let captured = capture_square(board, man, m);
    if !is_looked_at::<R>(man, m, captured.is_some()) {
        return Flights::Unknown;
    }
    let Some(king) = board.king_of(board.turn().other()) else {
        return Flights::Unknown;
    };
    flights_from::<R>(board, man, m, captured, king)
}
