//! The flights that the enemy king has now. Most of them remain after any single move.
ghost use Rattle.std.specs.Prelude.{◌≡◌, ◌<◌, ◌==◌, ℕ, Some, false, true};
ghost use Rattle.std.specs.Int.{bit_at};
ghost use Rattle.chess_core.specs.Position.{king_square, other};
ghost use Rattle.chess_core.specs.WellFormed.{IsWellFormed};
ghost use Rattle.chess_core.specs.declared.man.Move.{Move};
ghost use Rattle.chess_flights.specs.ties.Mates.{mates};
ghost use Rattle.chess_flights.specs.ties.Approaches.{IsLeft};
ghost use Rattle.chess_mates.specs.ties.StandingFlights.{AreStandingFlights, IsBeside, IsFlightBut};
ghost use Rattle.chess_flights.specs.ties.FreeSteps.{NoneHops};

use chess_attacks::Rules;
use chess_attacks::lines::{diagonal_lines, occupied, straight_lines};
use chess_attacks::words::{contains, highest, next_bit, only};
use chess_core::{Board, Kind, Man, Square, Squares};
use chess_flights::approach_squares::barring_squares;
use chess_flights::attackers::attackers_on;
use chess_flights::free_steps::{free_steps, none_hops, unsimple_squares};
use chess_flights::guards::{leapt_squares, rider_reach};

// The most men of the mover against which flights are looked for. Against more, a king rarely has
// flights that remain.
const MOST_MEN: u32 = 12;

/// The flights, and the squares that the mover's riders reach (`ridden`). A man that leaves any other
/// square opens no line. A man that leaves a ridden square opens lines only to flights on a line with it.
#[derive(Clone, Copy)]
pub(crate) struct StandingFlights {
    flights: Squares,
    ridden: Squares,
}

// Returns the flights of the enemy king on `king`, without hoppers on the board.
fn flights_around<R: Rules>(board: &Board, king: Square) -> StandingFlights
    requires king { king_square board.now.men (other board.now.turn) ≡ Some king }
    requires plain { NoneHops board.now.men }
    ensures { AreStandingFlights R.rule board.now result }
{
    let near = free_steps::<R>(board, king);
    let hurdles = occupied(board) & !only(Some(king));
    let men = attackers_on(board, board.turn());
    let ridden = rider_reach(hurdles, &men, near);
    StandingFlights {
        flights: near & !(ridden | leapt_squares(hurdles, &men, near)),
        ridden,
    }
}

// Returns whether to look for flights: against few men, and without hoppers on the board.
fn are_sought(board: &Board) -> bool
    ensures { result ≡ true → NoneHops board.now.men }
{
    board.side(board.turn()).count_ones() <= MOST_MEN && none_hops(board)
}

/// Returns the flights of the enemy king in the board's position; none if they aren't looked for.
#[tactic(auto, using(crate::proofs::StandingFlights::no_flights))]
pub(crate) fn standing_flights<R: Rules>(board: &Board) -> StandingFlights
    ensures { AreStandingFlights R.rule board.now result }
{
    let none = StandingFlights {
        flights: 0,
        ridden: 0,
    };
    if !are_sought(board) {
        return none;
    }
    match board.king_of(board.turn().other()) {
        Some(king) => flights_around::<R>(board, king),
        None => none,
    }
}

// Returns the squares where the man must arrive to take both the first and the last flight.
#[inline(always)]
fn taking_squares(flights: Squares, man: Man) -> Squares
    ensures { (t : ℕ) → t < 64 → (bit_at result t == 1) ≡ false → (f : ℕ) × IsLeft flights man t f }
{
    let Some(first) = next_bit(flights, 0) else {
        return !0;
    };
    barring_squares(man, first) & barring_squares(man, highest(flights))
}

impl StandingFlights {
    // Returns the flights on no queen's line with `from`; none if the mover has a nightrider.
    fn flights_beside(&self, board: &Board, from: Square) -> Squares
        ensures { (f : ℕ) → f < 64 → (bit_at result f == 1) ≡ true
            → ((bit_at self.now.flights f == 1) ≡ true) × IsBeside board.now from f }
    {
        if board.squares(board.turn(), Kind::Nightrider) == 0 {
            return self.flights & !(straight_lines(from) | diagonal_lines(from));
        }
        0
    }

    // Returns the flights that remain if the man leaves `from`: all, unless a rider reaches it; then those
    // to which it opens no line.
    fn lasting_flights<R: Rules>(&self, board: &Board, from: Square) -> Squares
        requires flights { AreStandingFlights R.rule board.now self.now }
        ensures { (f : ℕ) → f < 64 → (bit_at result f == 1) ≡ true
            → IsFlightBut R.rule board.now from f }
    {
        from.show_below_64();
        if contains(self.ridden, from) {
            return self.flights_beside(board, from);
        }
        self.flights
    }

    /// Returns a superset of the squares to which the man on `from` must go to mate: elsewhere one of the
    /// flights remains.
    pub(crate) fn mating_squares<R: Rules>(&self, board: &Board, from: Square) -> Squares
        requires well_formed { IsWellFormed board.now }
        requires flights { AreStandingFlights R.rule board.now self.now }
        ensures { (m : Move) → m.from ≡ from → m.to < 64 → (bit_at result m.to == 1) ≡ false
            → mates R.rule board.now m ≡ false }
    {
        from.show_below_64();
        let flights = self.lasting_flights::<R>(board, from);
        if flights == 0 {
            return !0;
        }
        match board.man_at(from) {
            Some(man) => taking_squares(flights, man) | unsimple_squares::<R>(board, man, from),
            None => !0,
        }
    }
}
