//! The mating moves of one position. Most other moves are skipped without being played.
ghost use Rattle.std.specs.Prelude.{◌≡◌, ◌<◌, ◌∷◌, [], ◌&&◌, IfSome, MatchOption, ◌==◌, false, not, true};
ghost use Rattle.chess_core.specs.Position.{other};
ghost use Rattle.chess_core.specs.WellFormed.{IsWellFormed};
ghost use Rattle.chess_attacks.specs.Attacks.{in_check};
ghost use Rattle.chess_mates.specs.ties.CheckSquares.{AreCheckSquares};
ghost use Rattle.chess_mates.specs.ties.KnownFlights.{IsKnown};
ghost use Rattle.chess_mates.specs.ties.Parries.{AreParries};
ghost use Rattle.chess_rules.specs.Legal.{is_legal, is_mate, is_nil, is_pseudo_legal, moves};
ghost use Rattle.chess_core.specs.declared.man.Move.{Move};
ghost use Rattle.std.specs.Int.{bit_at};
ghost use Rattle.chess_mates.specs.ties.MatingPlaces.{AreMateClues, IsMatingPlaceIn, IsNextMate};
ghost use Rattle.chess_flights.specs.ties.Mates.{mates, mates_after};
ghost use Rattle.chess_rules.specs.ties.Places.{place_of};
ghost use Rattle.chess_rules.specs.Play.{position_after};
ghost use Rattle.chess_rules.specs.ties.Targets.{AreCandidates, AreOrigins, IsAimed};

use crate::checks::{CheckSquares, check_squares, may_check, near_check_targets};
use crate::flights_after::{Flights, flights_after};
use crate::origins::check_origins;
use crate::parries::{Parries, parries_after};
use crate::standing_flights::{StandingFlights, standing_flights};
use chess_attacks::{Rules, in_check};
use chess_core::{Board, Colour, Move, Square, Squares};
use chess_rules::unplayed::{MoveTest, arrivals, is_pseudo_legal, others_have_move};
use chess_rules::{Cursor, MovePlace, has_legal_move, play, unplay};

/// What shows that a move doesn't mate: the squares from which a move may give check, and the flights of
/// the enemy king.
#[derive(Clone, Copy)]
pub struct MateClues {
    checks: CheckSquares,
    flights: StandingFlights,
}

/// A cursor over the mating moves of one position.
pub type MateCursor<R> = Cursor<R, MateClues>;

/// Returns the cursor over the mating moves of the board's position, before the first triple.
#[inline(always)]
pub fn mate_cursor<R: Rules>(board: &Board) -> MateCursor<R>
    ensures start { result.place ≡ 0 }
    ensures place { IsMatingPlaceIn R.rule board.now result }
{
    Cursor::over(MateClues {
        checks: check_squares(board, board.turn().other()),
        flights: standing_flights::<R>(board),
    })
}

/// Returns the next legal move after `place` that mates, and moves `place` to it. After the last one it
/// returns `None` and moves `place` to the end. The board is unchanged.
#[tactic(auto, using(crate::proofs::NextMate::next_mates))]
pub fn next_mate<R: Rules>(place: &mut MovePlace, board: &mut Board) -> Option<Move>
    requires { IsWellFormed board.old }
    ensures place { place.new ≡ place_of result }
    ensures rest { MatchOption result (mates_after R.rule board.old place.old ≡ [])
        (λ m. mates_after R.rule board.old place.old
        ≡ m ∷ mates_after R.rule board.old place.new) }
    ensures next { IfSome result (λ m. IsNextMate R.rule board.old place.old place.new m) }
    ensures legal { IfSome result (λ m. is_legal R.rule board.old m ≡ true) }
    ensures board { board.new ≡ board.old }
{
    let mut cursor = mate_cursor::<R>(board);
    cursor.go_to(*place);
    let found = cursor.next(board);
    *place = cursor.place();
    found
}

impl MoveTest for MateClues {
    ghost use Rattle.chess_mates.specs.ties.MatingPlaces.{AreMateClues};
    ghost use Rattle.chess_flights.specs.ties.Mates.{mates};
    ghost use Rattle.chess_mates.specs.ties.Idle.{mates-idle};

    ghost test = { mates };

    ghost fits = { λ clues rule p. AreMateClues rule p clues };

    fn origins<R: Rules>(&self, board: &Board) -> Squares {
        mating_origins::<R>(board, &self.checks)
    }

    fn candidates<R: Rules>(&self, board: &Board, from: Square) -> Squares {
        candidates::<R>(board, self, from)
    }

    fn meets<R: Rules>(&self, board: &mut Board, m: Move) -> bool {
        is_mating::<R>(board, &self.checks, m)
    }

    ghost idle = { λ rule p m h. mates-idle rule p m h };
}

// Returns a superset of the squares from which a move mates: those from which a move may give check.
#[tactic(auto, using(chess_flights::proofs::Mating::no_mate_quietly))]
fn mating_origins<R: Rules>(board: &Board, squares: &CheckSquares) -> Squares
    requires well_formed { IsWellFormed board.now }
    requires squares { AreCheckSquares board.now.men (other board.now.turn) squares.now }
    ensures { AreOrigins (mates R.rule board.now) result }
{
    check_origins::<R>(board, squares)
}

// Returns a superset of the squares to which the man on `from` must go to mate: elsewhere it gives no
// check, or a flight remains.
#[tactic(auto, using(chess_attacks::proofs::Bits::off_zero, chess_flights::proofs::Mating::no_mate_quietly))]
fn mate_targets<R: Rules>(board: &Board, clues: &MateClues, from: Square) -> Squares
    requires well_formed { IsWellFormed board.now }
    requires clues { AreMateClues R.rule board.now clues.now }
    ensures { (m : Move) → m.from ≡ from → m.to < 64 → (bit_at result m.to == 1) ≡ false
        → mates R.rule board.now m ≡ false }
{
    let checks = near_check_targets::<R>(board, &clues.checks, from);
    if checks == 0 {
        return 0;
    }
    checks & clues.flights.mating_squares::<R>(board, from)
}

// Returns the mate targets of the man on `from` to which it may go.
#[tactic(auto, using(chess_rules::proofs::Walks::candidates, chess_rules::proofs::Walks::no_candidates, chess_flights::proofs::Mating::not_mating))]
fn candidates<R: Rules>(board: &Board, clues: &MateClues, from: Square) -> Squares
    requires well_formed { IsWellFormed board.now }
    requires clues { AreMateClues R.rule board.now clues.now }
    ensures { AreCandidates R.rule board.now (mates R.rule board.now) from result }
{
    let word = mate_targets::<R>(board, clues, from);
    if word == 0 {
        return 0;
    }
    arrivals::<R>(board, from) & word
}

// Returns whether the move is legal and mates. The board is unchanged.
#[tactic(auto, using(chess_flights::proofs::Mating::no_mate_quietly, chess_flights::proofs::Mating::not_mating, chess_flights::proofs::Fleeing::no_mate_with_flight, crate::proofs::Parrying::no_mate_with_parry))]
fn is_mating<R: Rules>(board: &mut Board, squares: &CheckSquares, m: Move) -> bool
    requires well_formed { IsWellFormed board.old }
    requires aimed { IsAimed R.rule board.old m }
    requires squares { AreCheckSquares board.old.men (other board.old.turn) squares.now }
    ensures answer { result ≡ mates R.rule board.old m }
    ensures board { board.new ≡ board.old }
{
    if !is_pseudo_legal::<R>(board, &m) {
        return false;
    }
    if !may_check::<R>(board, squares, &m) {
        return false;
    }
    match flights_after::<R>(board, m) {
        Flights::Left => false,
        flights => match parries_after::<R>(board, squares, m) {
            Parries::Possible => false,
            parries => gives_mate::<R>(board, m, flights, parries),
        },
    }
}

// Returns whether the pseudo-legal move is legal and mates; `flights` and `parries` are what is known of
// the position after it. The board is unchanged.
#[tactic(auto, unfolding(chess_flights::specs::ties::Mates::mates, chess_rules::specs::Legal::is_legal))]
fn gives_mate<R: Rules>(board: &mut Board, m: Move, flights: Flights, parries: Parries) -> bool
    requires well_formed { IsWellFormed board.old }
    requires pseudo { is_pseudo_legal R.rule board.old m ≡ true }
    requires flights { IsKnown R.rule (position_after R.rule board.old m) flights }
    requires parries { AreParries R.rule (position_after R.rule board.old m) parries }
    ensures answer { result ≡ mates R.rule board.old m }
    ensures board { board.new ≡ board.old }
{
    let mover = board.turn();
    let undo = play::<R>(board, m);
    let mated = is_mated_by::<R>(board, mover, flights, parries);
    unplay::<R>(board, m, undo);
    mated
}

// Returns whether the side to move is mated and `mover` isn't in check. The board is unchanged.
#[tactic(auto, unfolding(chess_rules::specs::Legal::is_mate))]
fn is_mated_by<R: Rules>(
    board: &mut Board,
    mover: Colour,
    flights: Flights,
    parries: Parries,
) -> bool
    requires well_formed { IsWellFormed board.old }
    requires flights { IsKnown R.rule board.old flights }
    requires parries { AreParries R.rule board.old parries }
    ensures answer { result ≡ (not (in_check R.rule board.old.men mover)
        && is_mate R.rule board.old) }
    ensures board { board.new ≡ board.old }
{
    is_checked::<R>(board, parries)
        && !in_check::<R>(board, mover)
        && !has_move_in_check::<R>(board, flights, parries)
}

// Returns whether the side to move is in check; it is if parries are known to be impossible.
fn is_checked<R: Rules>(board: &Board, parries: Parries) -> bool
    requires { AreParries R.rule board.now parries }
    ensures { result ≡ in_check R.rule board.now.men board.now.turn }
{
    match parries {
        Parries::Impossible => true,
        _ => in_check::<R>(board, board.turn()),
    }
}

// Returns whether the side to move, which is in check, has a legal move. Skips the king's moves if it is
// known to have none, and in that case the other men's moves too if they are known to have none. The
// board is unchanged.
#[tactic(auto, using(crate::proofs::Flightless::others_are_all, crate::proofs::Flightless::none_are_left))]
fn has_move_in_check<R: Rules>(board: &mut Board, flights: Flights, parries: Parries) -> bool
    requires well_formed { IsWellFormed board.old }
    requires checked { in_check R.rule board.old.men board.old.turn ≡ true }
    requires flights { IsKnown R.rule board.old flights }
    requires parries { AreParries R.rule board.old parries }
    ensures answer { result ≡ not (is_nil (moves R.rule board.old)) }
    ensures board { board.new ≡ board.old }
{
    match flights {
        Flights::NoneLeft => match parries {
            Parries::Impossible => false,
            _ => others_have_move::<R>(board),
        },
        _ => has_legal_move::<R>(board),
    }
}
