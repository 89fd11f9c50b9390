//! Quiet steps: steps of the enemy king after a move that give no check, found without playing the move.
//! If there is one, not every reply mates.
ghost use Rattle.std.specs.Prelude.{◌≡◌, ◌<◌, ◌==◌, ℕ, IfSome, Option, Some, false, true};
ghost use Rattle.std.specs.Int.{bit_at};
ghost use Rattle.std.specs.List.{list_all};
ghost use Rattle.chess_core.specs.Position.{king_square, other};
ghost use Rattle.chess_core.specs.WellFormed.{IsWellFormed};
ghost use Rattle.chess_core.specs.declared.man.Move.{Move};
ghost use Rattle.chess_flights.specs.ties.Flights.{IsQuietTo, IsSeenFrom, occupancy_stepped};
ghost use Rattle.chess_flights.specs.ties.Mates.{is_mating};
ghost use Rattle.chess_flights.specs.ties.QuietSteps.{AreQuiet, IsStepLeft, must_reply_with_mate, occupancy_without};
ghost use Rattle.chess_flights.specs.ties.FreeSteps.{NoneHops};
ghost use Rattle.chess_rules.specs.Legal.{is_legal, moves};
ghost use Rattle.chess_rules.specs.Play.{capture_square, position_after};
ghost use Rattle.chess_rules.specs.ties.Counting.{AreExact};
ghost use Rattle.chess_rules.specs.ties.Targets.{AreCandidates};

use crate::king_attack::king_attack_of;
use crate::lasting_flights::king_after;
use crate::steps::exact_steps;
use chess_attacks::Rules;
use chess_attacks::attacks_on::has_attacker_in;
use chess_attacks::leaps::king_leaps;
use chess_attacks::lines::occupied;
use chess_attacks::occupancy::Occupancy;
use chess_attacks::words::{only, pop_first};
use chess_core::{Board, Kind, Man, Move, Square, Squares};
use chess_flights::approach_squares::barring_squares;
use chess_flights::attackers::attackers_on;
use chess_flights::flights::{
    covered_squares, first_safe, held_squares, occupancy_lifted, occupancy_with, open_squares,
};
use chess_flights::free_steps::{free_steps, none_hops, unsimple_squares};
use chess_flights::guards::{leapt_squares, rider_reach};
use chess_rules::unplayed::{SquareFilter, capture_square, is_simple};

// Returns the occupancy after the enemy king, lifted from `king`, is put on `to`; the king isn't among
// the standing men.
fn occupancy_stepped(occupancy: Occupancy, king: Square, to: Square) -> Occupancy
    ensures { result ≡ occupancy_stepped occupancy king to }
{
    let seen = occupancy_with(occupancy, to);
    Occupancy {
        occupied: seen.occupied,
        standing: seen.standing & !only(Some(king)),
    }
}

// Returns whether no man of the stepping side but the king reaches the mover's king on `own` after the step
// to `to`.
#[inline(always)]
fn is_quiet_to(board: &Board, occupancy: Occupancy, king: Square, to: Square, own: Square) -> bool
    ensures { result ≡ true → IsQuietTo board.now.men board.now.turn occupancy king to own }
{
    let seen = occupancy_stepped(occupancy, king, to);
    !has_attacker_in(board, seen, own, board.turn().other())
}

// Returns whether the enemy king on `king` has a legal step to one of `squares` after this man's simple
// move, and the first of these steps gives no check.
#[tactic(auto, using(chess_flights::proofs::CalmSteps::not_all_mate))]
fn steps_quietly<R: Rules>(
    board: &Board,
    man: Man,
    m: Move,
    captured: Option<Square>,
    king: Square,
    squares: Squares,
) -> bool
    requires seen { IsSeenFrom R.rule board.now m man king }
    requires captured { captured ≡ capture_square board.now man m }
    ensures { result ≡ true
        → list_all (is_mating R.rule (position_after R.rule board.now m))
        (moves R.rule (position_after R.rule board.now m)) ≡ false }
{
    let from = m.from;
    let to = m.to;
    let promo = m.promo;
    to.show_below_64();
    let Some(own) = king_after(board, man, m) else {
        return false;
    };
    let occupancy = occupancy_lifted(board, from, captured, to, king);
    let near = open_squares::<R>(board, occupancy, king);
    let covered = covered_squares(occupancy.occupied, man, promo, to);
    match first_safe(board, occupancy, near & squares & !covered, board.turn()) {
        Some(to) => is_quiet_to(board, occupancy, king, to, own),
        None => false,
    }
}

// Returns the squares to which the enemy king on `king` could step if it were to move, and perhaps
// others if there are grasshoppers. The choice of squares affects speed only.
fn steps_now(board: &Board, king: Square) -> Squares {
    let near = king_leaps(king) & !held_squares(board, !0);
    let hurdles = occupied(board) & !only(Some(king));
    let men = attackers_on(board, board.turn());
    near & !(rider_reach(hurdles, &men, near) | leapt_squares(hurdles, &men, near))
}

// Returns the occupancy without the men on `from` and `king`.
fn occupancy_without(board: &Board, from: Square, king: Square) -> Occupancy
    ensures { result ≡ occupancy_without board.now.men from king }
{
    let gone = only(Some(from)) | only(Some(king));
    Occupancy {
        occupied: occupied(board) & !gone,
        standing: !gone,
    }
}

// Returns whether no step of the enemy king from `king` uncovers a check after this man has left: no
// standing man of the enemy reaches the mover's king, or, if that king is the man that moves, the square
// that the enemy king leaves. `false` says nothing.
fn are_quiet<R: Rules>(board: &Board, occupancy: Occupancy, man: Man, king: Square) -> bool
    ensures { result ≡ true → AreQuiet R.rule board.now occupancy man king }
{
    let enemy = board.turn().other();
    if man.kind.is(Kind::King) {
        return !R::like_men_paralyse() && !has_attacker_in(board, occupancy, king, enemy);
    }
    match board.king_of(board.turn()) {
        Some(own) => !has_attacker_in(board, occupancy, own, enemy),
        None => false,
    }
}

// Returns the squares where the lifted man's arrival may stop the enemy king's step to `to`; all squares if
// another man reaches `to`.
fn stopping_squares(board: &Board, occupancy: Occupancy, man: Man, to: Square) -> Squares
    ensures { (w t : ℕ) → (bit_at w to == 1) ≡ true → t < 64 → (bit_at result t == 1) ≡ false
        → IsStepLeft board.now occupancy w man t to }
{
    if has_attacker_in(board, occupancy, to, board.turn()) {
        return !0;
    }
    barring_squares(man, to)
}

// Returns the squares where the lifted man's arrival may stop all the steps.
#[tactic(auto, using(chess_attacks::proofs::HoldTaken::rest_falls, chess_rules::proofs::Targeting::every_square_on))]
fn holding_squares(board: &Board, occupancy: Occupancy, man: Man, steps: Squares) -> Squares
    ensures { (t : ℕ) → t < 64 → (bit_at result t == 1) ≡ false
        → (f : ℕ) × IsStepLeft board.now occupancy steps man t f }
{
    let mut squares = !0u64;
    let mut rest = steps;
    while let Some(to) = pop_first(&mut rest) {
        if squares == 0 {
            return squares;
        }
        squares &= stopping_squares(board, occupancy, man, to);
    }
    squares
}

// Returns which of `squares` the mover's king on `king` may legally step to, if that is known. Out of
// line: most calls concern other men.
#[inline(never)]
#[tactic(auto, using(crate::proofs::ExactSteps::known_exactly))]
fn king_steps<R: Rules>(board: &Board, king: Square, squares: Squares) -> Option<Squares>
    requires well_formed { IsWellFormed board.now }
    requires king { king_square board.now.men board.now.turn ≡ Some king }
    requires squares { AreCandidates R.rule board.now (is_legal R.rule board.now) king squares }
    ensures { IfSome result (λ w. AreExact R.rule board.now king w) }
{
    let king_attack = king_attack_of::<R>(board, king);
    exact_steps::<R>(&king_attack, squares)
}

/// Steps of the enemy king that give no check, for all moves of one position. As a filter it removes
/// moves after which a quiet step remains, so that not every reply mates.
#[derive(Clone, Copy)]
pub struct QuietSteps {
    // The squares to which the enemy king could step if it were to move; other steps aren't looked for.
    squares: Squares,
}

impl QuietSteps {
    /// Computes the quiet steps for the board's position.
    pub fn of(board: &Board) -> QuietSteps {
        let squares = match board.king_of(board.turn().other()) {
            Some(king) => steps_now(board, king),
            None => 0,
        };
        QuietSteps { squares }
    }

    /// Returns whether a quiet step is certainly legal after the move, so that not every reply mates.
    /// `false` says nothing; castling and captures with rebirth always return it.
    pub fn follow<R: Rules>(&self, board: &Board, m: Move) -> bool
        requires well_formed { IsWellFormed board.now }
        requires legal { is_legal R.rule board.now m ≡ true }
        ensures { result ≡ true
            → list_all (is_mating R.rule (position_after R.rule board.now m))
            (moves R.rule (position_after R.rule board.now m)) ≡ false }
    {
        let squares = self.squares;
        if squares == 0 {
            return false;
        }
        let Some(man) = board.man_at(m.from) else {
            return false;
        };
        let captured = capture_square(board, man, m);
        if !is_simple::<R>(man, m, captured.is_some()) {
            return false;
        }
        match board.king_of(board.turn().other()) {
            Some(king) => steps_quietly::<R>(board, man, m, captured, king, squares),
            None => false,
        }
    }

    /// Returns whether quiet steps are found for all moves of a man at once: the enemy king has a step,
    /// and no grasshopper is on the board.
    pub fn are_found_at_once(&self, board: &Board) -> bool
        ensures { result ≡ true → NoneHops board.now.men }
    {
        self.squares != 0 && none_hops(board)
    }

    // Returns the squares where the arrival of the man on `from` may leave no quiet step.
    #[tactic(auto, using(chess_flights::proofs::QuietFilter::nothing_known))]
    fn squares_without_quiet_step<R: Rules>(&self, board: &Board, from: Square) -> Squares
        requires well_formed { IsWellFormed board.now }
        ensures { (m : Move) → is_legal R.rule board.now m ≡ true → m.from ≡ from
            → (bit_at result m.to == 1) ≡ false → must_reply_with_mate R.rule board.now m ≡ false }
    {
        if !self.are_found_at_once(board) {
            return !0;
        }
        let Some(man) = board.man_at(from) else {
            return !0;
        };
        let Some(king) = board.king_of(board.turn().other()) else {
            return !0;
        };
        let occupancy = occupancy_without(board, from, king);
        if !are_quiet::<R>(board, occupancy, man, king) {
            return !0;
        }
        let steps = self.squares & free_steps::<R>(board, king);
        holding_squares(board, occupancy, man, steps) | unsimple_squares::<R>(board, man, from)
    }
}

impl SquareFilter for QuietSteps {
    ghost use Rattle.std.specs.Prelude.{⊤};
    ghost use Rattle.chess_flights.specs.ties.QuietSteps.{must_reply_with_mate};

    ghost test = { must_reply_with_mate };

    ghost fits = { λ steps rule p. ⊤ };

    fn kept_squares<R: Rules>(&mut self, board: &Board, from: Square, squares: Squares) -> Squares {
        squares & self.squares_without_quiet_step::<R>(board, from)
    }

    fn legal_squares<R: Rules>(
        &self,
        board: &Board,
        from: Square,
        squares: Squares,
    ) -> Option<Squares> {
        if board.king_of(board.turn()) != Some(from) {
            return None;
        }
        king_steps::<R>(board, from, squares)
    }
}
