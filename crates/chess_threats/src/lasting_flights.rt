//! Flights that one move can't take, found before the defender's move. The attackers count as if each were
//! alone on the board, so it doesn't matter who moves, captures or is captured.
ghost use Rattle.std.specs.Prelude.{◌≡◌, ◌≢◌, ◌<◌, ◌==◌, ℕ, IfSome, true, false};
ghost use Rattle.std.specs.Int.{bit_at};
ghost use Rattle.chess_core.specs.SquareNames.{e1, e8};
ghost use Rattle.chess_core.specs.declared.man.Kind.TheVariants.{Pawn};
ghost use Rattle.chess_core.specs.declared.man.Man.{Man};
ghost use Rattle.chess_flights.specs.declared.attackers.Attackers.{Attackers};
ghost use Rattle.chess_threats.specs.ties.LastingFlights.{AreKindTargets, AreOpenTargets, AreTargets, AreTargetsOf, KeepsOne, LeaveOne};
ghost use Rattle.chess_flights.specs.ties.Approaches.{IsLeft};
ghost use Rattle.chess_rules.specs.ties.Exposure.{king_after};
ghost use Rattle.chess_attacks.specs.ties.Lines.{AreReached};

use chess_attacks::unblocked::unblocked_reach;
use chess_attacks::words::{highest, next_bit, only, pop_first};
use chess_core::{Board, Colour, Kind, LAST_RANKS, Man, Move, Square, Squares};
use chess_flights::approach_squares::barring_squares;
use chess_flights::attackers::Attackers;
use chess_flights::by_kind::{ByKind, ForKind, for_all, for_each_kind, is_for_all, union_of};
use chess_rules::unplayed::unblocked_targets;

// Supersets of the squares where each kind of a side's men may be after one move on an otherwise empty
// board (`squares`), and of the squares that they reach now (`guarded`). A promoted rook or bishop counts
// as a queen, which reaches all that they do.
#[derive(Clone, Copy)]
pub(crate) struct OpenTargets {
    pub(crate) squares: ByKind<Squares>,
    pub(crate) guarded: Squares,
}

impl OpenTargets {
    // Returns all squares for each kind: nothing is known.
    #[inline(always)]
    pub(crate) fn unknown() -> OpenTargets
        ensures { (a : Attackers) → AreOpenTargets a result }
    {
        OpenTargets {
            squares: for_all(!0),
            guarded: !0,
        }
    }
}

// The squares that men of a kind reach, each alone on the board.
#[derive(Drop)]
struct OpenReach {
    colour: Colour,
}

#[tactic(auto, using(chess_attacks::proofs::HoldTaken::taken_all, chess_attacks::proofs::HoldTaken::taken_none, chess_attacks::proofs::HoldTaken::rest_falls, chess_flights::proofs::Bitboards::none_on))]
impl ForKind<Squares> for OpenReach {
    type Out = Squares;

    ghost holds = { λ f k squares w. (s : ℕ) → s < 64 → (bit_at squares s == 1) ≡ true
        → AreReached (record { colour = f.colour; kind = k }) s w };

    #[inline(always)]
    fn of(&self, kind: Kind, squares: Squares) -> Squares {
        if squares == 0 {
            return 0;
        }
        let colour = self.colour;
        let man = Man { colour, kind };
        let mut reached = 0u64;
        let mut rest = squares;
        while let Some(from) = pop_first(&mut rest) {
            let more = unblocked_reach(man, from);
            reached |= more;
        }
        reached
    }
}

// Returns the squares to which men of this kind on `squares` could go, including pawn advances and
// castling, each alone on the board.
#[tactic(auto, using(chess_attacks::proofs::HoldTaken::taken_all, chess_attacks::proofs::HoldTaken::taken_none, chess_attacks::proofs::HoldTaken::rest_falls, chess_flights::proofs::Bitboards::none_on))]
#[inline(always)]
fn open_targets_of(colour: Colour, kind: Kind, squares: Squares) -> Squares
    ensures { (s : ℕ) → s < 64 → (bit_at squares s == 1) ≡ true
        → AreTargets (record { colour = colour; kind = kind }) s result }
{
    if squares == 0 {
        return 0;
    }
    let man = Man { colour, kind };
    let mut targets = 0u64;
    let mut rest = squares;
    while let Some(from) = pop_first(&mut rest) {
        let more = unblocked_targets(man, from);
        targets |= more;
    }
    targets
}

// The targets of a kind, from the squares that its men reach. `advances` are the targets of the pawns.
#[derive(Drop)]
struct KindTargets<'a> {
    men: &'a Attackers,
    advances: Squares,
}

impl ForKind<Squares> for KindTargets<'_> {
    type Out = Squares;

    ghost fits = { λ f. AreTargetsOf f.men.now Pawn f.advances };

    ghost holds = { λ f k reached w. AreKindTargets f.men.now f.advances k reached w };

    #[inline(always)]
    fn of(&self, kind: Kind, reached: Squares) -> Squares {
        let men = self.men;
        match kind {
            Kind::King => open_targets_of(men.colour, kind, men.squares.kings),
            Kind::Pawn => self.advances,
            Kind::Rook | Kind::Bishop => reached,
            _ if kind.is_fairy() && !men.fairy_promotions => reached,
            _ => reached | self.advances & LAST_RANKS,
        }
    }
}

// Returns the targets of the men. For pieces other than kings these are the squares that they reach and
// the squares where a pawn promotes to their kind.
#[inline(always)]
pub(crate) fn all_open_targets(men: &Attackers) -> OpenTargets
    ensures { AreOpenTargets men.now result }
{
    let colour = men.colour;
    let reached = for_each_kind(&OpenReach { colour }, &men.squares);
    let advances = open_targets_of(colour, Kind::Pawn, men.squares.pawns);
    OpenTargets {
        squares: for_each_kind(&KindTargets { men, advances }, &reached),
        guarded: union_of(&reached),
    }
}

// Returns the first of the squares that remains after the man arrives on `to`.
#[tactic(auto, using(crate::proofs::LastingFlights::left_first))]
fn first_left(squares: Squares, man: Man, to: Square) -> Option<Square>
    ensures { IfSome result (λ f. IsLeft squares man to f) }
{
    next_bit(squares & !(unblocked_reach(man, to) | only(Some(to))), 0)
}

// The squares e1 and e8.
const KINGS_HOMES: Squares = 0x1000_0000_0000_0010;

// Returns whether no king is on a square from which it castles.
#[tactic(auto, using(crate::proofs::LastingFlights::off_homes))]
#[inline(always)]
fn never_castle(men: &Attackers) -> bool
    ensures { result ≡ true → (s : ℕ) → (bit_at men.now.squares.kings s == 1) ≡ true
        → (s ≢ e1) × (s ≢ e8) }
{
    men.squares.kings & KINGS_HOMES == 0
}

// Returns whether one of the squares remains wherever the man arrives on a target.
#[tactic(auto, using(chess_attacks::proofs::HoldTaken::taken_all, chess_attacks::proofs::HoldTaken::taken_none, chess_attacks::proofs::HoldTaken::rest_falls))]
fn leaves_one_each(squares: Squares, man: Man, targets: Squares) -> bool
    ensures { result ≡ true → (t : ℕ) → t < 64 → (bit_at targets t == 1) ≡ true
        → (f : ℕ) × IsLeft squares man t f }
{
    let mut rest = targets;
    while let Some(to) = pop_first(&mut rest) {
        let Some(_left) = first_left(squares, man, to) else {
            return false;
        };
    }
    true
}

// Returns whether one of the squares remains wherever the man arrives on a target. It tests only arrivals
// that take both the first and the last of the squares: elsewhere one of these remains.
#[inline(always)]
fn leaves_one_among(squares: Squares, man: Man, targets: Squares) -> bool
    ensures { result ≡ true → (t : ℕ) → t < 64 → (bit_at targets t == 1) ≡ true
        → (f : ℕ) × IsLeft squares man t f }
{
    let Some(first) = next_bit(squares, 0) else {
        return false;
    };
    let taken = targets & barring_squares(man, first);
    if taken == 0 {
        return true;
    }
    let last = highest(squares);
    leaves_one_each(squares, man, taken & barring_squares(man, last))
}

// Whether one of `squares` remains wherever among its targets a man of a kind arrives; `true` without
// targets.
#[derive(Drop)]
pub(crate) struct LeavesOne {
    pub(crate) squares: Squares,
    pub(crate) colour: Colour,
}

#[tactic(auto, using(chess_flights::proofs::Bitboards::none_on))]
impl ForKind<Squares> for LeavesOne {
    type Out = bool;

    ghost holds = { λ l k targets yes. yes ≡ true → (t : ℕ) → t < 64
        → (bit_at targets t == 1) ≡ true → (f : ℕ)
        × IsLeft l.squares (record { colour = l.colour; kind = k }) t f };

    #[inline(always)]
    fn of(&self, kind: Kind, targets: Squares) -> bool {
        if targets == 0 {
            return true;
        }
        let colour = self.colour;
        leaves_one_among(self.squares, Man { colour, kind }, targets)
    }
}

// Returns whether one of the squares remains wherever any of the men goes, whatever a pawn promotes to.
#[inline(always)]
fn leave_one(squares: Squares, men: &Attackers, targets: &OpenTargets) -> bool
    requires { AreOpenTargets men.now targets.now }
    ensures { result ≡ true → LeaveOne men.now squares }
{
    if !never_castle(men) {
        return false;
    }
    let colour = men.colour;
    is_for_all(&LeavesOne { squares, colour }, &targets.squares)
}

// Returns the square of the mover's king after this man's move, without castling.
pub(crate) fn king_after(board: &Board, man: Man, m: Move) -> Option<Square>
    ensures { result ≡ king_after board.now man m }
{
    if man.kind.is(Kind::King) {
        return Some(m.to);
    }
    board.king_of(board.turn())
}

// Returns whether one move of the men can't take all squares of `near` that they don't reach now. Each
// man counts as if it were alone on the board.
#[tactic(auto, using(crate::proofs::LastingFlights::keeps_one))]
#[inline(always)]
pub(crate) fn keeps_one(men: &Attackers, targets: &OpenTargets, near: Squares) -> bool
    requires { AreOpenTargets men.now targets.now }
    ensures { result ≡ true → KeepsOne men.now near }
{
    let squares = near & !targets.guarded;
    squares != 0 && leave_one(squares, men, targets)
}
