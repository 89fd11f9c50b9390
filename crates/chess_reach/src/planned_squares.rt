//! The squares for which there may be a plan.
ghost use Rattle.std.specs.Prelude.{◌≡◌, ◌+◌, ◌-◌, ◌^◌, ◌<◌, ◌≤◌, false, ◌==◌, ℕ, true, List, Option, IfSome, MatchOption, find, is_some, slice_index_or, ◌⊎◌};
ghost use Rattle.std.specs.Int.{bit_at};
ghost use Rattle.chess_core.specs.Position.{Position, kinds, other};
ghost use Rattle.chess_core.specs.WellFormed.{IsWellFormed};
ghost use Rattle.chess_reach.specs.Plans.{Ends, IsPlan, captures_to};
ghost use Rattle.chess_core.specs.declared.man.Colour.TheVariants.{White};
ghost use Rattle.chess_core.specs.declared.man.Kind.{Kind};
ghost use Rattle.chess_core.specs.declared.man.Kind.TheVariants.{King};
ghost use Rattle.chess_core.specs.declared.man.Man.{Man};
ghost use Rattle.chess_reach.specs.Reach.{guards};
ghost use Rattle.chess_reach.specs.ties.Guards.{guard_at, is_blocker};
ghost use Rattle.chess_reach.specs.ties.Hold.{Captures, Holds, IsApart, IsBegun, IsQuestOf, post_at};
ghost use Rattle.chess_reach.specs.ties.Ways.{IsChain, is_unfollowed, may_promote_to_unfollowed, nowhere};

use crate::blocks::{Blocks, all_blockable, blocks_of};
use crate::guards::{Guard, MOST_GUARDS, list_guards};
use crate::hold::{Ending, Post, Posts, Quest, can_hold, can_mate, narrowed};
use crate::ways::{MOVES, chain_of};
use crate::whereabouts::Whereabouts;
use chess_attacks::leaps::king_leaps;
use chess_attacks::words::pop_first;
use chess_core::{Board, Colour, Kind, Man, Square, Squares};
use pop_stipulation::Goal;

// Returns the squares that have to be held: those next to the king without a blocker.
#[inline(always)]
fn unheld_squares(king: Square, standing: Squares) -> Squares
    ensures { (t : ℕ) → t < 64 → (bit_at result t == 1) ≡ true → guards White King king t ≡ true }
{
    king_leaps(king) & !standing
}

// Returns where the guards may end within `most` moves.
fn first_posts(quest: &Quest, most: usize) -> Posts
    requires count { quest.now.count ≤ MOST_GUARDS }
    requires moves { most < MOVES }
    ensures { (i : ℕ) → i < quest.now.count
        → post_at result i ≡ record {
          squares = slice_index_or (guard_at quest.now.guards i).chain most nowhere;
          moves = 0;
        } }
{
    let mut posts = [Post {
        squares: Whereabouts::nowhere(),
        moves: 0,
    }; MOST_GUARDS];
    for i in 0..quest.count {
        posts[i] = Post {
            squares: quest.guards[i].chain[most],
            moves: 0,
        };
    }
    posts
}

// Keeps the mating king apart from the other, and returns the moves that are left of `most`; `None` if it
// can't get away.
fn keep_apart(quest: &Quest, posts: &mut Posts, most: usize) -> Option<usize>
    requires count { quest.now.count ≤ MOST_GUARDS }
    ensures { (men : List (Option Man)) (ends : Ends) (w theirs : ℕ)
        → Holds quest.now men posts.old w most theirs ends → IsApart quest.now ends
        → MatchOption result ⊥ (λ spare. Holds quest.now men posts.new w spare theirs ends) }
{
    quest.king.show_below_64();
    let near = Whereabouts {
        unpromoted: king_leaps(quest.king),
        queen: 0,
        knight: 0,
    };
    let mut spare = most;
    for i in 0..quest.count {
        let guard = &quest.guards[i];
        let post = posts[i];
        if guard.kind.is(Kind::King) {
            let off = narrowed(guard, &post, &post.squares.without(&near), spare);
            let Some(off) = off else {
                return None;
            };
            spare -= off.moves - post.moves;
            posts[i] = off;
        }
    }
    Some(spare)
}

// Returns whether there may be a plan in which the king, described as a `Guard`, ends on the quest's
// square, and captured men make at least `captured` moves.
fn may_have_plan(quest: &Quest, king: &Guard, ours: usize, theirs: usize, captured: usize) -> bool
    requires count { quest.now.count ≤ MOST_GUARDS }
    requires moves { ours < MOVES }
    requires captured { captured ≤ theirs }
    ensures { (prey : ℕ) (p : Position) (ends : Ends)
        → IsPlan quest.now.ending.goal quest.now.ending.standing_checks
        quest.now.ending.are_reborn p quest.now.colour ours theirs quest.now.king ends
        → Captures quest.now.ending.are_reborn prey captured p quest.now.colour ends
        → IsQuestOf prey p quest.now king.now ours theirs → result ≡ true }
{
    quest.king.show_below_64();
    let Some(steps) = king.fewest(&Whereabouts::at(quest.king), 0, theirs - captured) else {
        return false;
    };
    let mut posts = first_posts(quest, ours);
    let Some(spare) = keep_apart(quest, &mut posts, ours) else {
        return false;
    };
    let unheld = unheld_squares(quest.king, quest.blockable[0]);
    let moves = theirs - captured - steps;
    match quest.ending.goal {
        Goal::Mate => can_mate(quest, &posts, unheld, spare, moves),
        Goal::Stalemate => can_hold(
            quest,
            &posts,
            &[Squares::MAX; MOST_GUARDS],
            unheld,
            spare,
            moves,
        ),
    }
}

// Returns the squares to which pawns of this colour capture men on these squares: the same, and for capture en
// passant the ones ahead.
#[inline(always)]
fn captured_from(mating: Colour, men: Squares) -> Squares
    ensures { (s t : ℕ) → s < 64 → t < 64 → (bit_at men s == 1) ≡ true
        → captures_to mating s t ≡ true → (bit_at result t == 1) ≡ true }
{
    match mating {
        Colour::White => men | men << 8,
        Colour::Black => men | men >> 8,
    }
}

// Returns the squares to which pawns of this colour capture men that haven't moved. Without pawns, and in
// Circe, these are all squares.
fn prey(board: &Board, mating: Colour, are_reborn: bool) -> Squares
    ensures reborn { are_reborn ≡ true → result ≡ 2 ^ 64 - 1 }
    ensures here { (s t : ℕ) → s < 64 → t < 64 → is_blocker board.now.men (other mating) s ≡ true
        → captures_to mating s t ≡ true → (bit_at result t == 1) ≡ true }
{
    if are_reborn {
        return Squares::MAX;
    }
    if board.squares(mating, Kind::Pawn) == 0 {
        return Squares::MAX;
    }
    let mated = mating.other();
    let men = board.side(mated) & !board.squares(mated, Kind::King);
    captured_from(mating, men)
}

// Returns the squares to which pawns of this colour capture men where these get. Without pawns, and in
// Circe, these are all squares.
fn lures(board: &Board, mating: Colour, are_reborn: bool, blockable: &Blocks) -> Squares
    ensures { (n s t : ℕ) → n < MOVES → s < 64 → t < 64
        → (bit_at (slice_index_or blockable.now n 0) s == 1) ≡ true
        → captures_to mating s t ≡ true → (bit_at result t == 1) ≡ true }
{
    if are_reborn {
        return Squares::MAX;
    }
    if board.squares(mating, Kind::Pawn) == 0 {
        return Squares::MAX;
    }
    captured_from(mating, all_blockable(blockable))
}

// Returns the part of `near` on which the king may end by a plan in which guards capture on squares of the
// quest's prey, and captured men make at least `captured` moves.
fn planned_part(
    quest: &mut Quest,
    king: &Guard,
    near: Squares,
    ours: usize,
    theirs: usize,
    captured: usize,
) -> Squares
    requires count { quest.old.count ≤ MOST_GUARDS }
    requires moves { ours < MOVES }
    requires captured { captured ≤ theirs }
    ensures planned { (prey : ℕ) (p : Position) (k : ℕ) (ends : Ends)
        → IsQuestOf prey p quest.old king.now ours theirs → k < 64
        → IsPlan quest.old.ending.goal quest.old.ending.standing_checks
        quest.old.ending.are_reborn p quest.old.colour ours theirs k ends
        → Captures quest.old.ending.are_reborn prey captured p quest.old.colour ends
        → (bit_at near k == 1) ≡ true → (bit_at result k == 1) ≡ true }
    ensures colour { quest.new.colour ≡ quest.old.colour }
    ensures blockable { quest.new.blockable ≡ quest.old.blockable }
    ensures ending { quest.new.ending ≡ quest.old.ending }
{
    let mut planned = 0u64;
    let mut rest = near;
    while let Some(to) = pop_first(&mut rest) {
        quest.seek(to);
        if may_have_plan(quest, king, ours, theirs, captured) {
            planned |= 1u64 << to.index();
        }
    }
    planned
}

// Returns whether plans have to be searched in which guards capture elsewhere than on `prey`, on `lures`, for
// squares of `rest`.
fn may_lure(theirs: usize, prey: Squares, lures: Squares, rest: Squares) -> bool
    ensures lure { result ≡ true → 0 < theirs }
    ensures none { result ≡ false → (theirs ≡ 0) ⊎ (lures ≡ prey) ⊎ (rest ≡ 0) }
{
    theirs != 0 && lures != prey && rest != 0
}

// Returns whether promotions to this kind aren't followed.
fn is_unfollowed(kind: Kind) -> bool
    ensures { result ≡ is_unfollowed kind }
{
    match kind {
        Kind::Grasshopper => false,
        _ => kind.is_fairy(),
    }
}

// Returns whether pawns may promote to this kind, and promotions to it aren't followed.
fn may_promote_to_unfollowed(board: &Board, kind: Kind) -> bool
    ensures { result ≡ may_promote_to_unfollowed board.now kind }
{
    is_unfollowed(kind) && board.may_promote(kind)
}

// Returns the first kind to which pawns may promote, though promotions to it aren't followed.
fn unfollowed_promotion(board: &Board) -> Option<Kind>
    ensures { result ≡ find (may_promote_to_unfollowed board.now) kinds }
{
    Kind::all()
        .iter()
        .copied()
        .find(|kind| may_promote_to_unfollowed(board, *kind))
}

// Returns whether a pawn may promote to a kind whose promotion isn't followed.
fn may_promote_unfollowed(board: &Board) -> bool
    ensures { result ≡ is_some (find (may_promote_to_unfollowed board.now) kinds) }
{
    unfollowed_promotion(board).is_some()
}

// Returns the king of this colour on `from` as a guard, with where it can be within each number of moves up to
// `most`.
#[inline(always)]
fn king_guard(colour: Colour, from: Square, most: usize, are_reborn: bool) -> Guard
    requires { most < MOVES }
    ensures kind { result.kind ≡ King }
    ensures from { result.from ≡ from }
    ensures way { IsChain are_reborn (2 ^ 64 - 1) (record { colour = colour; kind = King })
        from most result.chain }
{
    let kind = Kind::King;
    let chain = chain_of(Man { colour, kind }, from, most, Squares::MAX, are_reborn);
    Guard { kind, from, chain }
}

// Returns the part of `near` on which the king may end by a plan, and `None` if the mating side has too many men
// for a search. The guards capture first where men are, then where men may go in order to be captured.
fn planned_near(
    board: &Board,
    quest: &mut Quest,
    king: &Guard,
    near: Squares,
    ours: usize,
    theirs: usize,
) -> Option<Squares>
    requires { ours + 1 < MOVES }
    ensures { (k : ℕ) (ends : Ends) → IsBegun board.now quest.old king.now theirs → k < 64
        → IsPlan quest.old.ending.goal quest.old.ending.standing_checks quest.old.ending.are_reborn
        board.now quest.old.colour ours theirs k ends
        → (bit_at near k == 1) ≡ true
        → IfSome result (λ planned. (bit_at planned k == 1) ≡ true) }
{
    let mating = quest.colour;
    let are_reborn = quest.ending.are_reborn;
    let most = ours + 1;
    let prey = prey(board, mating, are_reborn);
    let lures = lures(board, mating, are_reborn, &quest.blockable);
    let Some(count) = list_guards(board, mating, most, prey, are_reborn, &mut quest.guards) else {
        return None;
    };
    quest.count = count;
    let planned = planned_part(quest, king, near, ours, theirs, 0);
    let rest = near & !planned;
    if !may_lure(theirs, prey, lures, rest) {
        return Some(planned);
    }
    let Some(count) = list_guards(board, mating, most, lures, are_reborn, &mut quest.guards) else {
        return None;
    };
    quest.count = count;
    Some(planned | planned_part(quest, king, rest, ours, theirs, 1))
}

/// Returns the part of `squares` on which the king of the side to be mated may end by a plan: the mating
/// side makes at most `ours` moves, the other at most `theirs`. It leaves out a square only if there is no plan.
pub(crate) fn planned_squares(
    board: &Board,
    ending: Ending,
    mating: Colour,
    ours: usize,
    theirs: usize,
    squares: Squares,
) -> Squares
    requires { IsWellFormed board.now }
    ensures { (k : ℕ) (ends : Ends) → k < 64
        → IsPlan ending.goal ending.standing_checks ending.are_reborn board.now mating
        ours theirs k ends
        → (bit_at squares k == 1) ≡ true → (bit_at result k == 1) ≡ true }
{
    if ours >= MOVES - 1 || theirs >= MOVES || may_promote_unfollowed(board) {
        return squares;
    }
    let colour = mating.other();
    let Some(from) = board.king_of(colour) else {
        return squares;
    };
    let king = king_guard(colour, from, theirs, ending.are_reborn);
    let near = squares & king.chain[theirs].unpromoted;
    if near == 0 {
        return 0;
    }
    let blockable = blocks_of(board, colour, theirs, ending.are_reborn);
    let mut quest = Quest {
        ending,
        colour: mating,
        king: from,
        count: 0,
        guards: [Guard::unused(); MOST_GUARDS],
        blockable,
    };
    match planned_near(board, &mut quest, &king, near, ours, theirs) {
        Some(planned) => planned,
        None => squares,
    }
}
