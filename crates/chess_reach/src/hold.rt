//! The search for a plan: guards and blockers that hold all squares around a king.
ghost use Rattle.std.specs.Prelude.{◌≡◌, ◌+◌, ◌<◌, ◌≤◌, ◌==◌, ℕ, true, false, IfSome, MatchOption, List, Option, slice_index_or};
ghost use Rattle.std.specs.Int.{bit_at};
ghost use Rattle.chess_core.specs.declared.man.Man.{Man};
ghost use Rattle.chess_reach.specs.Plans.{Arrives, End, Ends};
ghost use Rattle.chess_reach.specs.ties.Guards.{CanEnd, StaysAway};
ghost use Rattle.chess_reach.specs.ties.Hold.{DoesCheck, Holds, IsIn};
ghost use Rattle.chess_reach.specs.ties.Whereabouts.{has};

use crate::blocks::Blocks;
use crate::guards::{Guard, MOST_GUARDS};
use crate::ways::MOVES;
use crate::whereabouts::Whereabouts;
use chess_attacks::words::{contains, pop_first};
use chess_core::{Colour, Kind, Square, Squares};
use pop_stipulation::Goal;

/// Where a guard may end, and the fewest moves in which it gets to one of these squares.
#[derive(Clone, Copy)]
pub(crate) struct Post {
    pub(crate) squares: Whereabouts,
    pub(crate) moves: usize,
}

/// The posts of the guards.
pub(crate) type Posts = [Post; MOST_GUARDS];

/// Squares that the guards may guard, which guide the search.
pub(crate) type Sights = [Squares; MOST_GUARDS];

/// The goal of a plan, and what decides which men may check and where captured men go.
#[derive(Clone, Copy)]
pub(crate) struct Ending {
    pub(crate) goal: Goal,
    /// Whether a knight or pawn that makes no move may check.
    pub(crate) standing_checks: bool,
    /// Whether captured men are reborn.
    pub(crate) are_reborn: bool,
}

/// What a plan has to hold, and who may hold it.
#[derive(Drop)]
pub(crate) struct Quest {
    pub(crate) ending: Ending,
    /// The mating side.
    pub(crate) colour: Colour,
    /// Where the king ends.
    pub(crate) king: Square,
    /// The number of guards.
    pub(crate) count: usize,
    pub(crate) guards: [Guard; MOST_GUARDS],
    pub(crate) blockable: Blocks,
}

// Returns the post with these squares instead, if the guard gets to one of them in at most `spare` moves
// more.
#[inline(always)]
pub(crate) fn narrowed(
    guard: &Guard,
    post: &Post,
    squares: &Whereabouts,
    spare: usize,
) -> Option<Post>
    ensures within { IfSome result (λ p. (post.now.moves ≤ p.moves)
        × (p.moves ≤ post.now.moves + spare)) }
    ensures kept { (e : End) → CanEnd guard.now e → post.now.moves ≤ e.moves
        → e.moves ≤ post.now.moves + spare → has guard.now.kind e.kind e.square squares.now ≡ true
        → MatchOption result ⊥ (λ p. IsIn guard.now p e) }
{
    match guard.fewest(squares, post.moves, spare) {
        Some(moves) => Some(Post {
            squares: *squares,
            moves,
        }),
        None => None,
    }
}

// Returns the post with these squares instead, if the guard gets to one of them in at most `spare` moves more
// and makes at least two in all.
#[inline(always)]
fn narrowed_later(guard: &Guard, post: &Post, squares: &Whereabouts, spare: usize) -> Option<Post>
    ensures within { IfSome result (λ p. (post.now.moves ≤ p.moves)
        × (p.moves ≤ post.now.moves + spare)) }
    ensures kept { (e : End) → CanEnd guard.now e → post.now.moves ≤ e.moves
        → e.moves ≤ post.now.moves + spare → has guard.now.kind e.kind e.square squares.now ≡ true
        → 2 ≤ e.moves → MatchOption result ⊥ (λ p. IsIn guard.now p e) }
{
    let least = if post.moves > 2 { post.moves } else { 2 };
    let more = least - post.moves;
    if more > spare {
        return None;
    }
    match guard.fewest(squares, least, spare - more) {
        Some(moves) => Some(Post {
            squares: *squares,
            moves,
        }),
        None => None,
    }
}

// Returns the post with these squares instead, if the guard gets to one of them in at most `spare` moves more
// and checks from there. A knight or pawn has to arrive: a knight already there leaves and comes back, and a
// pawn doesn't come back. In Circe any man may check.
fn checking(
    quest: &Quest,
    guard: &Guard,
    post: &Post,
    squares: &Whereabouts,
    spare: usize,
) -> Option<Post>
    ensures within { IfSome result (λ p. (post.now.moves ≤ p.moves)
        × (p.moves ≤ post.now.moves + spare)) }
    ensures kept { (e : End) → CanEnd guard.now e
        → StaysAway quest.now.ending.are_reborn guard.now e
        → post.now.moves ≤ e.moves
        → e.moves ≤ post.now.moves + spare → has guard.now.kind e.kind e.square squares.now ≡ true
        → Arrives quest.now.ending.standing_checks e
        → MatchOption result ⊥ (λ p. IsIn guard.now p e) }
{
    if quest.ending.standing_checks || quest.ending.are_reborn {
        return narrowed(guard, post, squares, spare);
    }
    let away = squares.without(&Whereabouts::at(guard.from));
    let late = !guard.chain[1].meets(&away);
    match guard.kind {
        Kind::Pawn => narrowed(guard, post, &away, spare),
        Kind::Knight if late => narrowed_later(guard, post, squares, spare),
        _ => narrowed(guard, post, squares, spare),
    }
}

impl Quest {
    // Replaces the king's square.
    #[inline(always)]
    pub(crate) fn seek(&mut self, king: Square)
        ensures { self.new ≡ record self.old { king = king } }
    {
        self.king = king;
    }

    // Returns the fewest moves, at most `most`, in which a blocker gets to this square; `None` if none does.
    #[inline(always)]
    fn block_price(&self, square: Square, most: usize) -> Option<usize>
        ensures within { IfSome result (λ n. n ≤ most) }
        ensures fewest { (n : ℕ) → n ≤ most → n < MOVES
            → (bit_at (slice_index_or self.now.blockable n 0) square == 1) ≡ true
            → MatchOption result ⊥ (λ f. f ≤ n) }
    {
        let mut moves = 0;
        while moves < MOVES && moves <= most {
            if contains(self.blockable[moves], square) {
                return Some(moves);
            }
            moves += 1;
        }
        None
    }

    // Returns the square that the fewest men may hold, or `None` if there is no square. Which one it is matters
    // for speed only.
    #[inline(always)]
    fn hardest(
        &self,
        posts: &Posts,
        sights: &Sights,
        squares: Squares,
        ours: usize,
        theirs: usize,
    ) -> Option<Square>
        requires { self.now.count ≤ MOST_GUARDS }
        ensures { IfSome result (λ s. (s < 64) × ((bit_at squares s == 1) ≡ true)) }
    {
        let most = if theirs < MOVES { theirs } else { MOVES - 1 };
        let mut once = self.blockable[most];
        let mut twice = 0u64;
        let mut thrice = 0u64;
        for i in 0..self.count {
            let most = posts[i].moves.saturating_add(ours).saturating_add(1);
            let most = if most < MOVES { most } else { MOVES - 1 };
            let sight = sights[i] & self.guards[i].chain[most].anywhere();
            thrice |= twice & sight;
            twice |= once & sight;
            once |= sight;
        }
        let mut none = squares & !once;
        if none != 0 {
            return pop_first(&mut none);
        }
        let mut one = squares & !twice;
        if one != 0 {
            return pop_first(&mut one);
        }
        let mut two = squares & !thrice;
        if two != 0 {
            return pop_first(&mut two);
        }
        let mut rest = squares;
        pop_first(&mut rest)
    }
}

// Returns the squares without this one.
#[inline(always)]
fn without(squares: Squares, square: Square) -> Squares
    requires { (bit_at squares square == 1) ≡ true }
    ensures gone { (bit_at result square == 1) ≡ false }
    ensures others { (t : ℕ) → (bit_at result t == 1) ≡ true → (bit_at squares t == 1) ≡ true }
    ensures fewer { result < squares }
{
    squares & !(1u64 << square.index())
}

/// Returns whether guards in these posts, which make at most `ours` moves more, and blockers that make at
/// most `theirs` may hold the squares of `unheld`. It says no only if they can't.
pub(crate) fn can_hold(
    quest: &Quest,
    posts: &Posts,
    sights: &Sights,
    unheld: Squares,
    ours: usize,
    theirs: usize,
) -> bool
    requires { quest.now.count ≤ MOST_GUARDS }
    ensures { (men : List (Option Man)) (ends : Ends)
        → Holds quest.now men posts.now unheld ours theirs ends → result ≡ true }
{
    let Some(square) = quest.hardest(posts, sights, unheld, ours, theirs) else {
        return true;
    };
    let rest = without(unheld, square);
    let mut narrowed_posts = *posts;
    let mut seen = *sights;
    let mut spare = ours;
    for i in 0..quest.count {
        let guard = &quest.guards[i];
        let post = narrowed_posts[i];
        let guarding = guard.holding(quest.colour, quest.king, square, quest.ending.are_reborn);
        let kept = narrowed(guard, &post, &post.squares.within(&guarding), spare);
        if let Some(kept) = kept {
            narrowed_posts[i] = kept;
            seen[i] = guard.sight(quest.colour, &kept.squares, sights[i]);
            if can_hold(
                quest,
                &narrowed_posts,
                &seen,
                rest,
                spare - (kept.moves - post.moves),
                theirs,
            ) {
                return true;
            }
            seen[i] = sights[i];
            let off = narrowed(guard, &post, &post.squares.without(&guarding), spare);
            let Some(off) = off else {
                return false;
            };
            spare -= off.moves - post.moves;
            narrowed_posts[i] = off;
        }
    }
    let Some(price) = quest.block_price(square, theirs) else {
        return false;
    };
    can_hold(quest, &narrowed_posts, &seen, rest, spare, theirs - price)
}

// Returns whether the guard with this number may check while guards and blockers hold the squares of `unheld`.
// It says no only if they can't.
fn can_mate_by(
    quest: &Quest,
    checker: usize,
    posts: &Posts,
    unheld: Squares,
    ours: usize,
    theirs: usize,
) -> bool
    requires count { quest.now.count ≤ MOST_GUARDS }
    requires checker { checker < quest.now.count }
    ensures { (men : List (Option Man)) (ends : Ends)
        → Holds quest.now men posts.now unheld ours theirs ends
        → DoesCheck quest.now ends checker → result ≡ true }
{
    let guard = &quest.guards[checker];
    let post = posts[checker];
    let guarding = guard.guarding(quest.colour, quest.king, quest.king);
    let squares = post.squares.within(&guarding);
    let Some(kept) = checking(quest, guard, &post, &squares, ours) else {
        return false;
    };
    let mut narrowed_posts = *posts;
    narrowed_posts[checker] = kept;
    let mut sights = [Squares::MAX; MOST_GUARDS];
    sights[checker] = guard.sight(quest.colour, &kept.squares, Squares::MAX);
    can_hold(
        quest,
        &narrowed_posts,
        &sights,
        unheld,
        ours - (kept.moves - post.moves),
        theirs,
    )
}

/// Returns whether guards in these posts, which make at most `ours` moves more, and blockers that make at
/// most `theirs` may hold the squares of `unheld` while a guard checks. It says no only if they can't.
pub(crate) fn can_mate(
    quest: &Quest,
    posts: &Posts,
    unheld: Squares,
    ours: usize,
    theirs: usize,
) -> bool
    requires { quest.now.count ≤ MOST_GUARDS }
    ensures { (men : List (Option Man)) (ends : Ends) (i : ℕ)
        → Holds quest.now men posts.now unheld ours theirs ends → i < quest.now.count
        → DoesCheck quest.now ends i → result ≡ true }
{
    for i in 0..quest.count {
        if can_mate_by(quest, i, posts, unheld, ours, theirs) {
            return true;
        }
    }
    false
}
