//! Walks over what is shown below the replies to a first move, and below its threats.
ghost use Rattle.std.specs.Prelude.{◌≡◌, ℕ, ◌<◌, ◌≤◌, ◌+◌, [], length, reverse};
ghost use Rattle.chess_core.specs.Position.{Position};
ghost use Rattle.chess_core.specs.WellFormed.{IsWellFormed};
ghost use Rattle.pop_walk.specs.Events.{last_shown};
ghost use Rattle.pop_walk.specs.ties.Walk.{IsEnded, IsWalking, path};
ghost use Rattle.pop_tries.specs.ties.Starts.{ShowsBelow, ShowsNext};

use crate::desk::Desk;
use chess_core::Board;
use chess_rules::Rules;
use pop_battle::Frame;
use pop_events::Shown;
use pop_input::MOST_FRAMES;
use pop_walk::mode::Mode;
use pop_walk::showing::last_shown;
use pop_walk::walk::{step, walk_length};

/// Opens the walk over what is shown below the board's position, which White, to move, wins with
/// `half_moves` half-moves left: below a reply, or where Black has passed. No frame is in use before.
pub(crate) fn open_walk<R: Rules, const N: usize>(
    mode: Mode,
    half_moves: usize,
    desk: &mut Desk<R, N>,
)
    requires well_formed { IsWellFormed desk.old.board }
    requires empty { desk.old.frames.items ≡ [] }
    requires room { half_moves < N }
    ensures walking { IsWalking R.rule half_moves desk.old.board (reverse desk.new.frames.items)
        desk.new.board }
    ensures come { ShowsBelow R.rule mode half_moves desk.old.board (reverse
        desk.new.frames.items) }
{
    let left = walk_length::<R, N>(
        mode,
        half_moves,
        &mut desk.board,
        &mut desk.frames,
        &mut desk.search_state,
    );
    desk.frames.push(Frame {
        left,
        ..Frame::default()
    });
}

/// Walks to the next node below a reply or below the threats. Returns whether there is one; if not, no frame
/// is left, and the board has the position where the walk started.
pub(crate) fn walk_on<R: Rules, const N: usize>(
    mode: Mode,
    half_moves: usize,
    desk: &mut Desk<R, N>,
) -> bool
    requires room { half_moves < N }
    requires walking { (p : Position) × IsWalking R.rule half_moves p
        (reverse desk.old.frames.items) desk.old.board }
    ensures next { (p : Position) → IsWalking R.rule half_moves p (reverse desk.old.frames.items)
        desk.old.board
        → ShowsNext R.rule mode half_moves p (reverse desk.old.frames.items)
        (reverse desk.new.frames.items) desk.new.board result }
{
    while !desk.frames.is_empty() {
        if step::<R, N, true>(
            mode,
            half_moves,
            &mut desk.board,
            &mut desk.frames,
            &mut desk.search_state,
        ) {
            return true;
        }
    }
    false
}

/// A node below a first move, as it is shown.
#[derive(Clone, Copy)]
pub(crate) struct ShownNode {
    /// The number of moves above it; a reply has depth 1.
    pub depth: u32,
    /// The number of its half-move, counted from 1.
    pub half: u32,
    /// The move that leads to the node.
    pub shown: Shown,
}

/// Returns the node at the top frame, whose position the board has. Where Black has passed, the missing reply
/// counts as a move.
pub(crate) fn shown_node<R: Rules>(mode: Mode, frames: &[Frame<R>], board: &mut Board) -> ShownNode
    requires deep { 2 ≤ length frames.now }
    requires shallow { length frames.now ≤ MOST_FRAMES }
    requires walking { (h : ℕ) × (p : Position)
        × IsWalking R.rule h p (reverse frames.now) board.old }
    requires ended { IsEnded R.rule mode (reverse frames.now) board.old }
    ensures unchanged { board.new ≡ board.old }
    ensures depth { result.depth ≡ length (path (reverse frames.now)) + 1 }
    ensures half { result.half ≡ length (path (reverse frames.now)) + 2 }
    ensures shown { (h : ℕ) (p : Position) → IsWalking R.rule h p (reverse frames.now) board.old
        → result.shown ≡ last_shown mode.goal R.rule p (path (reverse frames.now)) }
{
    let depth = frames.len() as u32;
    ShownNode {
        depth,
        half: depth + 1,
        shown: last_shown::<R>(mode, frames, board),
    }
}
