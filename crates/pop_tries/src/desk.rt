//! What a search works on.
ghost use Rattle.std.specs.Prelude.{◌≡◌, []};

use arrayvec::ArrayVec;
use chess_core::Board;
use chess_rules::Rules;
use pop_battle::{Frame, Killers, SearchState};

/// What a search works on: the board, on which it plays moves and takes them back, a frame for each half-move
/// of its walks and tests, and what it remembers.
#[derive(Drop)]
pub(crate) struct Desk<R: Rules, const N: usize> {
    pub board: Board,
    pub frames: ArrayVec<Frame<R>, N>,
    pub search_state: SearchState,
}

impl<R: Rules, const N: usize> Desk<R, N> {
    /// Returns a desk with this board, before a search has begun.
    pub(crate) fn with(board: Board) -> Self
        ensures board { result.board ≡ board }
        ensures frames { result.frames.items ≡ [] }
    {
        Desk {
            board,
            frames: ArrayVec::new(),
            search_state: SearchState::with(Killers::none()),
        }
    }
}
