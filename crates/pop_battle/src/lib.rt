//! Battle play: whether White reaches a goal against every defence. Chess as a game of two sides, and the
//! value of a position, computed on one board with explicit frames.
//!
//! ```rust
//! use arrayvec::ArrayVec;
//! use chess_core::Board;
//! use chess_rules::Orthodox;
//! use pop_battle::{Aim, Frame, Killers, SearchState, value_of};
//! use pop_stipulation::{Battle, Goal};
//!
//! // White Kg6 Ra1, Black Kg8: White mates in one half-move.
//! if let Ok(diagram) = fen::read(b"6k1/8/6K1/8/8/8/8/R7 w - -") {
//!     if diagram.is_well_formed() {
//!         let mut board = Board::of(&diagram);
//!         let mut frames = ArrayVec::<Frame<Orthodox>, 2>::new();
//!         let mut state = SearchState::with(Killers::none());
//!         let aim = Aim { battle: Battle::Direct, goal: Goal::Mate };
//!         let mates = value_of::<Orthodox, 2>(aim, 1, &mut board, &mut frames, &mut state);
//!         assert!(rt; mates);
//!     }
//! }
//! ```
//!
//! The interface is what the root re-exports: `value_of` and its types. `chess` serves the searches above:
//! the next legal move, goals, how a move is shown. No call allocates.
#![tactic(auto)]

mod aim;
pub mod chess;
mod frame;
mod kept_threats;
mod killers;
mod last_defence;
mod last_move;
mod mate_in_two;
mod move_stages;
mod search_state;
mod value;

pub use crate::aim::Aim;
pub use crate::frame::{Early, Frame, LineEnds, MoveStage, Order};
pub use crate::kept_threats::KeptThreats;
pub use crate::killers::Killers;
pub use crate::search_state::{SearchState, show_fits_u64};
pub use crate::value::{attacker_to_move, value_of};
