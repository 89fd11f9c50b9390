//! Finds mating moves, mostly without playing them. The crate exists for speed only: `chess_rules` alone
//! would find the same moves.
//!
//! For example, in a test with the parameter `rt: HostRuntime`:
//!
//! ```rust
//! use chess_core::{Board, Move, Square};
//! use chess_mates::mate_cursor;
//! use chess_rules::Orthodox;
//!
//! // White Kg6 Ra1, Black Kg8, White to move.
//! if let Ok(diagram) = fen::read(b"6k1/8/6K1/8/8/8/8/R7 w - -") {
//!     if diagram.is_well_formed() {
//!         let mut board = Board::of(&diagram);
//!         let mut mates = mate_cursor::<Orthodox>(&board);
//!         let mate = Move {
//!             from: Square::A1,
//!             to: Square::A8,
//!             promo: None,
//!         };
//!         // Ra1-a8 is the only mate.
//!         assert!(rt; mates.next(&mut board) == Some(mate));
//!         assert!(rt; mates.next(&mut board).is_none());
//!     }
//! }
//! ```
//!
//! The interface is what the root re-exports. No call allocates, none builds a list of moves, and each
//! leaves the board unchanged.
#![tactic(auto)]

mod aims;
mod checks;
mod every_move;
mod flights_after;
mod mating_moves;
mod origins;
mod parries;
mod standing_flights;

pub use crate::aims::{aims_at_king, next_aimed};
pub use crate::every_move::every_move_mates;
pub use crate::mating_moves::{MateClues, MateCursor, mate_cursor, next_mate};
