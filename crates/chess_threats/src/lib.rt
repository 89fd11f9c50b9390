//! Shows that no reply to a move can mate, or that not every reply mates, mostly without playing the move.
//! The crate exists for speed only: `chess_rules` alone would find the same.
//!
//! For example, in a test with the parameter `rt: HostRuntime`:
//!
//! ```rust
//! use chess_core::{Board, Move, Square};
//! use chess_rules::Orthodox;
//! use chess_threats::Threats;
//!
//! // White Kg6 Ra1, Black Kg8, Black to move.
//! if let Ok(diagram) = fen::read(b"6k1/8/6K1/8/8/8/8/R7 b - -") {
//!     if diagram.is_well_formed() {
//!         let board = Board::of(&diagram);
//!         let king = Square::G8;
//!         let mut threats = Threats::of::<Orthodox>(&board, king);
//!         let step = |to| Move { from: king, to, promo: None };
//!         // Ra1-a8 mates after Kh8, and nothing mates after Kf8.
//!         assert!(rt; !threats.rule_out_mate::<Orthodox>(&board, step(Square::H8)));
//!         assert!(rt; threats.rule_out_mate::<Orthodox>(&board, step(Square::F8)));
//!     }
//! }
//! ```
//!
//! The interface is what the root re-exports. No call allocates, none builds a list of moves, and each
//! leaves the board unchanged.
#![tactic(auto)]

mod guards_without;
mod homes;
mod hopped_flights;
mod kept_flights;
mod king_attack;
mod king_zone;
mod lasting_flights;
mod quiet_steps;
mod risk;
mod safe_steps;
mod steps;
mod threats;

pub use crate::kept_flights::KeptFlights;
pub use crate::quiet_steps::QuietSteps;
pub use crate::threats::Threats;
