//! Where men move and what they attack: attack, paralysis and check in orthodox chess, Circe and Madrasi.
//! `in_check` is the main call.
//!
//! For example, in a test with the parameter `rt: HostRuntime`:
//!
//! ```rust
//! use chess_attacks::{Orthodox, Rules, in_check};
//! use chess_core::{Board, Colour, Square};
//!
//! // White Kg6 Ra8, Black Kg8.
//! if let Ok(diagram) = fen::read(b"R5k1/8/6K1/8/8/8/8/8 w - -") {
//!     if diagram.is_well_formed() {
//!         let board = Board::of(&diagram);
//!         assert!(rt; in_check::<Orthodox>(&board, Colour::Black));
//!         assert!(rt; Orthodox::attacked(&board, Square::F8, Colour::White));
//!     }
//! }
//! ```
//!
//! The interface is what the root re-exports. The public modules serve only the chess crates above and
//! tests: bitboards of lines, leaps, rides and attackers. No call changes a board or allocates.
#![tactic(auto)]

pub mod attacks_on;
mod geometry;
pub mod leaps;
pub mod lines;
pub mod occupancy;
pub mod reach;
mod rules;
pub mod unblocked;
pub mod words;

pub use crate::rules::{Circe, Madrasi, Orthodox, Rules, in_check};
