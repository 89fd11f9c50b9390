//! The steps of a king, the squares that men guard and the squares from which they come, by bitboards and
//! without playing a move. `chess_mates` and `chess_threats` share them.
//!
//! For example, in a test with the parameter `rt: HostRuntime`:
//!
//! ```rust
//! use chess_attacks::lines::occupied;
//! use chess_attacks::words::only;
//! use chess_core::{Board, Colour, Square};
//! use chess_flights::attackers::attackers_on;
//! use chess_flights::free_steps::free_steps;
//! use chess_flights::guards::leapt_squares;
//! use chess_rules::Orthodox;
//!
//! // White Kg6 Ra1, Black Kg8, White to move.
//! if let Ok(diagram) = fen::read(b"6k1/8/6K1/8/8/8/8/R7 w - -") {
//!     if diagram.is_well_formed() {
//!         let board = Board::of(&diagram);
//!         let steps = free_steps::<Orthodox>(&board, Square::G8);
//!         let white = attackers_on(&board, Colour::White);
//!         let guarded = leapt_squares(occupied(&board), &white, steps);
//!         // White's king guards f7, g7 and h7: f8 and h8 are left.
//!         let left = only(Some(Square::F8)) | only(Some(Square::H8));
//!         assert!(rt; steps & !guarded == left);
//!     }
//! }
//! ```
//!
//! The interface is the public functions of the modules, which serve only `chess_mates` and
//! `chess_threats`, and the definition of moves that mate in `specs/ties/Mates.antt`. No call allocates.
#![tactic(auto)]

pub mod approach_squares;
pub mod attackers;
pub mod by_kind;
pub mod flights;
pub mod free_steps;
pub mod guards;
pub mod pawn_approaches;
