//! Whether a help mate is still in reach: where the king can still be mated in the moves that are left.
//! The crate exists for speed only.
//!
//! For example, in a test with the parameter `rt: HostRuntime`:
//!
//! ```rust
//! use chess_attacks::words::only;
//! use chess_core::{Board, Colour, Diagram, Kind, Man, Square};
//! use chess_reach::mating_squares;
//! use chess_rules::Orthodox;
//! use pop_stipulation::Goal;
//!
//! // White Kg6 Ra1, Black Kg8, Black to move: a help mate in one.
//! let mut diagram = Diagram::new();
//! for (square, colour, kind) in [
//!     (Square::G6, Colour::White, Kind::King),
//!     (Square::A1, Colour::White, Kind::Rook),
//!     (Square::G8, Colour::Black, Kind::King),
//! ] {
//!     let _ = diagram.put(square, Man { colour, kind });
//! }
//! diagram.turn = Colour::Black;
//! if diagram.is_well_formed() {
//!     let board = Board::of(&diagram);
//!     // Ra1-a8 mates a king on g8 or h8, and no other square is found.
//!     let found = only(Some(Square::G8)) | only(Some(Square::H8));
//!     assert!(rt; mating_squares::<Orthodox>(&board, Goal::Mate, !0, 2) == found);
//! }
//! ```
//!
//! The interface is what the root re-exports. No call allocates, and each leaves the board unchanged.
//!
//! | Word | Meaning |
//! |---|---|
//! | plan | where each man ends in a mate, of which kind, and in how many moves on an empty board |
//! | guard, blocker | a man of the mating side; a man of the king's side that ends next to its king |
//! | hold | to guard a square next to the king, or to block it |
//! | whereabouts | the squares where a man can be, by what it is there |
//! | ways | how a man gets there: its chain has its whereabouts within each number of moves |
//! | post | where a guard may end, and in how many moves |
//! | quest | the king's last square, the guards and blockers: that for which a plan is searched |
//! | prey, lures | squares where pawns may capture: where men are now, where men may go to be captured |
#![tactic(auto)]

mod blocks;
mod guards;
mod hold;
mod line_ends;
mod planned_squares;
mod ways;
mod whereabouts;

pub use crate::guards::MOST_GUARDS;
pub use crate::line_ends::mating_squares;
