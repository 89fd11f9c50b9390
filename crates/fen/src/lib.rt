//! Diagrams in FEN: the first four fields (PGN Standard, section 16.1), which EPD begins with too.
//!
//! For example, in a test with the parameter `rt: HostRuntime`:
//!
//! ```rust
//! use chess_core::{Board, Colour, Square};
//! use fen::{Fen, read};
//!
//! // White Kg6 Ra1, Black Kg8; White is to move.
//! if let Ok(diagram) = read(b"6k1/8/6K1/8/8/8/8/R7 w - -") {
//!     if diagram.is_well_formed() {
//!         let board = Board::of(&diagram);
//!         assert!(rt; board.king_of(Colour::White) == Some(Square::G6));
//!     }
//!     let fen = Fen { diagram };
//!     println!(rt; "{fen}")?;
//! }
//! ```
//!
//! `specs/Fen.antt` defines the text of a diagram. A text is read exactly if it is some diagram's, and a diagram
//! is written as its own text; so two numbers in a row, more blanks, or another order of castling rights are
//! refused. FEN's last two fields, the numbers of half-moves and moves, are no part of a diagram: a text with
//! them is refused. Grasshoppers are `G` and `g`, nightriders `(N)` and `(n)`, as on the page.
//!
//! Castling rights here are squares, in FEN castlings: `K` says that the king on e1 and the rook on h1 haven't
//! moved. For the king alone or the rook alone FEN has no letter: `read` never returns these rights, and writing
//! drops them. Whether a position may be played is left to `Diagram::is_well_formed`.
//! No call allocates.
#![tactic(auto)]

mod bytes;
mod letters;
mod men;
mod not_fen;
mod reading;
mod rights;
mod writing;

pub use crate::not_fen::NotFen;
pub use crate::reading::read;
pub use crate::writing::Fen;
