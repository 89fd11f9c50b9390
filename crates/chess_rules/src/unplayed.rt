//! What shows something of a move before it is played: squares, tests and filters. They spare the crates
//! that find mates or rule them out most of the play; no other crate needs them.
pub use crate::legality::blockers::{
    KingSafety, blocker_squares, cannot_expose, fairy_lines, safety_from,
};
pub use crate::legality::evasions::rebirth_captures;
pub use crate::legality::exposure::is_simple;
pub use crate::legality::legal::is_pseudo_legal;
pub use crate::legality::targets::{arrivals, unblocked_targets};
pub use crate::listing_moves::legal_moves::LegalityMasks;
pub use crate::listing_moves::move_test::MoveTest;
pub use crate::listing_moves::other_moves::others_have_move;
pub use crate::listing_moves::square_filter::SquareFilter;
pub use crate::making_moves::play::{arriving_man, capture_square};
