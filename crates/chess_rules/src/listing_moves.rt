//! Lists the legal moves in order, counts them and filters them.
pub(crate) mod counting;
pub(crate) mod cursor;
pub(crate) mod legal_moves;
pub(crate) mod move_place;
pub(crate) mod move_test;
pub(crate) mod moves;
pub(crate) mod other_moves;
pub(crate) mod square_filter;
pub(crate) mod triples;
