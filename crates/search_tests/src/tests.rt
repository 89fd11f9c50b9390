//! Rows, and comparisons with the plain solver.
mod agreements;
mod opened;
mod printing;
mod rows;
