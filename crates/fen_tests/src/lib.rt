//! Tests of FEN (`fen`) against positions from outside: the examples of the PGN Standard, well-known problems
//! and studies.
#![tactic(auto)]

#[cfg(test)]
mod row;
#[cfg(test)]
mod tests;
