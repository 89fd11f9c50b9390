//! The settings of `pops`.
pub mod command_line;
