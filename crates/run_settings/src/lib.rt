//! The settings of a run. pop_settings reads them from a command line, and pop_run follows them.
//!
//! ```rust
//! use run_settings::Settings;
//!
//! let settings = Settings { file: None, check: true, no_board: false };
//! ```
#![tactic(auto)]

/// What a command line of `pops` asks for.
#[derive(Drop)]
pub struct Settings {
    /// The path of the input file, or `None` for standard input.
    pub file: Option<String>,
    /// Whether to only read and test the problems, without solving them.
    pub check: bool,
    /// Whether to leave the boards out of the report.
    pub no_board: bool,
}
