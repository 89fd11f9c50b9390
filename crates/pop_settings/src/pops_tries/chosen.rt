//! The settings of `pops-tries`.

/// What a command line of `pops-tries` asks for.
#[derive(Drop)]
pub struct Settings {
    /// The path of the input file, or `None` for standard input.
    pub file: Option<String>,
    /// Whether to only read and test the problems, without solving them.
    pub check: bool,
    /// Whether to leave the boards out of the report.
    pub no_board: bool,
    /// The greatest number of refutations of a try, 0 to 200.
    pub refutations: u32,
}
