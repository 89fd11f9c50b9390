//! The options without a value.

/// The options without a value (Popeye manual).
#[derive(Clone, Copy)]
pub struct Switches {
    /// Solve set play before the play.
    pub set_play: bool,
    /// Show the defences and what follows them.
    pub variation: bool,
    /// Leave the board out of the report.
    pub no_board: bool,
}
