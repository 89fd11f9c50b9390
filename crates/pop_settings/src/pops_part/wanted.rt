//! The settings of `pops-part`.

/// The name of a phase: set play or the play.
#[derive(Clone, Copy, Debug)]
pub enum PhaseName {
    Set,
    Play,
}

/// The parts with the numbers from `first` to `last` of an item's phase. Items and parts are counted from 1.
#[derive(Clone, Copy, Debug)]
pub struct NamedParts {
    pub item: u64,
    pub phase: PhaseName,
    pub first: u64,
    pub last: u64,
    /// How many first moves a part of help play fixes, 1 to 4.
    pub depth: usize,
}

/// What to report of the input.
#[derive(Clone, Copy, Debug)]
pub enum Wanted {
    /// The number of parts of each item's phases. A part of help play fixes `depth` first moves, 1 to 4.
    List { depth: usize },
    /// The solutions of some parts.
    Parts(NamedParts),
    /// The faults, with the places where they are found.
    Faults,
}

/// What a command line of `pops-part` asks for.
#[derive(Drop)]
pub struct Settings {
    /// The path of the input file, or `None` for standard input.
    pub file: Option<String>,
    pub wanted: Wanted,
}
