//! A problem while its words are read. One module for each section of the input, and `closing` for the tests at its
//! end.
ghost use Rattle.std.specs.Prelude.{◌≡◌, [], None, Some};
ghost use Rattle.pop_input.specs.Drafts.{Control, Within, draft_after, draft_by, empty_draft, plain_role};
ghost use Rattle.pop_input.specs.Names.{command_of};
ghost use Rattle.pop_input.specs.WordFaults.{control_fault, fault_in, role_fault};

mod closing;
mod condition;
mod expected;
mod men;
mod options;
mod stipulation;

use crate::condition::Condition;
use crate::context::Context;
use crate::fault_kind::FaultKind;
use crate::names::{Command, ExpectedValue, Section};
use crate::short_word::ShortWord;
use crate::switches::Switches;
use crate::values::{MOST_SOLUTIONS, squares_named};
use chess_core::{Colour, Diagram, Square, Unmoved};
use pop_stipulation::Stipulation;
use std::marker::Model;

/// What the words of a problem say so far. Contracts see it as the record `Draft` of `specs/Drafts.antt`.
#[derive(Drop)]
pub struct Draft {
    context: Context,
    colour: Option<Colour>,
    diagram: Diagram,
    stipulation: Option<Stipulation>,
    condition: Option<Condition>,
    switches: Switches,
    limit: u32,
    crossed: Option<Square>,
    castling_forbidden: Unmoved,
}

impl Model for Draft {
    ghost use Rattle.std.specs.Prelude.{◌≡◌, ◌≤◌, true};
    ghost use Rattle.pop_input.specs.Ends.{ArePut, is_stated};
    ghost use Rattle.pop_input.specs.Drafts.{Draft};
    ghost use Rattle.pop_input.specs.Values.{most_solutions};

    ghost Value = { Draft };

    ghost view = { λ d. record {
      context = d.context;
      colour = d.colour;
      men = d.diagram.men;
      stipulation = d.stipulation;
      condition = d.condition;
      switches = d.switches;
      limit = d.limit;
      crossed = d.crossed;
      castling_forbidden = d.castling_forbidden;
    } };

    ghost invariant = { λ d. ArePut d.diagram.men × (is_stated d.stipulation ≡ true) × (1 ≤ d.limit)
        × (d.limit ≤ most_solutions) };
}

impl Draft {
    /// Returns the draft before any word: an empty board, no stipulation, the greatest limit of solutions.
    pub(crate) fn new() -> Draft
        ensures { result ≡ empty_draft }
    {
        Draft {
            context: Context {
                section: None,
                expected: None,
            },
            colour: None,
            diagram: Diagram::new(),
            stipulation: None,
            condition: None,
            switches: Switches {
                set_play: false,
                variation: false,
                no_board: false,
            },
            limit: MOST_SOLUTIONS,
            crossed: None,
            castling_forbidden: Unmoved::none(),
        }
    }

    /// Reads a word, and returns its fault, if any.
    pub(crate) fn read(&mut self, word: &ShortWord<'_>) -> Option<FaultKind>
        ensures fault { result ≡ fault_in self.old word.now }
        ensures draft { result ≡ None → self.new ≡ draft_after self.old word.now }
    {
        match self.context.expected {
            Some(ExpectedValue::Number) => self.read_limit(word),
            Some(ExpectedValue::OneSquare) => self.read_en_passant(word),
            Some(ExpectedValue::Squares) => match squares_named(word.bytes()) {
                Some(squares) => self.forbid(squares.as_slice()),
                None => Some(FaultKind::SquareMissing),
            },
            Some(ExpectedValue::MoreSquares) => match squares_named(word.bytes()) {
                Some(squares) => self.forbid(squares.as_slice()),
                None => self.read_plain(word),
            },
            None => self.read_plain(word),
        }
    }

    // Reads a word that no option expects: a command, or a word of the open section.
    fn read_plain(&mut self, word: &ShortWord<'_>) -> Option<FaultKind>
        ensures fault { result ≡ role_fault self.old
            (plain_role (command_of word.now) self.old.context.section) word.now }
        ensures draft { result ≡ None → self.new ≡ draft_by
            (plain_role (command_of word.now) self.old.context.section) self.old word.now }
    {
        match word.command() {
            Some(command) => self.read_command(command),
            None => self.read_in(self.context.section, word),
        }
    }

    // Reads a command, which ends the last colour and the value that an option expects.
    fn read_command(&mut self, command: Command) -> Option<FaultKind>
        ensures fault { result ≡ control_fault command }
        ensures draft { result ≡ None → self.new ≡ draft_by (Control command) self.old [] }
    {
        self.colour = None;
        self.context.expected = None;
        match command {
            Command::Begin => Some(FaultKind::WordMisplaced),
            Command::Enter(section) => {
                self.context.section = Some(section);
                None
            }
            Command::Next | Command::Last => None,
        }
    }

    // Reads a word of a section, which is neither a command nor a value that an option expects.
    fn read_in(&mut self, section: Option<Section>, word: &ShortWord<'_>) -> Option<FaultKind>
        ensures fault { result ≡ role_fault self.old (Within section) word.now }
        ensures draft { result ≡ None → self.new ≡ draft_by (Within section) self.old word.now }
    {
        match section {
            None => Some(FaultKind::WordMisplaced),
            Some(Section::Pieces) => self.read_pieces(word),
            Some(Section::Stipulation) => self.read_stipulation(word),
            Some(Section::Condition) => self.read_condition(word),
            Some(Section::Options) => self.read_option(word),
        }
    }
}
