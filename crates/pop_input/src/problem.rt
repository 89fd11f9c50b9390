//! A sound problem.
ghost use Rattle.std.specs.Prelude.{◌≡◌};
ghost use Rattle.pop_input.specs.Posed.{IsSound};

use crate::condition::Condition;
use crate::switches::Switches;
use chess_core::Diagram;
use pop_stipulation::Stipulation;
use pop_text::Text;
use std::marker::Model;

/// The texts of a problem, each empty if there is none.
#[derive(Clone, Copy)]
pub(crate) struct Texts<'a> {
    /// The last title.
    pub(crate) title: &'a Text,
    /// The last author.
    pub(crate) author: &'a Text,
}

/// A problem that was read without a fault. It can be set up and solved.
///
/// Contracts see the record `Posed`, and `IsSound` holds for every problem (`specs/Posed.antt`).
#[derive(Clone, Copy)]
pub struct Problem {
    diagram: Diagram,
    stipulation: Stipulation,
    condition: Option<Condition>,
    switches: Switches,
    max_solutions: u32,
    title: Text,
    author: Text,
}

impl Model for Problem {
    ghost use Rattle.pop_input.specs.Posed.{IsSound, Posed};

    ghost Value = { Posed };

    ghost view = { λ p. record {
      diagram = p.diagram;
      stipulation = p.stipulation;
      condition = p.condition;
      set_play = p.switches.set_play;
      variation = p.switches.variation;
      no_board = p.switches.no_board;
      max_solutions = p.max_solutions;
      title = p.title;
      author = p.author;
    } };

    ghost invariant = { λ p. IsSound (record {
      diagram = p.diagram;
      stipulation = p.stipulation;
      condition = p.condition;
      set_play = p.switches.set_play;
      variation = p.switches.variation;
      no_board = p.switches.no_board;
      max_solutions = p.max_solutions;
      title = p.title;
      author = p.author;
    }) };

    ghost inverse = { λ v. record {
      diagram = v.diagram;
      stipulation = v.stipulation;
      condition = v.condition;
      switches = record { set_play = v.set_play; variation = v.variation; no_board = v.no_board };
      max_solutions = v.max_solutions;
      title = v.title;
      author = v.author;
    } };
}

impl Problem {
    // Makes a problem from its parts. The caller proves that it is sound.
    pub(crate) fn new(
        diagram: &Diagram,
        stipulation: Stipulation,
        condition: Option<Condition>,
        switches: Switches,
        max_solutions: u32,
        texts: Texts<'_>,
    ) -> Problem
        requires { IsSound (record {
          diagram = diagram.now;
          stipulation = stipulation;
          condition = condition;
          set_play = switches.set_play;
          variation = switches.variation;
          no_board = switches.no_board;
          max_solutions = max_solutions;
          title = texts.title.now;
          author = texts.author.now;
        }) }
        ensures { result ≡ record {
          diagram = diagram.now;
          stipulation = stipulation;
          condition = condition;
          set_play = switches.set_play;
          variation = switches.variation;
          no_board = switches.no_board;
          max_solutions = max_solutions;
          title = texts.entry.title.now;
          author = texts.entry.author.now;
        } }
    {
        Problem {
            diagram: *diagram,
            stipulation,
            condition,
            switches,
            max_solutions,
            title: *texts.title,
            author: *texts.author,
        }
    }

    /// Returns a copy of the diagram: the men, the side to move, the castling rights as squares, and the en passant
    /// square.
    pub fn diagram(&self) -> Diagram
        ensures diagram { result ≡ self.now.diagram }
        ensures sound { IsSound self.now }
    {
        self.diagram
    }

    /// Returns the diagram by reference.
    pub fn setup(&self) -> &Diagram
        ensures { result.now ≡ self.now.diagram }
    {
        &self.diagram
    }

    /// Returns the stipulation. A clause says too that the problem is sound.
    pub fn stipulation(&self) -> Stipulation
        ensures stipulation { result ≡ self.now.stipulation }
        ensures sound { IsSound self.now }
    {
        self.stipulation
    }

    /// Does nothing: a statement for the prover alone, that the problem is sound. So its half-moves are at most
    /// `MOST_HALF_MOVES`.
    pub fn show_sound(&self)
        ensures { IsSound self.now }
    {
        let _stipulation = self.stipulation();
    }

    /// Returns the condition, or `None` in orthodox chess.
    pub fn condition(&self) -> Option<Condition>
        ensures { result ≡ self.now.condition }
    {
        self.condition
    }

    /// Returns whether to solve set play before the play.
    pub fn set_play(&self) -> bool
        ensures { result ≡ self.now.set_play }
    {
        self.switches.set_play
    }

    /// Returns whether to show the defences and what follows them.
    pub fn variation(&self) -> bool
        ensures { result ≡ self.now.variation }
    {
        self.switches.variation
    }

    /// Returns whether to leave the board out of the report.
    pub fn no_board(&self) -> bool
        ensures { result ≡ self.now.no_board }
    {
        self.switches.no_board
    }

    /// Returns the number of solutions after which a phase ends: 1 to 4,000,000,000. Without MaxSolutions it is the
    /// greatest.
    pub fn max_solutions(&self) -> u32
        ensures limit { result ≡ self.now.max_solutions }
        ensures sound { IsSound self.now }
    {
        self.max_solutions
    }

    /// Returns the last title, empty if there is none.
    pub fn title(&self) -> &Text
        ensures { result.now ≡ self.now.title }
    {
        &self.title
    }

    /// Returns the last author, empty if there is none.
    pub fn author(&self) -> &Text
        ensures { result.now ≡ self.now.author }
    {
        &self.author
    }
}
