//! Items as values that can be compared.
use chess_core::{Colour, Diagram, Kind, Man, Square};
use pop_input::{Condition, Item, Problem};
use pop_stipulation::{Form, Goal};

/// A problem: its men as letters, small ones for Black and 0 for an empty square, and everything else
/// that it states.
#[derive(Clone, Copy, PartialEq, Eq)]
pub(crate) struct Summary {
    pub(crate) men: [u8; 64],
    pub(crate) black_starts: bool,
    pub(crate) unmoved: [bool; 6],
    pub(crate) crossed: u8,
    pub(crate) form: u8,
    pub(crate) sign: u8,
    pub(crate) n: u8,
    pub(crate) condition: u8,
    pub(crate) options: [bool; 3],
    pub(crate) limit: u32,
    pub(crate) title: u64,
    pub(crate) author: u64,
}

/// An item: a problem, or the number and line of a fault.
#[derive(Clone, Copy, PartialEq, Eq)]
pub(crate) enum Expected {
    Sound(Summary),
    Faulty(u8, u64),
}

impl Default for Expected {
    fn default() -> Expected {
        Expected::Faulty(0, 0)
    }
}

/// Returns a hash of a text.
pub(crate) fn digest(text: &[u8]) -> u64 {
    let mut value = text.len() as u64;
    for byte in text {
        value = value.wrapping_mul(1_099_511_628_211) ^ (*byte as u64);
    }
    value
}

/// The castling squares a1, e1, h1, a8, e8 and h8, by their numbers.
pub(crate) const CORNERS: [u8; 6] = [0, 4, 7, 56, 60, 63];

fn letter_of(man: Man) -> u8 {
    let letter = match man.kind {
        Kind::King => b'K',
        Kind::Queen => b'Q',
        Kind::Rook => b'R',
        Kind::Bishop => b'B',
        Kind::Knight => b'S',
        Kind::Pawn => b'P',
        Kind::Grasshopper => b'G',
        Kind::Nightrider => b'N',
    };
    match man.colour {
        Colour::White => letter,
        Colour::Black => letter.to_ascii_lowercase(),
    }
}

fn men_of(diagram: &Diagram) -> [u8; 64] {
    let mut men = [0; 64];
    for number in 0..64u8 {
        if let Some(man) = diagram.man_at(Square::numbered(number)) {
            men[number as usize] = letter_of(man);
        }
    }
    men
}

fn castling_rights_of(diagram: &Diagram) -> [bool; 6] {
    let mut unmoved = [false; 6];
    for place in 0..6usize {
        unmoved[place] = diagram.unmoved.has(Square::numbered(CORNERS[place] & 63));
    }
    unmoved
}

fn form_of(form: Form) -> u8 {
    match form {
        Form::Direct => 0,
        Form::SelfMate => 1,
        Form::Help => 2,
        Form::HelpHalf => 3,
    }
}

fn sign_of(goal: Goal) -> u8 {
    match goal {
        Goal::Mate => b'#',
        Goal::Stalemate => b'=',
    }
}

fn condition_of(condition: Option<Condition>) -> u8 {
    match condition {
        None => 0,
        Some(Condition::Circe) => 1,
        Some(Condition::Madrasi) => 2,
    }
}

fn summary_of(problem: &Problem) -> Summary {
    let diagram = problem.diagram();
    let stipulation = problem.stipulation();
    Summary {
        men: men_of(&diagram),
        black_starts: diagram.turn == Colour::Black,
        unmoved: castling_rights_of(&diagram),
        crossed: match diagram.crossed {
            Some(square) => square.index(),
            None => 64,
        },
        form: form_of(stipulation.form),
        sign: sign_of(stipulation.goal),
        n: stipulation.n,
        condition: condition_of(problem.condition()),
        options: [problem.set_play(), problem.variation(), problem.no_board()],
        limit: problem.max_solutions(),
        title: digest(problem.title().bytes()),
        author: digest(problem.author().bytes()),
    }
}

/// Returns an item of the reader as a value that can be compared, or `None` for `End`.
pub(crate) fn compute(item: &Item) -> Option<Expected> {
    match item {
        Item::Sound(problem, _) => Some(Expected::Sound(summary_of(problem))),
        Item::Faulty(fault, _) => Some(Expected::Faulty(fault.number(), fault.line)),
        Item::End => None,
    }
}
