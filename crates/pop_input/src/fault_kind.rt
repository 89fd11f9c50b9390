//! The kinds of faults.
ghost use Rattle.std.specs.Prelude.{◌≡◌, ◌≤◌, Some, length};
ghost use Rattle.pop_input.specs.FaultKinds.{is_device_failure, message_of, number_of};

use std::fmt;

/// The most bytes of a message (own).
pub const LONGEST_MESSAGE: usize = 40;

/// Why an item isn't sound (own), in the order of their numbers 1 to 21.
#[derive(Clone, Copy, Debug)]
pub enum FaultKind {
    /// 1: the first word isn't BeginProblem, or the input ends before any word.
    BeginProblemMissing,
    /// 2: an unknown or misplaced word.
    WordMisplaced,
    /// 3: a word of more than `LONGEST_WORD` bytes, 160.
    WordTooLong,
    /// 4: men without a colour before them.
    ColourMissing,
    /// 5: a man on a square that is already occupied.
    SquareTaken,
    /// 6: a pawn on rank 1 or 8.
    PawnOnOuterRank,
    /// 7: a second king of the same colour.
    SecondKing,
    /// 8: in the section Stipulation, a word that isn't a stipulation or whose number of moves is out of range.
    BadStipulation,
    /// 9: a second stipulation.
    SecondStipulation,
    /// 10: the problem ends without a stipulation.
    StipulationMissing,
    /// 11: the problem ends without men.
    NoMen,
    /// 12: a second condition.
    SecondCondition,
    /// 13: the word after MaxSolutions isn't a number from 1 to 4,000,000,000.
    BadLimit,
    /// 14: no square or squares where a man's letter, EnPassant or NoCastling expects them.
    SquareMissing,
    /// 15: at the end of the problem, no pawn can have just passed over the square of EnPassant.
    EnPassantImpossible,
    /// 16: a square of NoCastling other than a1, e1, h1, a8, e8 and h8.
    NoneCastlesThere,
    /// 17: at the end of a problem with the goal mate, the side to be mated has no king.
    KingMissing,
    /// 18: at the end of the problem, the side that isn't to move is in check.
    WaitingSideInCheck,
    /// 19: the input ends inside a problem.
    EndProblemMissing,
    /// 20: the reader needs a byte after the first 2^30 of the input.
    InputTooLong,
    /// 21: the source of the input has failed.
    DeviceFailed,
}

impl FaultKind {
    /// Returns the number of this kind, 1 to 21.
    pub fn number(self) -> u8
        ensures value { result ≡ number_of self }
        ensures least { 1 ≤ result }
        ensures most { result ≤ 21 }
    {
        match self {
            FaultKind::BeginProblemMissing => 1,
            FaultKind::WordMisplaced => 2,
            FaultKind::WordTooLong => 3,
            FaultKind::ColourMissing => 4,
            FaultKind::SquareTaken => 5,
            FaultKind::PawnOnOuterRank => 6,
            FaultKind::SecondKing => 7,
            FaultKind::BadStipulation => 8,
            FaultKind::SecondStipulation => 9,
            FaultKind::StipulationMissing => 10,
            FaultKind::NoMen => 11,
            FaultKind::SecondCondition => 12,
            FaultKind::BadLimit => 13,
            FaultKind::SquareMissing => 14,
            FaultKind::EnPassantImpossible => 15,
            FaultKind::NoneCastlesThere => 16,
            FaultKind::KingMissing => 17,
            FaultKind::WaitingSideInCheck => 18,
            FaultKind::EndProblemMissing => 19,
            FaultKind::InputTooLong => 20,
            FaultKind::DeviceFailed => 21,
        }
    }

    /// Returns the text of this kind in a report.
    pub fn message(self) -> &'static str
        ensures text { result.now ≡ message_of self }
        ensures short { length result.now ≤ LONGEST_MESSAGE }
    {
        match self {
            FaultKind::BeginProblemMissing => "BeginProblem expected",
            FaultKind::WordMisplaced => "unknown or misplaced word",
            FaultKind::WordTooLong => "word too long",
            FaultKind::ColourMissing => "colour expected before men",
            FaultKind::SquareTaken => "square given twice",
            FaultKind::PawnOnOuterRank => "pawn on rank 1 or 8",
            FaultKind::SecondKing => "second king of a colour",
            FaultKind::BadStipulation => "bad stipulation",
            FaultKind::SecondStipulation => "second stipulation",
            FaultKind::StipulationMissing => "stipulation missing",
            FaultKind::NoMen => "no men",
            FaultKind::SecondCondition => "second condition",
            FaultKind::BadLimit => "number expected or out of range",
            FaultKind::SquareMissing => "square expected",
            FaultKind::EnPassantImpossible => "en passant not possible there",
            FaultKind::NoneCastlesThere => "NoCastling square is none of the six",
            FaultKind::KingMissing => "side to be mated has no king",
            FaultKind::WaitingSideInCheck => "side not to move is in check",
            FaultKind::EndProblemMissing => "input ended before EndProblem",
            FaultKind::InputTooLong => "input too long",
            FaultKind::DeviceFailed => "input device failed",
        }
    }

    /// Returns whether the source of the input has failed.
    pub fn is_device_failure(self) -> bool
        ensures { result ≡ is_device_failure self }
    {
        matches!(self, FaultKind::DeviceFailed)
    }
}

/// Writes its message.
impl fmt::Display for FaultKind {
    ghost output = { λ kind. Some (message_of kind) };

    fn fmt<W: fmt::Write>(&self, f: &mut fmt::Formatter<W>) -> fmt::Result {
        f.write_str(self.message())
    }
}
