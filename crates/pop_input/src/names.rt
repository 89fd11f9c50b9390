//! Keywords and their short forms: the first three letters or more, for a colour the first letter or more (own).
ghost use Rattle.std.specs.Prelude.{◌≡◌, ◌<◌, ◌≤◌, map, length, is_some, nat_eq};
ghost use Rattle.std.specs.List.{starts_with};
ghost use Rattle.std.specs.Char.{to_ascii_lowercase};
ghost use Rattle.pop_text.specs.Words.{is_short_form, is_text_word};
ghost use Rattle.pop_input.specs.Names.{expected_of, colour_of, command_of, condition_of, option_of, section_of, text_word_of};

use crate::condition::Condition;
use chess_core::Colour;

/// A section of a problem (Popeye manual). A command opens it.
#[derive(Clone, Copy)]
pub enum Section {
    /// Colours, and letters of men with their squares.
    Pieces,
    /// One stipulation.
    Stipulation,
    /// One condition.
    Condition,
    /// Options, and the values that they expect.
    Options,
}

/// A word that opens a section, or begins or ends a problem.
#[derive(Clone, Copy)]
pub enum Command {
    /// BeginProblem, the first word of an input.
    Begin,
    /// Pieces, Stipulation, Condition or Option.
    Enter(Section),
    /// NextProblem: the problem ends, and another one begins.
    Next,
    /// EndProblem: the problem and the input end.
    Last,
}

/// Which value an option expects.
#[derive(Clone, Copy)]
pub enum ExpectedValue {
    /// The limit of MaxSolutions.
    Number,
    /// The square of EnPassant.
    OneSquare,
    /// The squares of NoCastling.
    Squares,
    /// More squares of NoCastling, or any other word.
    MoreSquares,
}

/// A word of the section Option.
#[derive(Clone, Copy)]
pub enum OptionWord {
    /// Solve set play before the play.
    SetPlay,
    /// Show the defences and what follows them.
    Variation,
    /// Leave the board out of the report.
    NoBoard,
    /// MaxSolutions, EnPassant or NoCastling: a value follows.
    Expects(ExpectedValue),
}

/// A text word. The rest of its line is text.
#[derive(Clone, Copy)]
pub enum TextWord {
    /// The title. The last one of a problem counts.
    Title,
    /// The author. The last one of a problem counts.
    Author,
    /// The source. It is skipped.
    Origin,
    /// A remark. It is skipped.
    Remark,
}

// Returns whether the word is a short form of the name: its first three letters or more, in capitals or not.
fn is_short(name: &[u8], word: &[u8]) -> bool
    requires { 0 < length name.now }
    ensures { result ≡ is_short_form name.now word.now }
{
    word.len() >= 3 && name[0] == word[0].to_ascii_lowercase() && begins(name, word)
}

// Returns whether the name begins with the word, in capitals or not.
fn begins(name: &[u8], word: &[u8]) -> bool
    ensures { result ≡ starts_with nat_eq name.now (map to_ascii_lowercase word.now) }
{
    if word.len() > name.len() {
        return false;
    }
    for (at, &byte) in word.iter().enumerate() {
        if name[at] != byte.to_ascii_lowercase() {
            return false;
        }
    }
    true
}

// Returns the section that the word opens, in full or as a short form.
#[tactic(auto, unfolding(crate::specs::Names::section_of))]
fn section_of(word: &[u8]) -> Option<Section>
    ensures { result ≡ section_of word.now }
{
    if is_short(b"pieces", word) {
        Some(Section::Pieces)
    } else if is_short(b"stipulation", word) {
        Some(Section::Stipulation)
    } else if is_short(b"condition", word) {
        Some(Section::Condition)
    } else if is_short(b"option", word) {
        Some(Section::Options)
    } else {
        None
    }
}

/// Returns the command that the word is, in full or as a short form.
#[tactic(auto, unfolding(crate::specs::Names::command_of))]
pub(crate) fn command_of(word: &[u8]) -> Option<Command>
    ensures { result ≡ command_of word.now }
{
    if is_short(b"beginproblem", word) {
        Some(Command::Begin)
    } else if is_short(b"nextproblem", word) {
        Some(Command::Next)
    } else if is_short(b"endproblem", word) {
        Some(Command::Last)
    } else {
        match section_of(word) {
            Some(section) => Some(Command::Enter(section)),
            None => None,
        }
    }
}

/// Returns the text word that the word is, in full or as a short form.
#[tactic(auto, unfolding(crate::specs::Names::text_word_of))]
pub(crate) fn text_word_of(word: &[u8]) -> Option<TextWord>
    ensures value { result ≡ text_word_of word.now }
    ensures is { is_some result ≡ is_text_word word.now }
{
    if is_short(b"title", word) {
        Some(TextWord::Title)
    } else if is_short(b"author", word) {
        Some(TextWord::Author)
    } else if is_short(b"origin", word) {
        Some(TextWord::Origin)
    } else if is_short(b"remark", word) {
        Some(TextWord::Remark)
    } else {
        None
    }
}

/// Returns the condition that the word names, in full or as a short form.
#[tactic(auto, unfolding(crate::specs::Names::condition_of))]
pub(crate) fn condition_of(word: &[u8]) -> Option<Condition>
    ensures { result ≡ condition_of word.now }
{
    if is_short(b"circe", word) {
        Some(Condition::Circe)
    } else if is_short(b"madrasi", word) {
        Some(Condition::Madrasi)
    } else {
        None
    }
}

// Returns the value that the option expects after it, if the word is MaxSolutions, EnPassant or NoCastling, in full or
// as a short form.
#[tactic(auto, unfolding(crate::specs::Names::expected_of))]
fn expected_of(word: &[u8]) -> Option<ExpectedValue>
    ensures { result ≡ expected_of word.now }
{
    if is_short(b"maxsolutions", word) {
        Some(ExpectedValue::Number)
    } else if is_short(b"enpassant", word) {
        Some(ExpectedValue::OneSquare)
    } else if is_short(b"nocastling", word) {
        Some(ExpectedValue::Squares)
    } else {
        None
    }
}

/// Returns the option that the word names, in full or as a short form.
#[tactic(auto, unfolding(crate::specs::Names::option_of))]
pub(crate) fn option_of(word: &[u8]) -> Option<OptionWord>
    ensures { result ≡ option_of word.now }
{
    if is_short(b"setplay", word) {
        Some(OptionWord::SetPlay)
    } else if is_short(b"variation", word) {
        Some(OptionWord::Variation)
    } else if is_short(b"noboard", word) {
        Some(OptionWord::NoBoard)
    } else {
        match expected_of(word) {
            Some(expected) => Some(OptionWord::Expects(expected)),
            None => None,
        }
    }
}

/// Returns the colour that the word names, in full or as a short form.
#[tactic(auto, unfolding(crate::specs::Names::colour_of))]
pub(crate) fn colour_of(word: &[u8]) -> Option<Colour>
    ensures { result ≡ colour_of word.now }
{
    if word.is_empty() {
        None
    } else if begins(b"white", word) {
        Some(Colour::White)
    } else if begins(b"black", word) {
        Some(Colour::Black)
    } else {
        None
    }
}
