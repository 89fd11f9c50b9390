//! Words that are values: squares, numbers and stipulations.
ghost use Rattle.std.specs.Prelude.{◌≡◌, ◌≤◌, ℕ, IfSome, length, map, option_map, true};
ghost use Rattle.std.specs.Char.{to_ascii_lowercase};
ghost use Rattle.pop_text.specs.Words.{longest_word};
ghost use Rattle.pop_input.specs.Ends.{is_stated};
ghost use Rattle.pop_input.specs.Values.{goal_of, is_digit, limit_of, most_solutions, one_digit, only_square, square_by, squares_named, stipulation_in_small_letters, stipulation_of, stipulation_with, two_digits};

use arrayvec::ArrayVec;
use chess_core::Square;
use pop_stipulation::{Form, Goal, MOST_MOVES, Stipulation};
use pop_text::LONGEST_WORD;

/// The greatest number that MaxSolutions takes (own).
pub const MOST_SOLUTIONS: u32 = 4_000_000_000;

// The most squares that a word names: each has two bytes.
const MOST_SQUARES: usize = LONGEST_WORD / 2;

// The most bytes of a word that is a stipulation, as of `h#12.5`.
const LONGEST_STIPULATION: usize = 6;

// Returns the square that a letter, in capitals or not, and a digit name.
fn square_by(letter: u8, digit: u8) -> Option<Square>
    ensures { result ≡ square_by letter digit }
{
    Square::new(
        letter.to_ascii_lowercase().saturating_sub(b'a' - 1),
        digit.saturating_sub(b'0'),
    )
}

/// Returns the squares of a word that is one or more squares and nothing else.
#[tactic(auto, unfolding(crate::specs::Values::squares_named))]
pub(crate) fn squares_named(word: &[u8]) -> Option<ArrayVec<Square, MOST_SQUARES>>
    requires { length word.now ≤ longest_word }
    ensures { option_map (λ squares. squares.items) result ≡ squares_named word.now }
{
    if word.is_empty() {
        return None;
    }
    let mut squares = ArrayVec::new();
    let mut at = 0;
    while at < word.len() {
        if at + 1 == word.len() {
            return None;
        }
        match square_by(word[at], word[at + 1]) {
            Some(square) => squares.push(square),
            None => return None,
        }
        at += 2;
    }
    Some(squares)
}

/// Returns the square of a word that is one square and nothing else.
pub(crate) fn square_of(word: &[u8]) -> Option<Square>
    requires { length word.now ≤ longest_word }
    ensures { result ≡ only_square (squares_named word.now) }
{
    match squares_named(word) {
        Some(squares) if squares.len() == 1 => Some(squares.as_slice()[0]),
        _ => None,
    }
}

/// Returns whether the byte is a decimal digit.
pub(crate) fn is_digit(byte: u8) -> bool
    ensures { result ≡ is_digit byte }
{
    byte >= b'0' && byte <= b'9'
}

/// Returns the limit of solutions that a word of decimal digits states, 1 to 4,000,000,000.
#[tactic(auto, unfolding(crate::specs::Values::limit_of))]
pub(crate) fn limit_of(word: &[u8]) -> Option<u32>
    ensures value { result ≡ limit_of word.now }
    ensures range { IfSome result (λ limit. (1 ≤ limit) × (limit ≤ most_solutions)) }
{
    let mut value = 0u64;
    for &byte in word {
        if !is_digit(byte) {
            return None;
        }
        if value <= MOST_SOLUTIONS as u64 {
            value = 10 * value + (byte - b'0') as u64;
        }
    }
    if value >= 1 && value <= MOST_SOLUTIONS as u64 {
        Some(value as u32)
    } else {
        None
    }
}

// Returns mate for `#`, stalemate for `=`, and `None` for another sign.
fn goal_of(sign: u8) -> Option<Goal>
    ensures { result ≡ goal_of sign }
{
    match sign {
        b'#' => Some(Goal::Mate),
        b'=' => Some(Goal::Stalemate),
        _ => None,
    }
}

// Returns the value of a digit, or `None` for another byte.
fn one_digit(digit: u8) -> Option<u8>
    ensures value { result ≡ one_digit digit }
{
    if is_digit(digit) {
        Some(digit - b'0')
    } else {
        None
    }
}

// Returns the value of two digits, if the first isn't 0.
fn two_digits(tens: u8, ones: u8) -> Option<u8>
    ensures value { result ≡ two_digits tens ones }
{
    if is_digit(tens) && tens != b'0' && is_digit(ones) {
        Some(10 * (tens - b'0') + (ones - b'0'))
    } else {
        None
    }
}

// Makes a stipulation, if all its parts are there and its number of moves is in range.
fn stipulation_with(form: Form, goal: Option<Goal>, n: Option<u8>) -> Option<Stipulation>
    ensures value { result ≡ stipulation_with form goal n }
    ensures range { is_stated result ≡ true }
{
    let Some(goal) = goal else {
        return None;
    };
    let Some(n) = n else {
        return None;
    };
    let fits = match form {
        Form::Direct | Form::SelfMate | Form::Help => n >= 1 && n <= MOST_MOVES,
        Form::HelpHalf => n < MOST_MOVES,
    };
    if fits {
        Some(Stipulation { form, goal, n })
    } else {
        None
    }
}

/// Returns the stipulation that the word states: `#n`, `s#n`, `h#n` or `h#n.5`, with `#` or `=`, in capitals or not.
#[tactic(auto, unfolding(crate::specs::Values::stipulation_of))]
pub(crate) fn stipulation_of(word: &[u8]) -> Option<Stipulation>
    ensures value { result ≡ stipulation_of word.now }
    ensures range { is_stated result ≡ true }
{
    if word.len() > LONGEST_STIPULATION {
        return None;
    }
    stipulation_in_small_letters(small_letters(word).as_slice())
}

// Returns the stipulation that a word in small letters states.
fn stipulation_in_small_letters(letters: &[u8]) -> Option<Stipulation>
    ensures value { result ≡ stipulation_in_small_letters letters.now }
    ensures range { is_stated result ≡ true }
{
    match letters {
        [sign, n] => stipulation_with(Form::Direct, goal_of(*sign), one_digit(*n)),
        [b's', sign, n] => stipulation_with(Form::SelfMate, goal_of(*sign), one_digit(*n)),
        [b'h', sign, n] => stipulation_with(Form::Help, goal_of(*sign), one_digit(*n)),
        [sign, m, n] => stipulation_with(Form::Direct, goal_of(*sign), two_digits(*m, *n)),
        [b's', sign, m, n] => stipulation_with(Form::SelfMate, goal_of(*sign), two_digits(*m, *n)),
        [b'h', sign, m, n] => stipulation_with(Form::Help, goal_of(*sign), two_digits(*m, *n)),
        [b'h', sign, n, b'.', b'5'] => stipulation_with(
            Form::HelpHalf,
            goal_of(*sign),
            one_digit(*n),
        ),
        [b'h', sign, m, n, b'.', b'5'] => stipulation_with(
            Form::HelpHalf,
            goal_of(*sign),
            two_digits(*m, *n),
        ),
        _ => None,
    }
}

// Returns a word as short as a stipulation in small letters.
fn small_letters(word: &[u8]) -> ArrayVec<u8, LONGEST_STIPULATION>
    requires { length word.now ≤ LONGEST_STIPULATION }
    ensures { result.items ≡ map to_ascii_lowercase word.now }
{
    let mut small = ArrayVec::new();
    for byte in word {
        small.push(byte.to_ascii_lowercase());
    }
    small
}
