//! The values of options.
ghost use Rattle.std.specs.Prelude.{◌≡◌, ◌≤◌, IfSome};
ghost use Rattle.std.specs.List.{prefix_len};
ghost use Rattle.pop_settings.specs.pops_part.Numbers.{depth_in, is_digit, last_in, number_in, ordered_range, phase_in, range_from, range_in};

use crate::pops_part::wanted::PhaseName;

// The greatest number that an option takes (own).
const GREATEST_NUMBER: u64 = 999_999_999_999_999_999;

/// The numbers from `first` to `last`.
#[derive(Clone, Copy, Debug)]
pub struct Range {
    pub first: u64,
    pub last: u64,
}

/// Returns how many first moves a part of help play fixes: the digit 1, 2, 3 or 4.
#[tactic(auto, unfolding(crate::specs::pops_part::Numbers::depth_in))]
pub fn depth_of(text: &[u8]) -> Option<usize>
    ensures value { result ≡ depth_in text.now }
    ensures range { IfSome result (λ depth. 1 ≤ depth) }
{
    match text {
        [digit @ b'1'..=b'4'] => Some((*digit - b'0') as usize),
        _ => None,
    }
}

/// Returns the phase with this name, `set` or `play`.
#[tactic(auto, unfolding(crate::specs::pops_part::Numbers::phase_in))]
pub fn phase_of(text: &[u8]) -> Option<PhaseName>
    ensures { result ≡ phase_in text.now }
{
    if text == b"set".as_slice() {
        Some(PhaseName::Set)
    } else if text == b"play".as_slice() {
        Some(PhaseName::Play)
    } else {
        None
    }
}

// Returns whether the byte is a decimal digit.
fn is_digit(byte: u8) -> bool
    ensures { result ≡ is_digit byte }
{
    byte >= b'0' && byte <= b'9'
}

/// Returns the number that decimal digits state, if it is at most 999,999,999,999,999,999.
#[tactic(auto, unfolding(crate::specs::pops_part::Numbers::number_in))]
pub fn number_of(text: &[u8]) -> Option<u64>
    ensures { result ≡ number_in text.now }
{
    let mut value: u64 = 0;
    for &byte in text {
        if !is_digit(byte) {
            return None;
        }
        if value <= GREATEST_NUMBER {
            value = 10 * value + (byte - b'0') as u64;
        }
    }
    if text.is_empty() || value > GREATEST_NUMBER {
        None
    } else {
        Some(value)
    }
}

/// Returns the range of the text `A`, or `A..B` with B at least A.
#[tactic(auto, unfolding(crate::specs::pops_part::Numbers::range_in))]
pub fn range_of(text: &[u8]) -> Option<Range>
    ensures { result ≡ range_in text.now }
{
    let at = digit_count(text);
    let first = number_of(&text[..at])?;
    range_in_order(first, last_of(first, &text[at..]))
}

// Returns how many digits the text begins with.
fn digit_count(text: &[u8]) -> usize
    ensures { result ≡ prefix_len is_digit text.now }
{
    let mut at = 0;
    while at < text.len() && is_digit(text[at]) {
        at += 1;
    }
    at
}

// Returns the last number of a range from its first number and the text after that.
fn last_of(first: u64, following: &[u8]) -> Option<u64>
    ensures { result ≡ last_in first following.now }
{
    match following {
        [] => Some(first),
        [b'.', b'.', text @ ..] => number_of(text),
        _ => None,
    }
}

// Returns the range from `first` to `last`, if they are in order.
fn range_in_order(first: u64, last: Option<u64>) -> Option<Range>
    ensures { result ≡ ordered_range first last }
{
    match last {
        Some(last) if first <= last => Some(Range { first, last }),
        _ => None,
    }
}
