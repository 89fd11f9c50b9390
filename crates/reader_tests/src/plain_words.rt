//! A plain scanner: the words and text lines of a whole input.
ghost use Rattle.std.specs.Prelude.{◌≤◌, length};

use arrayvec::ArrayVec;

/// A word with the number of its line, and for a text word the rest of its line.
#[derive(Clone, Copy)]
pub(crate) struct Token<'a> {
    pub(crate) line: u64,
    pub(crate) text: &'a [u8],
    pub(crate) rest: Option<&'a [u8]>,
}

impl<'a> Default for Token<'a> {
    fn default() -> Token<'a> {
        Token {
            line: 0,
            text: b"",
            rest: None,
        }
    }
}

/// More words than any input of these tests has.
pub(crate) const MOST: usize = 512;

fn is_blank(byte: u8) -> bool {
    byte == 9 || byte == 11 || byte == 12 || byte == 13 || byte == 32
}

/// Returns whether the word has at least `least` letters and the name begins with it, in capitals or not.
pub(crate) fn is_short(name: &[u8], word: &[u8], least: usize) -> bool {
    if word.len() < least || word.len() > name.len() {
        return false;
    }
    for (have, want) in word.iter().zip(name) {
        if have.to_ascii_lowercase() != *want {
            return false;
        }
    }
    true
}

fn is_text_word(word: &[u8]) -> bool {
    is_short(b"title", word, 3)
        || is_short(b"author", word, 3)
        || is_short(b"origin", word, 3)
        || is_short(b"remark", word, 3)
}

/// Returns the text without the blanks at its start.
pub(crate) fn without_leading(text: &[u8]) -> &[u8] {
    let mut left = text;
    for _round in text {
        match left {
            [byte, rest @ ..] if is_blank(*byte) => left = rest,
            _ => return left,
        }
    }
    left
}

/// Returns the text without the blanks at its end.
pub(crate) fn without_trailing(text: &[u8]) -> &[u8] {
    let mut left = text;
    for _round in text {
        match left {
            [rest @ .., byte] if is_blank(*byte) => left = rest,
            _ => return left,
        }
    }
    left
}

// Counts the bytes before the first line end, or, with `blanks`, before the first line end or blank.
fn reach(text: &[u8], blanks: bool) -> usize
    ensures { result ≤ length text.now }
{
    let mut count = 0;
    for byte in text {
        if *byte == b'\n' || (blanks && is_blank(*byte)) {
            return count;
        }
        count += 1;
    }
    text.len()
}

/// Returns the words and text lines of an input, whose source ends cleanly or fails at its end.
pub(crate) fn tokens(input: &[u8], failed: bool) -> ArrayVec<Token<'_>, MOST> {
    let mut tokens = ArrayVec::new();
    let mut left = input;
    let mut line = 1u64;
    for _round in input {
        let [byte, following @ ..] = left else {
            break;
        };
        if *byte == b'\n' {
            line = line.wrapping_add(1);
            left = following;
            continue;
        }
        if is_blank(*byte) {
            left = following;
            continue;
        }
        let (text, after) = left.split_at(reach(left, true));
        if after.is_empty() && failed {
            break;
        }
        left = after;
        let mut rest = None;
        if is_text_word(text) {
            let (texts, after) = left.split_at(reach(left, false));
            if after.is_empty() && failed {
                break;
            }
            left = after;
            rest = Some(texts);
        }
        let _ = tokens.try_push(Token { line, text, rest });
    }
    tokens
}

/// Returns the number of the last line of an input.
pub(crate) fn last_line(input: &[u8]) -> u64 {
    let mut line = 1u64;
    for byte in input {
        if *byte == b'\n' {
            line = line.wrapping_add(1);
        }
    }
    line
}
