//! The tokens of an input: words and text lines.
ghost use Rattle.std.specs.Prelude.{◌≡◌, ◌≤◌, length};
ghost use Rattle.pop_text.specs.Words.{is_gap, limit, window_size};
ghost use Rattle.pop_text.specs.ties.Reading.{CallsSource, MayCall, UsesAll};
ghost use Rattle.pop_input.specs.ties.Tokens.{IsGapOver, IsSpanOf, NextToken, UsesToken, range_of};

use crate::names::{TextWord, text_word_of};
use crate::span::Span;
use pop_text::{Found, ReadFault, Scanner, Source, Text, Word};

/// The kind of the next token. The numbers are line numbers, counted from 1.
#[derive(Clone, Copy)]
pub enum ReadToken {
    /// A word.
    Word,
    /// A word of more than `LONGEST_WORD` bytes.
    TooLong(u64),
    /// A text word and the text after it.
    Line(TextWord),
    /// The end of the input, in this line.
    Ended(u64),
    /// The input is cut: it is too long, or its source failed.
    Cut(ReadFault),
}

/// Reads the next token, and stores it in `word` or `text`. Stores its range in `span` if it is a word, else the empty
/// range after it.
pub(crate) fn next_token<S: Source>(
    scanner: &mut Scanner,
    source: &mut S,
    word: &mut Word,
    text: &mut Text,
    span: &mut Span,
) -> ReadToken
    requires { MayCall scanner.old.end (S.failures source.old) }
    ensures token { NextToken scanner.old scanner.new (S.remaining source.old)
        (S.remaining source.new) word.new text.new result }
    ensures used { UsesToken scanner.old scanner.new (S.remaining source.old)
        (S.remaining source.new) word.new result }
    ensures span { IsSpanOf scanner.old scanner.new (S.remaining source.old)
        (S.remaining source.new) word.new span.new result }
    ensures within { scanner.new.used ≤ limit }
    ensures waits { length scanner.new.window ≤ window_size }
    ensures calls_source { CallsSource scanner.old.end scanner.new.end (S.remaining source.old)
        (S.remaining source.new) (S.failures source.old) (S.failures source.new) }
{
    let start = skip_to_token(scanner, source);
    let token = read_token(scanner, source, word, text);
    let end = scanner.used();
    let range = range_of(token, start, end);
    *span = range;
    token
}

// Uses the gap before the next token, and returns how many bytes are used then.
fn skip_to_token<S: Source>(scanner: &mut Scanner, source: &mut S) -> u32
    requires { MayCall scanner.old.end (S.failures source.old) }
    ensures used { result ≡ scanner.new.used }
    ensures gap { UsesAll is_gap scanner.old scanner.new (S.remaining source.old)
        (S.remaining source.new) }
    ensures over { IsGapOver scanner.new }
    ensures may { MayCall scanner.new.end (S.failures source.new) }
    ensures calls_source { CallsSource scanner.old.end scanner.new.end (S.remaining source.old)
        (S.remaining source.new) (S.failures source.old) (S.failures source.new) }
{
    let _next = scanner.skip_gap(source);
    scanner.used()
}

// Returns the range of a word from `start` to `end`, and the empty range at `end` of any other token.
fn range_of(token: ReadToken, start: u32, end: u32) -> Span
    ensures { result ≡ range_of token start end }
{
    match token {
        ReadToken::Word | ReadToken::TooLong(_) => Span { start, end },
        ReadToken::Line(_) | ReadToken::Ended(_) | ReadToken::Cut(_) => Span { start: end, end },
    }
}

// Reads the next token, and stores it in `word` or `text`.
fn read_token<S: Source>(
    scanner: &mut Scanner,
    source: &mut S,
    word: &mut Word,
    text: &mut Text,
) -> ReadToken
    requires { MayCall scanner.old.end (S.failures source.old) }
    ensures token { NextToken scanner.old scanner.new (S.remaining source.old)
        (S.remaining source.new) word.new text.new result }
    ensures used { UsesToken scanner.old scanner.new (S.remaining source.old)
        (S.remaining source.new) word.new result }
    ensures within { scanner.new.used ≤ limit }
    ensures waits { length scanner.new.window ≤ window_size }
    ensures calls_source { CallsSource scanner.old.end scanner.new.end (S.remaining source.old)
        (S.remaining source.new) (S.failures source.old) (S.failures source.new) }
{
    match scanner.read_word(source, word) {
        Ok(Found::Nothing) => ReadToken::Ended(scanner.line()),
        Err(ReadFault::TooLong(line)) => ReadToken::TooLong(line),
        Err(fault) => ReadToken::Cut(fault),
        Ok(Found::Word) => match text_word_of(word.bytes.as_slice()) {
            None => ReadToken::Word,
            Some(keyword) => match scanner.rest_of_line(source) {
                Ok(line) => {
                    *text = line;
                    ReadToken::Line(keyword)
                }
                Err(fault) => ReadToken::Cut(fault),
            },
        },
    }
}
