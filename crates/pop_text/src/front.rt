//! Prefixes of a view: gaps (blanks and line ends), runs (bytes between gaps), plain words and lines.
ghost use Rattle.std.specs.List.{list_all};
ghost use Rattle.std.specs.Prelude.{◌+◌, ◌<◌, ◌^◌, ◌∷◌, ◌≡◌, ◌≤◌, List, ℕ, count_by, false, length, slice_index, take, true};
ghost use Rattle.pop_text.specs.Words.{is_gap, is_in_line, is_in_word, is_line_end};
ghost use Rattle.pop_text.specs.ties.Plain.{ArePlain, is_named, is_named_front};
ghost use Rattle.pop_text.specs.ties.Reading.{AreFirst, Leads};

use memchr::memchr;

// The number of bytes of a gap that are tested one by one, before whole blocks are tested.
const NEAR: usize = 4;

// The size of a block, whose bytes are tested without a branch so that the compiler makes vector code.
const BLOCK: usize = 32;

/// The first bytes of a view, by their number.
#[derive(Clone, Copy)]
pub struct Prefix {
    /// The number of bytes.
    pub count: usize,
    /// The number of line ends among the bytes.
    pub line_ends: usize,
}

// Returns a prefix of blanks and line ends: at most `NEAR` single bytes, then whole blocks. May stop before the gap
// ends.
#[inline(always)]
pub(crate) fn gap_prefix(view: &[u8]) -> Prefix
    ensures first { AreFirst is_gap view.now result.count result.line_ends }
    ensures some { (b : ℕ) → (rest : List ℕ) → view.now ≡ b ∷ rest → is_gap b ≡ true
        → 0 < result.count }
{
    let near = near_gap(view);
    if near.count < NEAR {
        return near;
    }
    let far = gap_blocks(&view[near.count..]);
    both(near, far)
}

// Adds two prefixes, the second of which comes after the first.
fn both(near: Prefix, far: Prefix) -> Prefix
    requires bytes { near.count + far.count < 2 ^ 63 }
    requires line_ends { near.line_ends + far.line_ends < 2 ^ 63 }
    ensures count { result.count ≡ near.count + far.count }
    ensures line_ends { result.line_ends ≡ near.line_ends + far.line_ends }
{
    Prefix {
        count: near.count + far.count,
        line_ends: near.line_ends + far.line_ends,
    }
}

// Returns the blanks and line ends among the first `NEAR` bytes, up to another byte.
fn near_gap(view: &[u8]) -> Prefix
    ensures first { AreFirst is_gap view.now result.count result.line_ends }
    ensures some { (b : ℕ) → (rest : List ℕ) → view.now ≡ b ∷ rest → is_gap b ≡ true
        → 0 < result.count }
{
    let mut line_ends = 0;
    for (count, &byte) in view.iter().enumerate() {
        if count == NEAR || !in_gap(byte) {
            return Prefix { count, line_ends };
        }
        if byte == b'\n' {
            line_ends += 1;
        }
    }
    Prefix {
        count: view.len(),
        line_ends,
    }
}

// Returns the whole blocks of blanks and line ends at the front. Out of line: long gaps are rare.
#[inline(never)]
fn gap_blocks(view: &[u8]) -> Prefix
    ensures { AreFirst is_gap view.now result.count result.line_ends }
{
    let mut blocks = Prefix {
        count: 0,
        line_ends: 0,
    };
    while view.len() - blocks.count >= BLOCK {
        let block = &view[blocks.count..blocks.count + BLOCK];
        if !are_in_gap(block) {
            return blocks;
        }
        blocks.count += BLOCK;
        blocks.line_ends += line_ends_in(block) as usize;
    }
    blocks
}

// Returns whether all bytes are blanks or line ends. The loop has no exit, so that it becomes vector code.
fn are_in_gap(block: &[u8]) -> bool
    ensures { result ≡ list_all is_gap block.now }
{
    let mut all = true;
    for &byte in block {
        all &= in_gap_of_block(byte);
    }
    all
}

// Counts the line ends of a block.
fn line_ends_in(block: &[u8]) -> u8
    requires { length block.now < 256 }
    ensures value { result ≡ count_by is_line_end block.now }
    ensures few { result ≤ length block.now }
{
    let mut ends = 0;
    for &byte in block {
        if byte == b'\n' {
            ends += 1;
        }
    }
    ends
}

/// How far a run has come.
#[derive(Clone, Copy)]
pub enum RunSoFar {
    /// It fits a word.
    Short,
    /// It is too long for a word, and so likely goes on.
    Long,
}

impl RunSoFar {
    /// Returns how far a run has come, by whether it fits a word.
    pub(crate) fn of(fits: bool) -> RunSoFar {
        if fits {
            RunSoFar::Short
        } else {
            RunSoFar::Long
        }
    }
}

// Returns the length of the rest of a run at the front.
pub(crate) fn run_length(view: &[u8], so_far: RunSoFar) -> usize
    ensures { Leads is_in_word view.now result }
{
    match so_far {
        RunSoFar::Short => run_front(view),
        RunSoFar::Long => far_run(view),
    }
}

// Counts the bytes before the first blank or line end, one by one.
fn run_front(view: &[u8]) -> usize
    ensures front { Leads is_in_word view.now result }
    ensures over { result < length view.now → is_gap (slice_index view.now result) ≡ true }
{
    for (count, &byte) in view.iter().enumerate() {
        if in_gap(byte) {
            return count;
        }
    }
    view.len()
}

// Counts the bytes before the first blank or line end: whole blocks first, then byte by byte. Out of line: long runs
// are rare.
#[inline(never)]
fn far_run(view: &[u8]) -> usize
    ensures { Leads is_in_word view.now result }
{
    let whole = run_blocks(view);
    whole + run_front(&view[whole..])
}

// Counts the bytes of the whole blocks at the front that have no blank or line end.
fn run_blocks(view: &[u8]) -> usize
    ensures within { result ≤ length view.now }
    ensures all { list_all is_in_word (take result view.now) ≡ true }
{
    let mut count = 0;
    while view.len() - count >= BLOCK {
        if !are_in_run(&view[count..count + BLOCK]) {
            return count;
        }
        count += BLOCK;
    }
    count
}

// Returns whether no byte is a blank or line end. The loop has no exit, so that it becomes vector code.
fn are_in_run(block: &[u8]) -> bool
    ensures { result ≡ list_all is_in_word block.now }
{
    let mut all = true;
    for &byte in block {
        all &= !in_gap_of_block(byte);
    }
    all
}

// Returns the plain words at the front, with the gaps before them. A gap follows each of the words.
pub(crate) fn plain_prefix(view: &[u8]) -> Prefix
    ensures { ArePlain view.now result.count result.line_ends }
{
    let mut plain = Prefix {
        count: 0,
        line_ends: 0,
    };
    while plain.count < view.len() {
        let left = &view[plain.count..];
        let gap = gap_prefix(left);
        let following = &left[gap.count..];
        let run = run_front(following);
        if !says_nothing(following, run) {
            return plain;
        }
        let more = Prefix {
            count: gap.count + run,
            line_ends: gap.line_ends,
        };
        plain = both(plain, more);
    }
    plain
}

// Returns whether the first `count` bytes are a plain word, which says nothing in skipped text: it ends within the view
// and doesn't begin like a text word or a closing word.
fn says_nothing(view: &[u8], count: usize) -> bool
    requires { count ≤ length view.now }
    ensures some { result ≡ true → 0 < count }
    ensures whole { result ≡ true → count < length view.now }
    ensures plain { result ≡ true → is_named (take count view.now) ≡ false }
{
    count > 0 && count < view.len() && !is_named(&view[..count])
}

// Returns whether the word begins like a text word or a closing word, in capitals or not.
fn is_named(word: &[u8]) -> bool
    ensures { result ≡ is_named word.now }
{
    match word {
        [a, b, c, ..] => is_front(
            a.to_ascii_lowercase(),
            b.to_ascii_lowercase(),
            c.to_ascii_lowercase(),
        ),
        _ => false,
    }
}

// Returns whether a text word or a closing word begins with these small letters.
fn is_front(a: u8, b: u8, c: u8) -> bool
    ensures { result ≡ is_named_front a b c }
{
    (a == b't' && b == b'i' && c == b't')
        || (a == b'a' && b == b'u' && c == b't')
        || (a == b'o' && b == b'r' && c == b'i')
        || (a == b'r' && b == b'e' && c == b'm')
        || (a == b'n' && b == b'e' && c == b'x')
        || (a == b'e' && b == b'n' && c == b'd')
}

// Counts the bytes before the first line end.
pub(crate) fn line_front(view: &[u8]) -> usize
    ensures { Leads is_in_line view.now result }
{
    match memchr(b'\n', view) {
        Some(count) => count,
        None => view.len(),
    }
}

/// Returns whether the byte is a blank or line end.
pub(crate) fn in_gap(byte: u8) -> bool
    ensures { result ≡ is_gap byte }
{
    matches!(byte, 9..=13 | 32)
}

// Returns whether the byte is a blank or line end, without a branch: for bytes that are tested in blocks.
fn in_gap_of_block(byte: u8) -> bool
    ensures { result ≡ is_gap byte }
{
    (byte == b' ') | ((byte >= 9) & (byte <= 13))
}
