//! The scanner: cuts an input into words and text lines.
ghost use Rattle.std.specs.Prelude.{[], ◌++◌, ◌+◌, ◌-◌, ◌<◌, ◌^◌, ◌∷◌, ◌≡◌, ◌≢◌, ◌≤◌, ◌⊎◌, Err, IfErr, IfOk, IfSome, List, None, Ok, Option, Some, ℕ, count_by, drop, false, length, nat_lt, take, true};
ghost use Rattle.pop_text.specs.Words.{is_gap, is_in_line, is_in_word, is_line_end, limit, longest_word, window_size};
ghost use Rattle.pop_text.specs.declared.read_fault.ReadFault.{ReadFault};
ghost use Rattle.pop_text.specs.ties.Left.{NextWord, RestOfLine, found_by, found_of};
ghost use Rattle.pop_text.specs.ties.Plain.{Skips};
ghost use Rattle.pop_text.specs.ties.Reading.{CallsSource, IsFront, IsView, MayCall, Uses, UsesAll, first_reading};
ghost use Rattle.pop_text.specs.ties.Runs.{ComesNext, FailsAgain, RunsTo, Sticks, UsesLine, UsesWord};

use crate::front::{RunSoFar, gap_prefix, in_gap, line_front, plain_prefix, run_length};
use crate::read_fault::ReadFault;
use crate::source::Source;
use crate::text::{Text, extend_kept};
use crate::word::{LONGEST_WORD, Word};
use arrayvec::ArrayVec;
use std::marker::Model;

// The greatest number of bytes of an input that are used (own).
const LIMIT: u32 = 1 << 30;

/// The size of the window in bytes: the most bytes that a scanner has read but not used (own).
pub const WINDOW: usize = 4096;

/// How the input ends, if that is known.
#[derive(Clone, Copy, Debug)]
pub enum End {
    /// Nothing is known yet.
    Open,
    /// The source has ended. It isn't called again.
    Ended,
    /// The source has failed. It isn't called again.
    Broken,
}

/// What `read_word` found.
#[derive(Clone, Copy, Debug)]
pub enum Found {
    /// A word.
    Word,
    /// The end of the input.
    Nothing,
}

/// A scanner of one input. Pass the same source to every call.
#[derive(Drop)]
pub struct Scanner {
    cells: [u8; WINDOW],
    start: usize,
    stop: usize,
    used: u32,
    line: u64,
    end: End,
}

impl Model for Scanner {
    ghost use Rattle.std.specs.Prelude.{◌≤◌, ◌+◌, ◌^◌, slice_range};
    ghost use Rattle.pop_text.specs.Words.{window_size};
    ghost use Rattle.pop_text.specs.ties.Reading.{Reading};

    ghost Value = { Reading };

    ghost view = { λ s. record {
      window = slice_range s.cells s.start s.stop;
      used = s.used;
      line = s.line;
      end = s.end;
    } };

    ghost invariant = { λ s. (s.start ≤ s.stop) × (s.stop ≤ window_size) × (s.used ≤ 2 ^ 30)
        × (s.line ≤ s.used + 1) };
}

impl Scanner {
    /// Returns a scanner before the first byte.
    pub fn new() -> Scanner
        ensures { result ≡ first_reading }
    {
        Scanner {
            cells: [0; WINDOW],
            start: 0,
            stop: 0,
            used: 0,
            line: 1,
            end: End::Open,
        }
    }

    /// Returns the line of the next byte, counted from 1.
    pub fn line(&self) -> u64
        ensures { result ≡ self.now.line }
    {
        self.line
    }

    /// Returns how many bytes of the input are used.
    pub fn used(&self) -> u32
        ensures { result ≡ self.now.used }
    {
        self.used
    }

    // Fills the window if it is empty and the source may have more.
    #[tactic(auto, unfolding(crate::specs::Words::limit))]
    fn refill<S: Source>(&mut self, source: &mut S)
        requires { MayCall self.old.end (S.failures source.old) }
        ensures uses { Uses self.old self.new (S.remaining source.old) (S.remaining source.new) [] }
        ensures known { self.new.window ≡ [] → self.new.end ≢ End.Open }
        ensures waits { length self.new.window ≤ window_size }
        ensures calls_source { CallsSource self.old.end self.new.end (S.remaining source.old)
            (S.remaining source.new) (S.failures source.old) (S.failures source.new) }
        ensures kept { self.old.end ≢ End.Open ⊎ 0 < length self.old.window → self.new ≡ self.old }
    {
        if self.start < self.stop {
            return;
        }
        if let End::Open = self.end {
            match source.read(&mut self.cells) {
                Ok(0) => self.end = End::Ended,
                Ok(count) => {
                    self.start = 0;
                    self.stop = count;
                }
                Err(_) => self.end = End::Broken,
            }
        }
    }

    // Returns the next byte without using it, or `None` at the end of the input.
    #[tactic(auto, unfolding(crate::specs::Words::limit))]
    fn peek<S: Source>(&mut self, source: &mut S) -> Result<Option<u8>, ReadFault>
        requires { MayCall self.old.end (S.failures source.old) }
        ensures uses { Uses self.old self.new (S.remaining source.old) (S.remaining source.new) [] }
        ensures at { ComesNext self.new result }
        ensures waits { length self.new.window ≤ window_size }
        ensures calls_source { CallsSource self.old.end self.new.end (S.remaining source.old)
            (S.remaining source.new) (S.failures source.old) (S.failures source.new) }
        ensures stuck { FailsAgain self.old self.new result }
    {
        self.refill(source);
        if self.start < self.stop {
            if self.room() > 0 {
                return Ok(Some(self.cells[self.start]));
            }
            return Err(ReadFault::InputTooLong(self.line));
        }
        if let End::Broken = self.end {
            return Err(ReadFault::Device(self.line));
        }
        Ok(None)
    }

    // Uses the next `count` bytes, which have `line_ends` line ends.
    #[tactic(auto, unfolding(crate::specs::Words::limit))]
    fn advance(&mut self, count: usize, line_ends: usize)
        requires waits { count ≤ length self.old.window }
        requires room { self.old.used + count ≤ limit }
        requires lines { line_ends ≡ count_by is_line_end (take count self.old.window) }
        ensures uses { (had : Option (List ℕ))
            → Uses self.old self.new had had (take count self.old.window) }
        ensures end { self.new.end ≡ self.old.end }
        ensures used { self.new.used ≡ self.old.used + count }
        ensures window { self.new.window ≡ drop count self.old.window }
    {
        self.start += count;
        self.used += count as u32;
        self.line = line_after(self.line, line_ends);
    }

    // Returns how many bytes may still be used.
    #[tactic(auto, unfolding(crate::specs::Words::limit))]
    fn room(&self) -> usize
        ensures room { result ≡ limit - self.now.used }
        ensures within { self.now.used ≤ limit }
    {
        (LIMIT - self.used) as usize
    }

    // Returns the bytes of the window that are within the limit of the input.
    #[tactic(auto, unfolding(crate::specs::Words::limit))]
    fn view(&self) -> &[u8]
        ensures { IsView self.now result.now }
    {
        let window = &self.cells[self.start..self.stop];
        let reach = window.len().min(self.room());
        &window[..reach]
    }

    // Returns the bytes of the view up to the first line end.
    fn line_part(&self) -> &[u8]
        ensures { IsFront is_in_line self.now result.now }
    {
        let view = self.view();
        &view[..line_front(view)]
    }

    // Returns the bytes of the view that belong to the run at its front, of which `so_far` came before.
    fn run_part(&self, so_far: RunSoFar) -> &[u8]
        ensures { IsFront is_in_word self.now result.now }
    {
        let view = self.view();
        &view[..run_length(view, so_far)]
    }

    // Uses blanks and line ends at the front of the view.
    fn skip_part(&mut self)
        ensures uses { (had : Option (List ℕ)) → UsesAll is_gap self.old self.new had had }
        ensures end { self.new.end ≡ self.old.end }
        ensures waits { length self.new.window ≤ length self.old.window }
        ensures within { self.new.used ≤ limit }
        ensures some { (b : ℕ) → (rest : List ℕ) → self.old.window ≡ b ∷ rest → is_gap b ≡ true
            → self.old.used < limit → self.old.used < self.new.used }
    {
        let gap = gap_prefix(self.view());
        self.advance(gap.count, gap.line_ends);
    }

    /// Uses blanks and line ends, and returns the next byte without using it, or `None` at the end of the input.
    ///
    /// # Errors
    ///
    /// `InputTooLong` or `Device` if the limit of the input or a failure of the source comes before that byte; every
    /// later call then returns that fault.
    pub fn skip_gap<S: Source>(&mut self, source: &mut S) -> Result<Option<u8>, ReadFault>
        requires { MayCall self.old.end (S.failures source.old) }
        ensures uses { UsesAll is_gap self.old self.new (S.remaining source.old)
            (S.remaining source.new) }
        ensures at { ComesNext self.new result }
        ensures other { IfOk result (λ o. IfSome o (λ b. is_gap b ≡ false)) }
        ensures waits { length self.new.window ≤ window_size }
        ensures calls_source { CallsSource self.old.end self.new.end (S.remaining source.old)
            (S.remaining source.new) (S.failures source.old) (S.failures source.new) }
        ensures stuck { FailsAgain self.old self.new result }
    {
        loop {
            match self.peek(source) {
                Ok(Some(byte)) if in_gap(byte) => self.skip_part(),
                other => return other,
            }
        }
    }

    // Uses the run at the front, and returns whether it fits the word.
    fn read_run<S: Source>(
        &mut self,
        source: &mut S,
        word: &mut ArrayVec<u8, LONGEST_WORD>,
    ) -> Result<bool, ReadFault>
        requires failures { MayCall self.old.end (S.failures source.old) }
        requires empty { word.old.items ≡ [] }
        ensures run { RunsTo self.old self.new (S.remaining source.old) (S.remaining source.new)
            word.new.items result }
        ensures waits { length self.new.window ≤ window_size }
        ensures calls_source { CallsSource self.old.end self.new.end (S.remaining source.old)
            (S.remaining source.new) (S.failures source.old) (S.failures source.new) }
    {
        let mut fits = true;
        loop {
            match self.peek(source)? {
                Some(byte) if !in_gap(byte) => {
                    let part = self.run_part(RunSoFar::of(fits));
                    let more = part.len();
                    fits = extend_word(word, part);
                    self.advance(more, 0);
                }
                _ => return Ok(fits),
            }
        }
    }

    /// Uses plain words at the front of the window, whole words that don't begin like a text word or a closing word:
    /// all of them, but that is for speed only, and no clause says that any is used. Never calls the source.
    pub fn skip_plain(&mut self)
        ensures { Skips self.old self.new }
    {
        let plain = plain_prefix(self.view());
        self.advance(plain.count, plain.line_ends);
    }

    /// Returns the next word, of 1 to 160 bytes, or `None` at the end of the input. Doesn't use the byte after the
    /// word.
    ///
    /// # Errors
    ///
    /// `TooLong` if the word has more than `LONGEST_WORD` bytes. `InputTooLong` or `Device` if the limit of the input
    /// or a failure of the source comes before the end of the word; every later call then returns that fault.
    pub fn next_word<S: Source>(&mut self, source: &mut S) -> Result<Option<Word>, ReadFault>
        requires { MayCall self.old.end (S.failures source.old) }
        ensures word { NextWord self.old self.new (S.remaining source.old) (S.remaining source.new)
            result }
        ensures used { UsesWord self.old self.new (S.remaining source.old) (S.remaining source.new)
            result }
        ensures sticks { IfErr result (Sticks self.new) }
        ensures waits { length self.new.window ≤ window_size }
        ensures calls_source { CallsSource self.old.end self.new.end (S.remaining source.old)
            (S.remaining source.new) (S.failures source.old) (S.failures source.new) }
        ensures stuck { FailsAgain self.old self.new result }
    {
        let mut word = Word::new();
        match self.read_word(source, &mut word) {
            Ok(Found::Word) => Ok(Some(word)),
            Ok(Found::Nothing) => Ok(None),
            Err(fault) => Err(fault),
        }
    }

    /// Reads the word that `next_word` would return into `word`, and replaces its old content.
    ///
    /// # Errors
    ///
    /// Fails exactly when `next_word` would, with the same fault.
    pub fn read_word<S: Source>(
        &mut self,
        source: &mut S,
        word: &mut Word,
    ) -> Result<Found, ReadFault>
        requires { MayCall self.old.end (S.failures source.old) }
        ensures word { NextWord self.old self.new (S.remaining source.old) (S.remaining source.new)
            (found_by word.new result) }
        ensures used { UsesWord self.old self.new (S.remaining source.old) (S.remaining source.new)
            (found_by word.new result) }
        ensures sticks { IfErr result (Sticks self.new) }
        ensures waits { length self.new.window ≤ window_size }
        ensures calls_source { CallsSource self.old.end self.new.end (S.remaining source.old)
            (S.remaining source.new) (S.failures source.old) (S.failures source.new) }
        ensures stuck { FailsAgain self.old self.new result }
    {
        match self.skip_gap(source) {
            Ok(None) => Ok(Found::Nothing),
            Err(fault) => Err(fault),
            Ok(Some(_)) => {
                let line = self.line;
                word.line = line;
                word.bytes = ArrayVec::new();
                let run = self.read_run(source, &mut word.bytes);
                found_of_run(run, line)
            }
        }
    }

    /// Returns the rest of the line: its first `LONGEST_TEXT` bytes after leading blanks, without trailing blanks.
    /// Uses the line end too.
    ///
    /// # Errors
    ///
    /// `InputTooLong` or `Device` if the limit of the input or a failure of the source comes before the end of the
    /// line. Never `TooLong`.
    pub fn rest_of_line<S: Source>(&mut self, source: &mut S) -> Result<Text, ReadFault>
        requires { MayCall self.old.end (S.failures source.old) }
        ensures text { (keyword : List ℕ)
            → RestOfLine keyword self.old self.new (S.remaining source.old) (S.remaining source.new)
            result }
        ensures used { UsesLine self.old self.new (S.remaining source.old) (S.remaining source.new)
            result }
        ensures sticks { IfErr result (Sticks self.new) }
        ensures waits { length self.new.window ≤ window_size }
        ensures calls_source { CallsSource self.old.end self.new.end (S.remaining source.old)
            (S.remaining source.new) (S.failures source.old) (S.failures source.new) }
        ensures stuck { FailsAgain self.old self.new result }
    {
        let mut kept = ArrayVec::new();
        loop {
            match self.peek(source) {
                Ok(Some(byte)) if ends_line(byte) => {
                    self.advance(1, 1);
                    return Ok(Text::of_line(kept));
                }
                Ok(Some(_)) => {
                    let part = self.line_part();
                    let count = part.len();
                    extend_kept(&mut kept, part);
                    self.advance(count, 0);
                }
                Ok(None) => return Ok(Text::of_line(kept)),
                Err(fault) => return Err(fault),
            }
        }
    }
}

// Turns the outcome of a run that begins in this line into the result of `read_word`.
fn found_of_run(run: Result<bool, ReadFault>, line: u64) -> Result<Found, ReadFault>
    ensures { result ≡ found_of run line }
{
    match run {
        Ok(true) => Ok(Found::Word),
        Ok(false) => Err(ReadFault::TooLong(line)),
        Err(fault) => Err(fault),
    }
}

// Returns the number of the line after `line_ends` line ends.
fn line_after(line: u64, line_ends: usize) -> u64
    requires { line + line_ends < 2 ^ 64 }
    ensures { result ≡ line + line_ends }
{
    line + line_ends as u64
}

// Appends the bytes that fit, and returns whether all fit.
fn extend_word(word: &mut ArrayVec<u8, LONGEST_WORD>, part: &[u8]) -> bool
    ensures kept { word.new.items ≡ take longest_word (word.old.items ++ part.now) }
    ensures fits { result ≡ nat_lt (length (word.old.items ++ part.now)) (longest_word + 1) }
{
    let room = word.remaining_capacity();
    if part.len() <= room {
        extend(word, part);
        true
    } else {
        extend(word, &part[..room]);
        false
    }
}

// Appends bytes for which there is room.
fn extend(word: &mut ArrayVec<u8, LONGEST_WORD>, part: &[u8])
    requires { length word.old.items + length part.now ≤ longest_word }
    ensures { word.new.items ≡ word.old.items ++ part.now }
{
    match word.try_extend_from_slice(part) {
        Ok(()) => {}
        Err(_) => unreachable!("there is room"),
    }
}

// Returns whether the byte ends a line.
fn ends_line(byte: u8) -> bool
    ensures { result ≡ is_line_end byte }
{
    byte == b'\n'
}
