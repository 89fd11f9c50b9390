//! Sources for tests.
ghost use Rattle.std.specs.Io.{ReadsAtMost};
ghost use Rattle.std.specs.Prelude.{[], ◌+◌, ◌-◌, ◌<◌, ◌≡◌, ◌≢◌, ◌≤◌, Some, ℕ, length, option_map};
ghost use Rattle.pop_text.specs.Bytes.{ReadConsumes, count_after, greatest_count};
ghost use Rattle.pop_text.specs.ties.Trials.{Gives, bytes_handed_out, cycled_bytes, repeated_bytes, round_of};

use crate::source::{Device, Source};
use std::marker::Model;

/// A source of a text, once or over and over. It returns a limited number of bytes a call, and can fail once at a
/// chosen byte. No call returns bytes of two rounds.
#[derive(Drop)]
pub struct TrialSource<'a> {
    text: &'a [u8],
    rest: &'a [u8],
    left: usize,
    at_most: usize,
    until_failure: Option<usize>,
    failures: u64,
}

impl<'a> Model for TrialSource<'a> {
    ghost use Rattle.std.specs.Prelude.{◌<◌};
    ghost use Rattle.pop_text.specs.ties.Trials.{TrialInput};

    ghost Value = { TrialInput };

    ghost view = { λ s. record {
      text = s.text.now;
      rest = s.rest.now;
      left = s.left;
      at_most = s.at_most;
      until_failure = s.until_failure;
      failures = s.failures;
    } };

    ghost invariant = { λ s. 0 < s.at_most };
}

impl<'a> TrialSource<'a> {
    /// Returns a source of the text that returns at most `at_most` bytes a call, which is 1 or more. With `fails_at` it
    /// fails once, before that byte, counted from 0.
    pub fn new(text: &'a [u8], at_most: usize, fails_at: Option<usize>) -> TrialSource<'a>
        requires { 0 < at_most }
        ensures remaining { ⟦<TrialSource<'a> as Source>⟧.remaining result ≡ Some text.now }
        ensures failures { ⟦<TrialSource<'a> as Source>⟧.failures result ≡ 0 }
        ensures trial { result ≡ record {
          text = text.now;
          rest = text.now;
          left = length text.now;
          at_most = at_most;
          until_failure = fails_at;
          failures = 0;
        } }
    {
        TrialSource {
            text,
            rest: text,
            left: text.len(),
            at_most,
            until_failure: fails_at,
            failures: 0,
        }
    }

    /// Returns a source of the text over and over, `length` bytes in all, that returns at most `at_most` bytes a call,
    /// which is 1 or more. With `fails_at` it fails once, before that byte, counted from 0.
    pub fn repeated(
        text: &'a [u8],
        length: usize,
        at_most: usize,
        fails_at: Option<usize>,
    ) -> TrialSource<'a>
        requires { 0 < at_most }
        ensures remaining { ⟦<TrialSource<'a> as Source>⟧.remaining result
            ≡ Some (repeated_bytes text.now length) }
        ensures failures { ⟦<TrialSource<'a> as Source>⟧.failures result ≡ 0 }
        ensures trial { result ≡ record {
          text = text.now;
          rest = text.now;
          left = length;
          at_most = at_most;
          until_failure = fails_at;
          failures = 0;
        } }
    {
        TrialSource {
            text,
            rest: text,
            left: length,
            at_most,
            until_failure: fails_at,
            failures: 0,
        }
    }

    // Returns the rest of this round, or the next round if this one is over.
    fn round(&self) -> &'a [u8]
        ensures round { result.now ≡ round_of self.now }
        ensures same { (n : ℕ) → cycled_bytes self.now.text result.now n
            ≡ cycled_bytes self.now.text self.now.rest n }
        ensures some { length result.now ≡ 0 → self.now.text ≡ [] }
    {
        if self.rest.is_empty() {
            self.text
        } else {
            self.rest
        }
    }

    // Moves on by `count` bytes. `rest` is then the rest of the round.
    fn move_on(&mut self, rest: &'a [u8], count: usize)
        requires { count ≤ self.old.left }
        ensures { self.new ≡ record self.old {
          rest = rest.now;
          left = self.old.left - count;
          until_failure = option_map (λ bytes. bytes - count) self.old.until_failure;
        } }
    {
        self.rest = rest;
        self.left -= count;
        self.until_failure = less(self.until_failure, count);
    }

    // Returns how many bytes a call returns, if the round has `rest` bytes and the buffer has `room`.
    fn reach(&self, rest: usize, room: usize) -> usize
        requires round { rest ≡ length (round_of self.now) }
        requires sound { self.now.until_failure ≢ Some 0 }
        ensures amount { result ≡ bytes_handed_out self.now room }
        ensures rest { result ≤ rest }
        ensures room { result ≤ room }
        ensures left { result ≤ self.now.left }
        ensures some { 0 < rest → 0 < room → 0 < self.now.left → 0 < result }
    {
        let most = rest.min(room).min(self.left).min(self.at_most);
        match self.until_failure {
            Some(until) => most.min(until),
            None => most,
        }
    }
}

impl<'a> Source for TrialSource<'a> {
    ghost use Rattle.std.specs.Prelude.{Some};
    ghost use Rattle.pop_text.specs.ties.Trials.{cycled_bytes};

    ghost remaining = { λ s. Some (cycled_bytes s.text s.rest s.left) };

    ghost failures = { λ s. s.failures };

    fn read(&mut self, buffer: &mut [u8]) -> Result<usize, Device>
        requires { self.old.failures < greatest_count }
        ensures bound { ReadsAtMost result buffer.new }
        ensures bytes { ReadConsumes (⟦<TrialSource<'a> as Source>⟧.remaining self.old)
            (⟦<TrialSource<'a> as Source>⟧.remaining self.new) result buffer.new }
        ensures counted { self.new.failures ≡ count_after result self.old.failures }
        ensures exact { Gives self.old self.new (length buffer.old) result }
    {
        if let Some(0) = self.until_failure {
            self.until_failure = None;
            self.failures += 1;
            return Err(Device);
        }
        let rest = self.round();
        let count = self.reach(rest.len(), buffer.len());
        let (given, rest) = rest.split_at(count);
        buffer[..count].copy_from_slice(given);
        self.move_on(rest, count);
        Ok(count)
    }
}

// Returns how many bytes are left before the failure once `count` more bytes have been moved.
pub(crate) fn less(until: Option<usize>, count: usize) -> Option<usize>
    ensures { result ≡ option_map (λ bytes. bytes - count) until }
{
    match until {
        Some(until) => Some(until.saturating_sub(count)),
        None => None,
    }
}
