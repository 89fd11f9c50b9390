//! A word of the input, with its command.
ghost use Rattle.std.specs.Prelude.{◌≡◌, ◌≤◌, length};
ghost use Rattle.pop_input.specs.Names.{command_of};
ghost use Rattle.pop_text.specs.Words.{longest_word};

use crate::names::{Command, command_of};
use pop_text::Word;
use std::marker::Model;

/// A word of at most `LONGEST_WORD` bytes, and the command that it is, if any. Contracts see the bytes.
#[derive(Drop)]
pub(crate) struct ShortWord<'a> {
    letters: &'a [u8],
    named: Option<Command>,
}

impl<'a> Model for ShortWord<'a> {
    ghost use Rattle.std.specs.Prelude.{◌≡◌, ◌≤◌, ℕ, List, length};
    ghost use Rattle.pop_text.specs.Words.{longest_word};
    ghost use Rattle.pop_input.specs.Names.{command_of};

    ghost Value = { List ℕ };

    ghost view = { λ w. w.letters.now };

    ghost invariant = { λ w. (length w.letters.now ≤ longest_word) × (w.named ≡ command_of w.letters.now) };
}

impl<'a> ShortWord<'a> {
    /// Borrows a word, and looks its command up once.
    pub(crate) fn of(word: &'a Word) -> ShortWord<'a>
        ensures { result ≡ word.now.bytes.items }
    {
        let letters = word.bytes.as_slice();
        ShortWord {
            letters,
            named: command_of(letters),
        }
    }

    /// Returns the bytes as written.
    pub(crate) fn bytes(&self) -> &'a [u8]
        ensures value { result.now ≡ self.now }
        ensures short { length result.now ≤ longest_word }
    {
        self.letters
    }

    /// Returns the command that the word is, if any.
    pub(crate) fn command(&self) -> Option<Command>
        ensures value { result ≡ command_of self.now }
        ensures short { length self.now ≤ longest_word }
    {
        self.named
    }
}
