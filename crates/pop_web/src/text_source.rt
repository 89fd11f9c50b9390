//! Texts in memory as sources.
ghost use Rattle.std.specs.Prelude.{◌≡◌, ℕ, List, ◌<◌, ◌≤◌, ◌+◌, Some, IfOk};
ghost use Rattle.std.specs.Io.{ReadsAtMost};
ghost use Rattle.pop_text.specs.Bytes.{ReadConsumes, count_after, greatest_count};

use pop_text::{Device, Source};

/// A source of a text in memory. It never fails.
#[derive(Drop)]
pub(crate) struct TextSource<'a> {
    rest: &'a [u8],
}

impl<'a> TextSource<'a> {
    /// Returns a source of the whole text.
    pub(crate) fn new(text: &'a [u8]) -> TextSource<'a>
        ensures { ⟦<TextSource<'a> as Source>⟧.remaining result ≡ Some text.now }
    {
        TextSource { rest: text }
    }
}

impl<'a> Source for TextSource<'a> {
    ghost use Rattle.std.specs.Prelude.{Some};

    ghost remaining = { λ s. Some s.rest.now };

    ghost failures = { λ s. 0 };

    fn read(&mut self, buffer: &mut [u8]) -> Result<usize, Device> {
        let count = self.rest.len().min(buffer.len());
        let (given, rest) = self.rest.split_at(count);
        buffer[..count].copy_from_slice(given);
        self.rest = rest;
        Ok(count)
    }
}
