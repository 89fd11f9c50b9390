//! Readers of the standard library as sources.
ghost use Rattle.std.specs.Prelude.{◌+◌, ◌-◌, ◌<◌, ◌≡◌};
ghost use Rattle.pop_text.specs.Bytes.{PassesOnRead, count_after, greatest_count};

use crate::source::{Device, Source};
use std::io;
use std::io::Read;

/// A reader of the standard library as a source. Each call calls the reader once and never retries: an interrupted call
/// is a failure.
#[derive(Drop)]
pub struct ReadSource<R> {
    reader: R,
    failures: u64,
}

impl<R: Read + Drop> ReadSource<R> {
    /// Returns a source of this reader, with no failure counted.
    pub fn new(reader: R) -> ReadSource<R>
        ensures remaining { ⟦<ReadSource<R> as Source>⟧.remaining result ≡ R.remaining reader }
        ensures failures { ⟦<ReadSource<R> as Source>⟧.failures result ≡ 0 }
    {
        ReadSource {
            reader,
            failures: 0,
        }
    }

    // Turns the reader's result into the source's, and counts a failure.
    fn result_of(&mut self, answer: io::Result<usize>) -> Result<usize, Device>
        requires { self.old.failures < greatest_count }
        ensures answer { PassesOnRead answer result }
        ensures counted { self.new.failures ≡ count_after result self.old.failures }
        ensures reader { self.new.reader ≡ self.old.reader }
    {
        match answer {
            Ok(n) => Ok(n),
            Err(_) => {
                self.failures += 1;
                Err(Device)
            }
        }
    }
}

impl<R: Read + Drop> Source for ReadSource<R> {
    ghost remaining = { λ s. R.remaining s.reader };

    ghost failures = { λ s. s.failures };

    fn read(&mut self, buffer: &mut [u8]) -> Result<usize, Device> {
        let answer = self.reader.read(buffer);
        self.result_of(answer)
    }
}
