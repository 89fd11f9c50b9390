//! What the programs share: the words of their command line, their input, and what they write when they refuse.
//!
//! ```rust
//! use pop_program::refuse;
//!
//! let mut errors = Vec::new(rt.alloc());
//! let status = refuse(&mut errors, b"pops: out of memory\n", 4);
//! assert!(rt; status == 4);
//! ```
//!
//! `refuse` doesn't allocate; a call of a macro allocates where its caller does.
#![tactic(auto)]

ghost use Rattle.std.specs.Prelude.{◌≡◌};

use std::io::Write;

/// Writes the text to `errors`, and returns the exit status whether or not that succeeds.
pub fn refuse<E: Write + Drop>(mut errors: E, text: &[u8], status: u8) -> u8
    ensures { result ≡ status }
{
    let _reported = errors.write_all(text);
    status
}

/// `on_input!(rt, file, input, report => reported, refused)`: binds the name `report` to FILE, or to `input` if no FILE
/// is named, and returns `reported`, or `refused` if FILE can't be opened.
#[macro_export]
macro_rules! on_input {
    ($rt:expr, $file:expr, $input:expr, $source:ident => $reported:expr, $refused:expr) => {
        match $file {
            None => {
                let $source = $input;
                $reported
            }
            Some(path) => match std::fs::open($rt, path.as_str()) {
                Ok($source) => $reported,
                Err(_) => $refused,
            },
        }
    };
}

/// `on_words!(rt, program)`: calls `program` on the words of the command line and the standard streams, in a function
/// that returns `io::Result`. Fails if a word isn't UTF-8 or there is too little memory for the words.
#[macro_export]
macro_rules! on_words {
    ($rt:expr, $program:ident) => {{
        let mut words = Vec::new($rt.alloc());
        for word in std::env::args($rt)? {
            words.push(word)?;
        }
        let mut texts = Vec::new($rt.alloc());
        for word in &words {
            texts.push(word.as_str())?;
        }
        Ok($program($rt, texts.as_slice(), $rt.stdin(), $rt.stdout(), $rt.stderr()))
    }};
}
