//! The text after a text word.
ghost use Rattle.std.specs.Prelude.{[], ◌≡◌, ◌≤◌, List, ℕ, fold, length};
ghost use Rattle.pop_text.specs.Words.{is_blank, longest_text, without_trailing};
ghost use Rattle.pop_text.specs.ties.Texts.{with_byte};

use arrayvec::ArrayVec;
use std::marker::Model;

/// The greatest number of bytes of a text (own).
pub const LONGEST_TEXT: usize = 200;

/// A text of at most `LONGEST_TEXT` bytes, stored in place. Contracts see the bytes.
#[derive(Clone, Copy)]
pub struct Text {
    cells: [u8; LONGEST_TEXT],
    size: u8,
}

impl Model for Text {
    ghost use Rattle.std.specs.Prelude.{ℕ, List, length, take};
    ghost use Rattle.std.proofs.Common.{ap₂};
    ghost use Rattle.pop_text.specs.ties.Texts.{IsPadded, padded_cells};

    ghost Value = { List ℕ };

    ghost view = { λ t. take t.size t.cells };

    // The cells after the text are 0, so that equal texts are equal values.
    ghost invariant = { λ t. IsPadded t.cells t.size };

    ghost inverse = { λ bytes. record { cells = padded_cells bytes; size = length bytes } };

    ghost inverse_ok = { λ t kept. ap₂ (λ (cells : List ℕ) (size : ℕ).
        record { cells = cells; size = size }) kept.cells_are kept.size_is };
}

impl Text {
    /// Returns the text of no bytes, as the title of a problem that names none.
    pub fn empty() -> Text
        ensures { result ≡ [] }
    {
        Text {
            cells: [0; LONGEST_TEXT],
            size: 0,
        }
    }

    /// Returns the text as bytes, at most `LONGEST_TEXT`.
    pub fn bytes(&self) -> &[u8]
        ensures bytes { result.now ≡ self.now }
        ensures short { length result.now ≤ longest_text }
    {
        &self.cells[..self.size as usize]
    }

    /// Returns the text of the kept bytes of a line, without trailing blanks.
    pub(crate) fn of_line(mut kept: ArrayVec<u8, LONGEST_TEXT>) -> Text
        ensures { result ≡ without_trailing kept.items }
    {
        while let Some(&byte) = kept.as_slice().last() {
            if !is_blank_byte(byte) {
                break;
            }
            let _ = kept.pop();
        }
        Text::of(&kept)
    }

    // Returns the text of these bytes.
    fn of(bytes: &ArrayVec<u8, LONGEST_TEXT>) -> Text
        ensures { result ≡ bytes.now.items }
    {
        let mut cells = [0; LONGEST_TEXT];
        let size = bytes.len();
        cells[..size].copy_from_slice(bytes.as_slice());
        Text {
            cells,
            size: size as u8,
        }
    }
}

/// Appends the next bytes of a line, without leading blanks, until the text is full.
pub(crate) fn extend_kept(kept: &mut ArrayVec<u8, LONGEST_TEXT>, bytes: &[u8])
    ensures { kept.new.items ≡ fold (with_byte longest_text) kept.old.items bytes.now }
{
    for &byte in bytes {
        if kept.is_full() {
            return;
        }
        keep(kept, byte);
    }
}

// Appends a byte, unless the text is full or the byte is a leading blank.
fn keep(kept: &mut ArrayVec<u8, LONGEST_TEXT>, byte: u8)
    ensures { kept.new.items ≡ with_byte longest_text kept.old.items byte }
{
    if !kept.is_full() && !(kept.is_empty() && is_blank_byte(byte)) {
        kept.push(byte);
    }
}

// Returns whether the byte is a blank.
fn is_blank_byte(byte: u8) -> bool
    ensures { result ≡ is_blank byte }
{
    matches!(byte, 9 | 11..=13 | 32)
}
