//! The letters of men.
ghost use Rattle.std.specs.Prelude.{◌≡◌, ◌<◌};
ghost use Rattle.fen.specs.Letters.{is_bracketed, letter_of, small_letter};

use chess_core::{Colour, Kind, Man};

/// Returns the small letter of a kind: `n` for the knight, for the others that of the Popeye manual.
pub(crate) fn small_letter(kind: Kind) -> u8
    ensures value { result ≡ small_letter kind }
    ensures small { result < 128 }
{
    match kind {
        Kind::Knight => b'n',
        kind => kind.letter().to_ascii_lowercase(),
    }
}

/// Returns whether men of this kind stand in brackets.
pub(crate) fn is_bracketed(kind: Kind) -> bool
    ensures { result ≡ is_bracketed kind }
{
    small_letter(kind) == b'n' && !kind.is(Kind::Knight)
}

/// Returns the letter of a man: a capital for White, a small letter for Black.
#[tactic(auto, using(crate::proofs::LettersOfMen::capital_of))]
pub(crate) fn letter_of(man: Man) -> u8
    ensures value { result ≡ letter_of man }
    ensures small { result < 128 }
{
    let small = small_letter(man.kind);
    match man.colour {
        Colour::White => small.to_ascii_uppercase(),
        Colour::Black => small,
    }
}
