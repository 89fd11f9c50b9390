//! Bytes of a text.
ghost use Rattle.std.specs.Prelude.{ℕ, ◌≡◌, List, [], ◌∷◌, MatchResult};
ghost use Rattle.fen.specs.ties.Reading.{letter_at};

use crate::not_fen::NotFen;

// Returns the first byte and the rest of a text, or an error at its end.
pub(crate) fn split(text: &[u8]) -> Result<(u8, &[u8]), NotFen>
    ensures { MatchResult result (λ found. text.now ≡ found.0 ∷ found.1.now) (λ _. text.now ≡ []) }
{
    match text {
        [first, rest @ ..] => Ok((*first, rest)),
        [] => Err(NotFen),
    }
}

// Returns the rest of a text after this byte, or an error where the text doesn't begin with it.
pub(crate) fn skip(text: &[u8], byte: u8) -> Result<&[u8], NotFen>
    ensures { MatchResult result (λ rest. text.now ≡ byte ∷ rest.now)
        (λ _. (rest : List ℕ) → text.now ≡ byte ∷ rest → ⊥) }
{
    let (first, rest) = split(text)?;
    if first == byte { Ok(rest) } else { Err(NotFen) }
}

// Returns whether the text begins with the letter, and the rest after it.
pub(crate) fn letter_at(text: &[u8], letter: u8) -> (bool, &[u8])
    ensures found { result.0 ≡ (letter_at letter text.now).0 }
    ensures rest { result.1.now ≡ (letter_at letter text.now).1 }
{
    match split(text) {
        Ok((first, rest)) => if first == letter {
            (true, rest)
        } else {
            (false, text)
        },
        Err(_) => (false, text),
    }
}
