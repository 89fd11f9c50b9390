//! The men of a text.
ghost use Rattle.std.specs.Prelude.{ℕ, ◌≡◌, ◌<◌, MatchOption, MatchResult, None, find, length, ◌++◌};
ghost use Rattle.chess_core.specs.Position.{kinds, man_on};
ghost use Rattle.chess_core.specs.declared.man.Kind.{Kind};
ghost use Rattle.chess_core.specs.declared.man.Man.{Man};
ghost use Rattle.fen.specs.Letters.{is_bracketed, letter_of, man_text, small_letter};
ghost use Rattle.fen.specs.Fen.{is_digit};
ghost use Rattle.fen.specs.ties.Reading.{Finds, FindsNoMan, FindsNoSquare, FindsNone, FindsSquare, HasAll, IsLeft, SkipsMark, SkipsNoMark, begins_with_digit, is_written, mark, men_before, square_before};

use crate::bytes::{skip, split};
use crate::letters::{is_bracketed, small_letter};
use crate::not_fen::NotFen;
use chess_core::{Colour, Diagram, Kind, Man, Square};

// Returns whether men of this kind have this small letter, in brackets or not.
#[tactic(auto, unfolding(crate::specs::ties::Reading::is_written))]
fn is_written(small: u8, brackets: bool, kind: Kind) -> bool
    ensures { result ≡ is_written small brackets kind }
{
    small_letter(kind) == small
        && if brackets {
            is_bracketed(kind)
        } else {
            !is_bracketed(kind)
        }
}

// Returns the first kind whose men have this small letter, in brackets or not.
fn first_written(small: u8, brackets: bool) -> Option<Kind>
    ensures { result ≡ find (is_written small brackets) kinds }
{
    Kind::all()
        .iter()
        .copied()
        .find(|kind| is_written(small, brackets, *kind))
}

// Returns the kind of man with this small letter, in brackets or not.
#[tactic(auto, using(crate::proofs::LettersOfMen::kind_matches))]
fn kind_of(small: u8, brackets: bool) -> Option<Kind>
    ensures { MatchOption result
        ((kind : Kind) → is_bracketed kind ≡ brackets → small ≡ small_letter kind → ⊥)
        (λ kind. (small ≡ small_letter kind) × (is_bracketed kind ≡ brackets)) }
{
    first_written(small, brackets)
}

// Returns the man with this letter, in brackets or not.
fn man_of(letter: u8, brackets: bool) -> Option<Man>
    ensures { MatchOption result
        ((man : Man) → is_bracketed man.kind ≡ brackets → letter ≡ letter_of man → ⊥)
        (λ man. (letter ≡ letter_of man) × (is_bracketed man.kind ≡ brackets)) }
{
    let (colour, small) = if letter < b'a' {
        (Colour::White, letter.to_ascii_lowercase())
    } else {
        (Colour::Black, letter)
    };
    match kind_of(small, brackets) {
        Some(kind) => Some(Man { colour, kind }),
        None => None,
    }
}

// Reads a man's letter, in its brackets if the text begins with one, and returns the man with the text after it.
fn read_man(text: &[u8]) -> Result<(Man, &[u8]), NotFen>
    ensures { MatchResult result (λ found. text.now ≡ man_text found.0 ++ found.1.now)
        (λ _. FindsNoMan text.now) }
{
    let (first, rest) = split(text)?;
    if first != b'(' {
        return match man_of(first, false) {
            Some(man) => Ok((man, rest)),
            None => Err(NotFen),
        };
    }
    let (letter, rest) = split(rest)?;
    let rest = skip(rest, b')')?;
    match man_of(letter, true) {
        Some(man) => Ok((man, rest)),
        None => Err(NotFen),
    }
}

// Returns whether the byte is a digit 1 to 8.
fn is_digit(byte: u8) -> bool
    ensures { result ≡ is_digit byte }
{
    byte >= b'1' && byte <= b'8'
}

// Returns whether the text begins with a digit 1 to 8.
fn begins_with_digit(text: &[u8]) -> bool
    ensures { result ≡ begins_with_digit text.now }
{
    match split(text) {
        Ok((first, _)) => is_digit(first),
        Err(_) => false,
    }
}

// Reads one square. `empty` is how many empty squares the last digit still stands for. Returns the
// square, how many are still to come after it, and the text after it.
fn next_square(empty: u8, text: &[u8]) -> Result<(Option<Man>, u8, &[u8]), NotFen>
    requires { IsLeft empty text.now }
    ensures { MatchResult result (λ found. FindsSquare empty text.now found.0 found.1 found.2.now)
        (λ _. FindsNoSquare empty text.now) }
{
    if empty > 0 {
        return Ok((None, empty - 1, text));
    }
    let (first, rest) = split(text)?;
    if is_digit(first) && !begins_with_digit(rest) {
        return Ok((None, first - b'1', rest));
    }
    let (man, rest) = read_man(text)?;
    Ok((Some(man), 0, rest))
}

// Returns the byte that ends a rank before this many squares.
pub(crate) fn mark(after: u8) -> u8
    ensures value { result ≡ mark after }
    ensures small { result < 128 }
{
    if after == 0 { b' ' } else { b'/' }
}

// Reads the end of a rank, if the square was the last of one; `after` squares come after it.
fn skip_mark(after: u8, empty: u8, text: &[u8]) -> Result<(u8, &[u8]), NotFen>
    requires { IsLeft empty text.now }
    ensures { MatchResult result (λ found. SkipsMark after empty text.now found.0 found.1.now)
        (λ _. SkipsNoMark after empty text.now) }
{
    if after % 8 > 0 {
        return Ok((empty, text));
    }
    if empty > 0 {
        return Err(NotFen);
    }
    let rest = skip(text, mark(after))?;
    Ok((0, rest))
}

// Returns the square with this many squares after it in FEN's order.
pub(crate) fn square_before(after: u8) -> Square
    requires { after < 64 }
    ensures { result ≡ square_before after }
{
    Square::numbered(8 * (after / 8) + (7 - after % 8))
}

// Puts what was read on its square, which is empty.
fn set(diagram: &mut Diagram, after: u8, found: Option<Man>)
    requires size { length diagram.old.men ≡ 64 }
    requires small { after < 64 }
    requires empty { man_on diagram.old.men (square_before after) ≡ None }
    ensures size { length diagram.new.men ≡ 64 }
    ensures here { man_on diagram.new.men (square_before after) ≡ found }
    ensures others { (s : ℕ) → (s ≡ square_before after → ⊥)
        → man_on diagram.new.men s ≡ man_on diagram.old.men s }
{
    let square = square_before(after);
    if let Some(man) = found {
        let _empty = diagram.put(square, man);
    }
}

// Reads the men and the blank after them. Returns a diagram with these men, and the text after the blank.
pub(crate) fn read_men(text: &[u8]) -> Result<(Diagram, &[u8]), NotFen>
    ensures { MatchResult result (λ found. Finds HasAll men_before text.now found.0.men found.1.now)
        (λ _. FindsNone HasAll men_before text.now) }
{
    let mut diagram = Diagram::new();
    let mut empty = 0;
    let mut left = text;
    for number in 0..64u8 {
        let after = 63 - number;
        let (found, announced, rest) = next_square(empty, left)?;
        set(&mut diagram, after, found);
        let (announced, rest) = skip_mark(after, announced, rest)?;
        empty = announced;
        left = rest;
    }
    Ok((diagram, left))
}
