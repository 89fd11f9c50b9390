//! Side to move, castling rights and en passant square of a text.
ghost use Rattle.std.specs.Prelude.{◌≡◌, if◌then◌else◌, MatchResult};
ghost use Rattle.chess_core.specs.Castling.{with_unmoved};
ghost use Rattle.fen.specs.Fen.{HasFenRights};
ghost use Rattle.fen.specs.ties.Reading.{Finds, FindsNone, IsColour, IsCrossedAs, rights_before, rights_of, turn_before};

use crate::bytes::{letter_at, skip, split};
use crate::not_fen::NotFen;
use chess_core::{Colour, Square, Unmoved};

// Reads the side to move and the blank after it.
pub(crate) fn read_turn(text: &[u8]) -> Result<(Colour, &[u8]), NotFen>
    ensures { MatchResult result (λ found. Finds IsColour turn_before text.now found.0 found.1.now)
        (λ _. FindsNone IsColour turn_before text.now) }
{
    let (first, rest) = split(text)?;
    let rest = skip(rest, b' ')?;
    match first {
        b'w' => Ok((Colour::White, rest)),
        b'b' => Ok((Colour::Black, rest)),
        _ => Err(NotFen),
    }
}

// Adds the rights of one castling, if it is allowed.
fn with_castling(rights: Unmoved, is_allowed: bool, king: Square, rook: Square) -> Unmoved
    ensures { result ≡ (if is_allowed then with_unmoved (with_unmoved rights king) rook
        else rights) }
{
    if is_allowed {
        rights.with(king).with(rook)
    } else {
        rights
    }
}

// Returns the castling rights with these rooks, and with the kings that castle with them.
fn rights_of(h1: bool, a1: bool, h8: bool, a8: bool) -> Unmoved
    ensures { result ≡ rights_of h1 a1 h8 a8 }
{
    let none = Unmoved::none();
    let short = with_castling(none, h1, Square::E1, Square::H1);
    let white = with_castling(short, a1, Square::E1, Square::A1);
    let three = with_castling(white, h8, Square::E8, Square::H8);
    with_castling(three, a8, Square::E8, Square::A8)
}

// Reads the castling rights and the blank after them.
pub(crate) fn read_rights(text: &[u8]) -> Result<(Unmoved, &[u8]), NotFen>
    ensures { MatchResult result
        (λ found. Finds HasFenRights rights_before text.now found.0 found.1.now)
        (λ _. FindsNone HasFenRights rights_before text.now) }
{
    let (h1, rest) = letter_at(text, b'K');
    let (a1, rest) = letter_at(rest, b'Q');
    let (h8, rest) = letter_at(rest, b'k');
    let (a8, rest) = letter_at(rest, b'q');
    let rights = rights_of(h1, a1, h8, a8);
    if h1 || a1 || h8 || a8 {
        let rest = skip(rest, b' ')?;
        return Ok((rights, rest));
    }
    let rest = skip(rest, b'-')?;
    let rest = skip(rest, b' ')?;
    Ok((rights, rest))
}

// Reads the en passant square, with which the text ends.
pub(crate) fn read_crossed(text: &[u8]) -> Result<Option<Square>, NotFen>
    ensures { IsCrossedAs text.now result }
{
    match text {
        [b'-'] => Ok(None),
        [file @ b'a'..=b'h', rank @ b'1'..=b'8'] => Ok(Some(Square::numbered(
            (*rank - b'1') * 8 + (*file - b'a'),
        ))),
        _ => Err(NotFen),
    }
}
