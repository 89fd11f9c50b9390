//! A position as FEN and in words.
use chess_core::{Colour, Diagram, Kind, Man, Square};
use fen::{Fen, read};
use std::alloc::Global;

/// A man on its square.
pub(crate) type Placed = (Square, Colour, Kind);

// Returns how many squares of the diagram hold a man.
fn men_of(diagram: &Diagram) -> u64 {
    let mut count = 0u64;
    for square in &Square::all() {
        if diagram.man_at(*square).is_some() {
            count = count.saturating_add(1);
        }
    }
    count
}

// Returns whether the man is in the diagram.
fn has(diagram: &Diagram, square: Square, colour: Colour, kind: Kind) -> bool {
    match diagram.man_at(square) {
        Some(man) => man.is(colour, kind),
        None => false,
    }
}

/// Returns whether the text is read as a diagram with these men and no others, this side to move, no
/// castling rights and no en passant square.
pub(crate) fn is_read_as(text: &str, turn: Colour, men: &[Placed]) -> bool {
    let Ok(diagram) = read(text.as_bytes()) else {
        return false;
    };
    for (square, colour, kind) in men {
        if !has(&diagram, *square, *colour, *kind) {
            return false;
        }
    }
    men_of(&diagram) == men.len() as u64
        && diagram.turn == turn
        && diagram.crossed.is_none()
        && has_rights(&diagram, &[])
}

// Returns whether these squares, and no others, have castling rights.
fn has_rights(diagram: &Diagram, unmoved: &[Square]) -> bool {
    for square in &Square::castling() {
        if diagram.unmoved.has(*square) != is_among(*square, unmoved) {
            return false;
        }
    }
    true
}

// Returns whether the square is one of these.
fn is_among(square: Square, squares: &[Square]) -> bool {
    for other in squares {
        if *other == square {
            return true;
        }
    }
    false
}

/// Returns whether the text is read as a diagram with this number of men, this side to move, castling rights
/// on these squares, and this en passant square.
pub(crate) fn has_fields(
    text: &str,
    men: u64,
    turn: Colour,
    unmoved: &[Square],
    crossed: Option<Square>,
) -> bool {
    match read(text.as_bytes()) {
        Ok(diagram) => {
            men_of(&diagram) == men
                && diagram.turn == turn
                && has_rights(&diagram, unmoved)
                && diagram.crossed == crossed
        }
        Err(_) => false,
    }
}

/// Returns whether the text is read, and its diagram is written as the same text.
pub(crate) fn is_written_again(alloc: Global, text: &str) -> bool {
    match text.parse::<Fen>() {
        Ok(fen) => match fen.to_string(alloc) {
            Ok(written) => written.as_str() == text,
            Err(_) => false,
        },
        Err(_) => false,
    }
}
