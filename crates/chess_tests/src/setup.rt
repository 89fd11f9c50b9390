//! Positions and moves from text.
ghost use Rattle.std.specs.Prelude.{IfSome};
ghost use Rattle.chess_core.specs.Diagrams.{position_of};
ghost use Rattle.chess_core.specs.WellFormed.{IsWellFormed};

use crate::plain::Moves;
use arrayvec::ArrayVec;
use chess_core::{Colour, Diagram, Kind, Man, Move, Square};

// Returns the man of a letter, lower case for Black: S is the knight, G the grasshopper, N the nightrider.
fn man_of(letter: u8) -> Option<Man> {
    let colour = if letter.is_ascii_uppercase() {
        Colour::White
    } else {
        Colour::Black
    };
    let kind = match letter.to_ascii_uppercase() {
        b'K' => Kind::King,
        b'Q' => Kind::Queen,
        b'R' => Kind::Rook,
        b'B' => Kind::Bishop,
        b'S' => Kind::Knight,
        b'P' => Kind::Pawn,
        b'G' => Kind::Grasshopper,
        b'N' => Kind::Nightrider,
        _ => return None,
    };
    Some(Man { colour, kind })
}

// Returns the diagram of these rows, rank 8 first, with White to move; a digit is a number of empty
// squares.
fn diagram_of(rows: &str) -> Diagram {
    let mut diagram = Diagram::new();
    let mut file = 1u8;
    let mut rank = 8u8;
    for letter in rows.as_bytes() {
        match *letter {
            b'/' => {
                file = 1;
                rank = rank.wrapping_sub(1);
            }
            b'1'..=b'8' => file = file.wrapping_add(letter.wrapping_sub(b'0')),
            other => {
                if let (Some(man), Some(square)) = (man_of(other), Square::new(file, rank)) {
                    let _ = diagram.put(square, man);
                }
                file = file.wrapping_add(1);
            }
        }
    }
    diagram
}

// Returns the diagram of a text, if it is well formed. The text has the rows and then words: the
// castling squares with rights, the en passant square, and `b` for Black to move.
pub(crate) fn posed(position: &str) -> Option<Diagram>
    ensures { IfSome result (λ d. IsWellFormed (position_of d)) }
{
    let mut words = position.split(' ');
    let mut diagram = diagram_of(words.next().unwrap_or_default());
    for word in words {
        match named(word) {
            None => diagram.turn = Colour::Black,
            Some(square) if square.is_castling_square() => {
                diagram.unmoved = diagram.unmoved.with(square);
            }
            Some(square) => diagram.crossed = Some(square),
        }
    }
    if diagram.is_well_formed() {
        Some(diagram)
    } else {
        None
    }
}

// Returns the square with these letters for file and rank.
fn at(file: u8, rank: u8) -> Option<Square> {
    Square::new(file.wrapping_sub(b'a' - 1), rank.wrapping_sub(b'0'))
}

// Returns the square with a name such as `e4`, or `None` if the text names no square.
pub(crate) fn named(name: &str) -> Option<Square> {
    match name.as_bytes() {
        [file, rank] => at(*file, *rank),
        _ => None,
    }
}

// Returns the move of a word: origin, arrival and the letter of the promotion.
pub(crate) fn move_of(word: &str) -> Option<Move> {
    match word.as_bytes() {
        [a, b, c, d] => between(at(*a, *b), at(*c, *d), None),
        [a, b, c, d, letter] => {
            let promo = man_of(*letter)?.kind;
            between(at(*a, *b), at(*c, *d), Some(promo))
        }
        _ => None,
    }
}

// Returns the move between these squares, if both are on the board.
fn between(from: Option<Square>, to: Option<Square>, promo: Option<Kind>) -> Option<Move> {
    Some(Move {
        from: from?,
        to: to?,
        promo,
    })
}

// Returns the moves of these words, separated by blanks.
pub(crate) fn moves_of(words: &str) -> Moves {
    let mut moves = ArrayVec::new();
    for word in words.split(' ') {
        if let Some(m) = move_of(word) {
            let _fits = moves.try_push(m);
        }
    }
    moves
}
