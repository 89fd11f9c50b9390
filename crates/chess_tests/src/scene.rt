//! Builds diagrams man by man, so that they stay well formed.
use crate::draw::{Draw, Kinds};
use crate::plain::{LINES, next};
use chess_core::{Colour, Diagram, Kind, Man, Square};

// Returns a diagram without men, with a drawn side to move.
pub(crate) fn board(draw: &mut Draw) -> Diagram {
    let mut diagram = Diagram::new();
    diagram.turn = draw.colour();
    diagram
}

// Returns the rank as the colour counts it from its own side.
pub(crate) fn rank_for(colour: Colour, rank: u8) -> u8 {
    match colour {
        Colour::White => rank,
        Colour::Black => 9u8.wrapping_sub(rank),
    }
}

// Returns a man of this colour and kind.
pub(crate) fn man(colour: Colour, kind: Kind) -> Man {
    Man { colour, kind }
}

// Returns the square `count` steps away.
pub(crate) fn steps(from: Square, way: (u8, u8), count: u8) -> Option<Square> {
    let mut at = from;
    for _step in 0..count {
        at = next(at, way)?;
    }
    Some(at)
}

// Returns the opposite direction.
pub(crate) fn back(way: (u8, u8)) -> (u8, u8) {
    (way.0.wrapping_neg(), way.1.wrapping_neg())
}

// Puts the man on the square and returns `true`, if the square is on the board and empty, and the man may
// be there: no pawn on the first or last rank, and no second king.
pub(crate) fn put(diagram: &mut Diagram, square: Option<Square>, man: Man) -> bool {
    let Some(square) = square else {
        return false;
    };
    if man.kind == Kind::Pawn && (square.rank() == 1 || square.rank() == 8) {
        return false;
    }
    if man.kind == Kind::King && diagram.has(man.colour, Kind::King) {
        return false;
    }
    diagram.put(square, man).is_ok()
}

// Returns a square that isn't at the edge.
pub(crate) fn inner_square(draw: &mut Draw) -> Square {
    Square::new(2 + draw.below(6), 2 + draw.below(6)).unwrap_or_default()
}

// Puts a king on a drawn square if it is empty, and returns the square.
pub(crate) fn put_king(diagram: &mut Diagram, draw: &mut Draw, colour: Colour) -> Square {
    let at = draw.square();
    let _put = put(diagram, Some(at), man(colour, Kind::King));
    at
}

// Puts men of the other side next to its king, on about a third of the squares.
pub(crate) fn put_blockers(diagram: &mut Diagram, draw: &mut Draw, kinds: Kinds, king: Square) {
    let colour = diagram.turn.other();
    for way in &LINES {
        if draw.once_in(3) {
            let blocker = man(colour, draw.kind(kinds));
            let _blocker = put(diagram, next(king, *way), blocker);
        }
    }
}

// Puts drawn men on drawn squares; men whose square is taken are left out.
pub(crate) fn scatter(diagram: &mut Diagram, draw: &mut Draw, kinds: Kinds, count: u8) {
    for _man in 0..count {
        let at = draw.square();
        let drawn = draw.man(kinds);
        let _put = put(diagram, Some(at), drawn);
    }
}

// Returns a kind that rides in this direction.
pub(crate) fn rider(draw: &mut Draw, way: (u8, u8)) -> Kind {
    if way.0 == 2 || way.0 == 254 || way.1 == 2 || way.1 == 254 {
        Kind::Nightrider
    } else {
        draw.pick(2, Kind::Queen, line_rider(way))
    }
}

// Returns rook or bishop, whichever rides in this direction.
pub(crate) fn line_rider(way: (u8, u8)) -> Kind {
    if way.0 == 0 || way.1 == 0 {
        Kind::Rook
    } else {
        Kind::Bishop
    }
}

// Puts a battery on a line to a target: a man in front of a rider, with drawn numbers of empty squares
// between.
pub(crate) fn put_battery(
    diagram: &mut Diagram,
    draw: &mut Draw,
    target: Square,
    way: (u8, u8),
    front: Man,
    rear: Colour,
) -> bool {
    let gap = 1 + draw.below(3);
    let following = 1 + draw.below(3);
    let at = steps(target, way, gap);
    let rear_at = steps(target, way, gap + following);
    let rider = rider(draw, way);
    rear_at.is_some() && put(diagram, at, front) && put(diagram, rear_at, man(rear, rider))
}

// Puts a rider that reaches the target.
pub(crate) fn put_rider(
    diagram: &mut Diagram,
    draw: &mut Draw,
    target: Square,
    way: (u8, u8),
    colour: Colour,
) -> bool {
    let gap = 1 + draw.below(5);
    let rider = rider(draw, way);
    put(diagram, steps(target, way, gap), man(colour, rider))
}

// The castling squares and the men that castle from them.
const HOMES: [(u8, Colour, Kind); 6] = [
    (0, Colour::White, Kind::Rook),
    (4, Colour::White, Kind::King),
    (7, Colour::White, Kind::Rook),
    (56, Colour::Black, Kind::Rook),
    (60, Colour::Black, Kind::King),
    (63, Colour::Black, Kind::Rook),
];

// Gives castling rights to men at home, most times.
pub(crate) fn mark_homes(diagram: &mut Diagram, draw: &mut Draw) {
    for (number, colour, kind) in &HOMES {
        let at = Square::numbered(*number % 64);
        if diagram.man_at(at) == Some(man(*colour, *kind)) && !draw.once_in(8) {
            diagram.unmoved = diagram.unmoved.with(at);
        }
    }
}
