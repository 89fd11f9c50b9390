//! En passant captures and promotions.
use crate::draw::{Draw, Kinds};
use crate::plain::next;
use crate::scene::{
    back, board, line_rider, man, put, put_battery, put_king, put_rider, rank_for, scatter, steps,
};
use chess_core::{Colour, Diagram, Kind, Square};

// Returns a position with a pawn of the side to move next to a pawn that has just gone two squares, and
// a king of either side with a rider on a line that the capture may open.
pub(crate) fn en_passant(draw: &mut Draw) -> Diagram {
    let mut diagram = board(draw);
    let (passing, capturer) = put_pawns(&mut diagram, draw);
    let kinds = draw.kinds();
    put_line(&mut diagram, draw, passing, capturer);
    let mover = diagram.turn;
    let _own = put_king(&mut diagram, draw, mover);
    let _other = put_king(&mut diagram, draw, mover.other());
    put_helpers(&mut diagram, draw);
    let count = draw.below(5);
    scatter(&mut diagram, draw, kinds, count);
    if !diagram.is_well_formed() {
        diagram.crossed = None;
    }
    diagram
}

// Puts the pawn that has just gone two squares, and a pawn of the side to move next to it. Returns their
// squares.
fn put_pawns(diagram: &mut Diagram, draw: &mut Draw) -> (Square, Square) {
    let mover = diagram.turn;
    let file = 1 + draw.below(8);
    diagram.crossed = Square::new(file, rank_for(mover, 6));
    let passing = Square::new(file, rank_for(mover, 5)).unwrap_or_default();
    let side = (draw.pick(2, 1u8, 255), 0);
    let beside = next(passing, side).or(next(passing, back(side)));
    let capturer = beside.unwrap_or_default();
    let _passing = put(diagram, Some(passing), man(mover.other(), Kind::Pawn));
    let _capturer = put(diagram, Some(capturer), man(mover, Kind::Pawn));
    (passing, capturer)
}

// Puts two queens and a rook of the mover, once in two draws.
fn put_helpers(diagram: &mut Diagram, draw: &mut Draw) {
    if draw.once_in(2) {
        let mover = diagram.turn;
        for kind in &[Kind::Queen, Kind::Queen, Kind::Rook] {
            let _helper = put(diagram, Some(draw.square()), man(mover, *kind));
        }
    }
}

// Puts a king and a rider at the two ends of a line through the pawns: their rank, or another line through
// one of them.
fn put_line(diagram: &mut Diagram, draw: &mut Draw, passing: Square, capturer: Square) {
    let mover = diagram.turn;
    let king = draw.pick(3, mover.other(), mover);
    let along_rank = draw.once_in(2);
    let line = if along_rank { (1, 0) } else { draw.line() };
    let way = draw.pick(2, line, back(line));
    let middle = draw.pick(2, passing, capturer);
    let front = if along_rank { passing } else { middle };
    put_ends(diagram, draw, front, way, king);
}

// Puts a king of this colour in one direction, and in the opposite direction a rider that would reach it.
fn put_ends(diagram: &mut Diagram, draw: &mut Draw, front: Square, way: (u8, u8), king: Colour) {
    let to_king = 1 + draw.below(3);
    let to_rider = 1 + draw.below(4);
    let _king = put(diagram, steps(front, way, to_king), man(king, Kind::King));
    let rider = draw.pick(3, Kind::Queen, line_rider(way));
    let following = steps(front, back(way), to_rider);
    let _rider = put(diagram, following, man(king.other(), rider));
}

// Returns a position with pawns one step before promotion, men to capture on the last rank, and kings
// nearby.
pub(crate) fn promotions(draw: &mut Draw) -> Diagram {
    let mut diagram = board(draw);
    let kinds = draw.kinds();
    let own = put_kings(&mut diagram, draw);
    let mover = diagram.turn;
    for _pawn in 0..3u8 {
        let at = Square::new(1 + draw.below(8), rank_for(mover, 7));
        let _pawn = put(&mut diagram, at, man(mover, Kind::Pawn));
    }
    put_victims(&mut diagram, draw, kinds);
    put_pinned(&mut diagram, draw, own);
    let count = draw.below(5);
    scatter(&mut diagram, draw, kinds, count);
    put_nightrider(&mut diagram, draw, kinds);
    diagram
}

// Puts both kings. Returns the square of the mover's king.
fn put_kings(diagram: &mut Diagram, draw: &mut Draw) -> Square {
    let mover = diagram.turn;
    let file = draw.pick(2, 2u8, 7);
    let (own, other) = if draw.once_in(2) {
        cornered(mover, file)
    } else {
        near_the_end(draw, mover)
    };
    let own = own.unwrap_or_default();
    let _own = put(diagram, Some(own), man(mover, Kind::King));
    let _other = put(diagram, other, man(mover.other(), Kind::King));
    own
}

// Returns the squares of both kings: the other king in the corner, the mover's two ranks below on the next
// file.
fn cornered(mover: Colour, file: u8) -> (Option<Square>, Option<Square>) {
    let corner = if file == 2 { 1u8 } else { 8 };
    (
        Square::new(file, rank_for(mover, 6)),
        Square::new(corner, rank_for(mover, 8)),
    )
}

// Returns the squares of both kings: the mover's on the last rank or rank 4, the other on one of the last
// two ranks.
fn near_the_end(draw: &mut Draw, mover: Colour) -> (Option<Square>, Option<Square>) {
    let last = rank_for(mover, 8);
    let rank = draw.pick(2, last, 4);
    let other_rank = draw.pick(2, last, rank_for(mover, 7));
    let own = Square::new(1 + draw.below(8), rank);
    (own, Square::new(1 + draw.below(8), other_rank))
}

// Puts men to capture on the last rank.
fn put_victims(diagram: &mut Diagram, draw: &mut Draw, kinds: Kinds) {
    let mover = diagram.turn;
    for _victim in 0..3u8 {
        let at = Square::new(1 + draw.below(8), rank_for(mover, 8));
        let kind = draw.kind(kinds);
        let _victim = put(diagram, at, man(mover.other(), kind));
    }
}

// Puts a checker or a pinned pawn.
fn put_pinned(diagram: &mut Diagram, draw: &mut Draw, own: Square) {
    let mover = diagram.turn;
    let line = draw.line();
    if draw.once_in(2) {
        let _checker = put_rider(diagram, draw, own, line, mover.other());
    } else {
        let pawn = man(mover, Kind::Pawn);
        let _pinned = put_battery(diagram, draw, own, line, pawn, mover.other());
    }
}

// Puts a nightrider anywhere, so that pawns may promote to one.
fn put_nightrider(diagram: &mut Diagram, draw: &mut Draw, kinds: Kinds) {
    if kinds == Kinds::All {
        let at = draw.square();
        let _rider = put(diagram, Some(at), man(draw.colour(), Kind::Nightrider));
    }
}
