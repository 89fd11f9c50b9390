//! Pawns that mate as what they become.
use crate::draw::{Draw, Kinds};
use crate::plain::{next, up};
use crate::scene::{back, board, man, put, put_blockers, put_king, rank_for, scatter, steps};
use chess_core::{Diagram, Kind, Square};

// Returns a position with a pawn before its last rank, between the other king and its arrival: it opens
// its own line.
pub(crate) fn opened_lines(draw: &mut Draw) -> Diagram {
    let mut diagram = board(draw);
    let kinds = draw.kinds();
    put_after_pawn(&mut diagram, draw);
    put_net(&mut diagram, draw, kinds);
    diagram
}

// Returns a position with a pawn before its last rank, and the other king a knight's leap from its
// arrival.
pub(crate) fn underpromotions(draw: &mut Draw) -> Diagram {
    let mut diagram = board(draw);
    let kinds = draw.kinds();
    put_leap(&mut diagram, draw, kinds);
    put_net(&mut diagram, draw, kinds);
    diagram
}

// Returns a position with a pawn before its last rank, and a fairy man elsewhere, so that the pawn may
// promote to one.
pub(crate) fn fairy_promotions(draw: &mut Draw) -> Diagram {
    let mut diagram = board(draw);
    if draw.once_in(2) {
        put_after_pawn(&mut diagram, draw);
    } else {
        put_leap(&mut diagram, draw, Kinds::Orthodox);
    }
    let fairy = draw.pick(2, Kind::Grasshopper, Kind::Nightrider);
    let at = draw.square();
    let _fairy = put(&mut diagram, Some(at), man(draw.colour(), fairy));
    put_net(&mut diagram, draw, Kinds::Orthodox);
    diagram
}

// Puts a pawn of the mover before its last rank.
fn put_pawn(diagram: &mut Diagram, draw: &mut Draw) -> Square {
    let mover = diagram.turn;
    let at = Square::new(1 + draw.below(8), rank_for(mover, 7)).unwrap_or_default();
    let _pawn = put(diagram, Some(at), man(mover, Kind::Pawn));
    at
}

// Puts a pawn, and the other king beyond it on the line of its step or of its capture on the last rank.
fn put_after_pawn(diagram: &mut Diagram, draw: &mut Draw) {
    let mover = diagram.turn;
    let pawn = put_pawn(diagram, draw);
    let side = draw.pick(2, 1u8, 255);
    let way = (draw.pick(3, side, 0u8), up(mover));
    if way.0 != 0 {
        let victim = draw.kind(Kinds::Orthodox);
        let _victim = put(diagram, next(pawn, way), man(mover.other(), victim));
    }
    let king = steps(pawn, back(way), 1 + draw.below(6));
    let _king = put(diagram, king, man(mover.other(), Kind::King));
}

// Puts a pawn, and the other king among its men, a knight's leap from the square before the pawn.
fn put_leap(diagram: &mut Diagram, draw: &mut Draw, kinds: Kinds) {
    let mover = diagram.turn;
    let pawn = put_pawn(diagram, draw);
    let arrival = steps(pawn, (0, up(mover)), 1).unwrap_or(pawn);
    let at = next(arrival, draw.leap()).unwrap_or(draw.square());
    let _king = put(diagram, Some(at), man(mover.other(), Kind::King));
    put_blockers(diagram, draw, kinds, at);
    put_blockers(diagram, draw, kinds, at);
}

// Puts the mover's king, men that guard squares, and some men of either side.
fn put_net(diagram: &mut Diagram, draw: &mut Draw, kinds: Kinds) {
    let mover = diagram.turn;
    let _own = put_king(diagram, draw, mover);
    for kind in &[Kind::Rook, Kind::Bishop, Kind::Rook] {
        let _guard = put(diagram, Some(draw.square()), man(mover, *kind));
    }
    let _other = put_king(diagram, draw, mover.other());
    let count = draw.below(4);
    scatter(diagram, draw, kinds, count);
}
