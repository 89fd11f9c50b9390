//! Kings that flee, have nowhere to go, or are missing.
use crate::draw::{Draw, Kinds};
use crate::plain::{LINES, next, up};
use crate::scene::{
    board, inner_square, man, mark_homes, put, put_battery, put_blockers, put_king, put_rider,
    rank_for, scatter, steps,
};
use chess_core::{Diagram, Kind, Square};

// Returns a position with a king in check on a line that continues beyond it.
pub(crate) fn king_steps(draw: &mut Draw) -> Diagram {
    let mut diagram = board(draw);
    let mover = diagram.turn;
    let kinds = draw.kinds();
    let at = inner_square(draw);
    let _king = put(&mut diagram, Some(at), man(mover, Kind::King));
    let leaps = kinds == Kinds::All && draw.once_in(4);
    let way = if leaps { draw.leap() } else { draw.line() };
    let _checker = put_rider(&mut diagram, draw, at, way, mover.other());
    put_hopper(&mut diagram, draw, kinds, at);
    let _other = put_king(&mut diagram, draw, mover.other());
    let count = draw.below(6);
    scatter(&mut diagram, draw, kinds, count);
    diagram
}

// Puts a grasshopper that checks over a man next to the king, once in two draws.
fn put_hopper(diagram: &mut Diagram, draw: &mut Draw, kinds: Kinds, king: Square) {
    if kinds == Kinds::All && draw.once_in(2) {
        let line = draw.line();
        let far = steps(king, line, 2 + draw.below(3));
        let hopper = man(diagram.turn.other(), Kind::Grasshopper);
        let _hopper = put(diagram, far, hopper);
        let _hurdle = put(diagram, next(king, line), draw.man(kinds));
    }
}

// Returns a position with the other side's king at the edge, and some squares next to it taken by its
// men or attacked.
pub(crate) fn flights(draw: &mut Draw) -> Diagram {
    let mut diagram = board(draw);
    let mover = diagram.turn;
    let kinds = draw.kinds();
    let at = edge_square(draw);
    let _king = put(&mut diagram, Some(at), man(mover.other(), Kind::King));
    put_blockers(&mut diagram, draw, kinds, at);
    let near = steps(at, draw.line(), 2).unwrap_or(draw.square());
    let _own = put(&mut diagram, Some(near), man(mover, Kind::King));
    put_attackers(&mut diagram, draw, kinds);
    diagram
}

// Returns a square at the edge.
fn edge_square(draw: &mut Draw) -> Square {
    let edge = draw.pick(2, 1u8, 8);
    let other = 1 + draw.below(8);
    let at = if draw.once_in(2) {
        Square::new(edge, other)
    } else {
        Square::new(other, edge)
    };
    at.unwrap_or_default()
}

// Puts three to five men of the mover and a queen anywhere.
fn put_attackers(diagram: &mut Diagram, draw: &mut Draw, kinds: Kinds) {
    let mover = diagram.turn;
    for _man in 0..3 + draw.below(3) {
        let kind = draw.kind(kinds);
        let _man = put(diagram, Some(draw.square()), man(mover, kind));
    }
    let _queen = put(diagram, Some(draw.square()), man(mover, Kind::Queen));
}

// Returns a position with the other side's king among its men, riders of the mover that reach it and
// squares next to it, and one rider masked by a man of the mover on a line to one of these squares.
pub(crate) fn refuges(draw: &mut Draw) -> Diagram {
    let mut diagram = board(draw);
    let mover = diagram.turn;
    let kinds = draw.kinds();
    let at = draw.square();
    let _king = put(&mut diagram, Some(at), man(mover.other(), Kind::King));
    put_guards(&mut diagram, draw, at);
    let beside = next(at, draw.line()).unwrap_or(at);
    let front = man(mover, draw.kind(kinds));
    let line = draw.line();
    let _battery = put_battery(&mut diagram, draw, beside, line, front, mover);
    put_near_riders(&mut diagram, draw, at);
    let _own = put_king(&mut diagram, draw, mover);
    let _queen = put(&mut diagram, Some(draw.square()), man(mover, Kind::Queen));
    diagram
}

// Puts pawns and knights of the other side on about half of the squares next to its king.
fn put_guards(diagram: &mut Diagram, draw: &mut Draw, king: Square) {
    let colour = diagram.turn.other();
    for way in &LINES {
        if draw.once_in(2) {
            let guard = draw.pick(2, Kind::Pawn, Kind::Knight);
            let _guard = put(diagram, next(king, *way), man(colour, guard));
        }
    }
}

// Puts riders of the mover that reach squares next to the king.
fn put_near_riders(diagram: &mut Diagram, draw: &mut Draw, king: Square) {
    for _rider in 0..3u8 {
        let near = next(king, draw.line()).unwrap_or(king);
        put_seer(diagram, draw, near);
    }
}

// Returns a position with lines to kings, and to squares where a king is missing.
pub(crate) fn missing_kings(draw: &mut Draw) -> Diagram {
    let mut diagram = board(draw);
    let kinds = draw.kinds();
    let at = put_one_king(&mut diagram, draw);
    for _battery in 0..3u8 {
        let line = draw.line();
        let front = draw.man(kinds);
        let rear = draw.colour();
        let _put = put_battery(&mut diagram, draw, at, line, front, rear);
    }
    let count = 2 + draw.below(8);
    scatter(&mut diagram, draw, kinds, count);
    mark_homes(&mut diagram, draw);
    diagram
}

// Puts the mover's king, the other king or none, and returns the square.
fn put_one_king(diagram: &mut Diagram, draw: &mut Draw) -> Square {
    let mover = diagram.turn;
    let present = draw.below(3);
    let at = draw.square();
    if present > 0 {
        let colour = if present == 1 { mover } else { mover.other() };
        let _king = put(diagram, Some(at), man(colour, Kind::King));
    }
    at
}

// Returns a position with the other side's king shut in by its men except for one square. From there a
// pawn of the mover may give check, or the mover's king or a pawn masks a rider on the line through it.
pub(crate) fn nooks(draw: &mut Draw) -> Diagram {
    let mut diagram = board(draw);
    let mover = diagram.turn;
    let rank = if draw.once_in(2) {
        rank_for(mover, 5)
    } else {
        2 + draw.below(6)
    };
    let at = Square::new(1 + draw.below(8), rank).unwrap_or_default();
    let _king = put(&mut diagram, Some(at), man(mover.other(), Kind::King));
    let hole = if draw.once_in(2) {
        put_pawn_before(&mut diagram, draw, at)
    } else {
        put_battery_before(&mut diagram, draw, at)
    };
    shut_in(&mut diagram, draw, at, hole);
    let _own = put_king(&mut diagram, draw, mover);
    diagram
}

// Puts a pawn or the mover's king between the king and a rider. Returns the square next to the king on this
// line.
fn put_battery_before(diagram: &mut Diagram, draw: &mut Draw, king: Square) -> Square {
    let mover = diagram.turn;
    let line = draw.line();
    let front = man(mover, draw.pick(2, Kind::Pawn, Kind::King));
    let _battery = put_battery(diagram, draw, king, line, front, mover);
    next(king, line).unwrap_or(king)
}

// Puts a pawn of the mover one step, one double step or one capture before a square from which it checks
// the king. Returns that square.
fn put_pawn_before(diagram: &mut Diagram, draw: &mut Draw, king: Square) -> Square {
    let mover = diagram.turn;
    let down = up(mover.other());
    let checked_from = next(king, (draw.pick(2, 1, 255), down)).unwrap_or_default();
    let pawn = man(mover, Kind::Pawn);
    if draw.once_in(3) {
        let way = (draw.pick(2, 1, 255), down);
        let victim = man(mover.other(), Kind::Bishop);
        let _victim = put(diagram, Some(checked_from), victim);
        let _pawn = put(diagram, next(checked_from, way), pawn);
    } else {
        let far = 1 + draw.below(2);
        let _pawn = put(diagram, steps(checked_from, (0, down), far), pawn);
    }
    checked_from
}

// Puts the king's own men on the other squares next to it, a rider that reaches the hole, and a rider
// that reaches another square.
fn shut_in(diagram: &mut Diagram, draw: &mut Draw, king: Square, hole: Square) {
    let colour = diagram.turn.other();
    for way in &LINES {
        let beside = next(king, *way);
        if beside != Some(hole) && !draw.once_in(20) {
            let guard = draw.pick(2, Kind::Pawn, Kind::Bishop);
            let _guard = put(diagram, beside, man(colour, guard));
        }
    }
    let other = next(king, draw.line()).unwrap_or(king);
    put_seer(diagram, draw, hole);
    put_seer(diagram, draw, other);
}

// Puts a rider of the mover that reaches the square.
fn put_seer(diagram: &mut Diagram, draw: &mut Draw, seen: Square) {
    let line = draw.line();
    let mover = diagram.turn;
    let _rider = put_rider(diagram, draw, seen, line, mover);
}
