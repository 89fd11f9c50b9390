//! Kings and riders on one line.
use crate::draw::{Draw, Kinds};
use crate::plain::next;
use crate::scene::{board, man, put, put_battery, put_king, put_rider, scatter};
use chess_core::{Colour, Diagram, Kind, Man};

// Returns a direction of a rider among these kinds.
fn way(draw: &mut Draw, kinds: Kinds) -> (u8, u8) {
    if kinds == Kinds::All && draw.once_in(3) {
        draw.leap()
    } else {
        draw.line()
    }
}

// Puts the missing king, most times, and men anywhere.
fn finish(diagram: &mut Diagram, draw: &mut Draw, kinds: Kinds, colour: Colour) {
    if !draw.once_in(8) {
        let _king = put_king(diagram, draw, colour);
    }
    let count = draw.below(7);
    scatter(diagram, draw, kinds, count);
}

// Returns the front man of a battery.
fn front(draw: &mut Draw, kinds: Kinds, colour: Colour) -> Man {
    man(colour, draw.kind(kinds))
}

// Returns a position with a king of the mover and enemy batteries on lines to it.
pub(crate) fn pins(draw: &mut Draw) -> Diagram {
    let mut diagram = board(draw);
    let kinds = draw.kinds();
    let mover = diagram.turn;
    let king = put_king(&mut diagram, draw, mover);
    for _battery in 0..4u8 {
        let way = way(draw, kinds);
        let front = front(draw, kinds, mover);
        let _put = put_battery(&mut diagram, draw, king, way, front, mover.other());
    }
    finish(&mut diagram, draw, kinds, mover.other());
    diagram
}

// Returns a position with the other king and batteries of the mover on lines to it.
pub(crate) fn batteries(draw: &mut Draw) -> Diagram {
    let mut diagram = board(draw);
    let kinds = draw.kinds();
    let mover = diagram.turn;
    let target = put_king(&mut diagram, draw, mover.other());
    for number in 0..3u8 {
        let way = way(draw, kinds);
        let front = if number == 0 && draw.once_in(4) {
            man(mover, Kind::King)
        } else {
            front(draw, kinds, mover)
        };
        let _put = put_battery(&mut diagram, draw, target, way, front, mover);
    }
    finish(&mut diagram, draw, kinds, mover);
    diagram
}

// Returns a position with a double check, or one where the mover may give one.
pub(crate) fn double_checks(draw: &mut Draw) -> Diagram {
    let mut diagram = board(draw);
    let kinds = draw.kinds();
    let mover = diagram.turn;
    if draw.once_in(2) {
        put_checkers(&mut diagram, draw, kinds);
        finish(&mut diagram, draw, kinds, mover.other());
    } else {
        put_double(&mut diagram, draw, kinds);
        finish(&mut diagram, draw, kinds, mover);
    }
    diagram
}

// Puts the mover's king, and riders that check it.
fn put_checkers(diagram: &mut Diagram, draw: &mut Draw, kinds: Kinds) {
    let mover = diagram.turn;
    let king = put_king(diagram, draw, mover);
    for _rider in 0..3u8 {
        let way = way(draw, kinds);
        let _put = put_rider(diagram, draw, king, way, mover.other());
    }
}

// Puts the other king, batteries on lines to it, and a queen a leap away.
fn put_double(diagram: &mut Diagram, draw: &mut Draw, kinds: Kinds) {
    let mover = diagram.turn;
    let target = put_king(diagram, draw, mover.other());
    for _battery in 0..3u8 {
        let way = way(draw, kinds);
        let front = front(draw, kinds, mover);
        let _put = put_battery(diagram, draw, target, way, front, mover);
    }
    let near = next(target, draw.leap());
    let _near = put(diagram, near, man(mover, Kind::Queen));
}
