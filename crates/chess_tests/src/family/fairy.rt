//! Grasshoppers and nightriders near kings.
use crate::draw::{Draw, Kinds};
use crate::plain::next;
use crate::scene::{board, man, put, put_battery, put_king, put_rider, scatter, steps};
use chess_core::{Colour, Diagram, Kind, Square};

// Returns a position with grasshoppers on lines of a king, with one hurdle, two or none.
pub(crate) fn hurdles(draw: &mut Draw) -> Diagram {
    let mut diagram = board(draw);
    let mover = diagram.turn;
    let target = draw.pick(2, mover, mover.other());
    let king = put_king(&mut diagram, draw, target);
    for _line in 0..3u8 {
        put_hurdles(&mut diagram, draw, king, target);
    }
    let _other = put_king(&mut diagram, draw, target.other());
    let count = 3 + draw.below(6);
    scatter(&mut diagram, draw, Kinds::All, count);
    diagram
}

// Puts a grasshopper on a line of the king of this colour, and men between them.
fn put_hurdles(diagram: &mut Diagram, draw: &mut Draw, king: Square, target: Colour) {
    let line = draw.line();
    let far = 2 + draw.below(4);
    let hopper = man(target.other(), Kind::Grasshopper);
    if put(diagram, steps(king, line, far), hopper) {
        if !draw.once_in(3) {
            let hurdle = draw.man(Kinds::All);
            let _hurdle = put(diagram, next(king, line), hurdle);
        }
        put_second(diagram, draw, king, line);
    }
}

// Puts a second man of the mover on the line, once in two draws.
fn put_second(diagram: &mut Diagram, draw: &mut Draw, king: Square, line: (u8, u8)) {
    if draw.once_in(2) {
        let second = man(diagram.turn, draw.kind(Kinds::All));
        let between = 2 + draw.below(3);
        let _second = put(diagram, steps(king, line, between), second);
    }
}

// Returns a position with nightriders on lines of both kings, with or without men between.
pub(crate) fn nightrider_lines(draw: &mut Draw) -> Diagram {
    let mut diagram = board(draw);
    let mover = diagram.turn;
    let own = put_king(&mut diagram, draw, mover);
    let other = put_king(&mut diagram, draw, mover.other());
    for _line in 0..2u8 {
        put_nightrider(&mut diagram, draw, own, mover.other());
    }
    for _line in 0..2u8 {
        put_nightrider(&mut diagram, draw, other, mover);
    }
    put_leaps(&mut diagram, draw, own, other);
    let count = draw.below(6);
    scatter(&mut diagram, draw, Kinds::All, count);
    diagram
}

// Puts a nightrider of this colour on a line of the king, and a man of the mover between them.
fn put_nightrider(diagram: &mut Diagram, draw: &mut Draw, king: Square, rear: Colour) {
    let leap = draw.leap();
    let front = man(diagram.turn, draw.kind(Kinds::All));
    let following = steps(king, leap, 2 + draw.below(2));
    if put(diagram, following, man(rear, Kind::Nightrider)) {
        let _front = put(diagram, next(king, leap), front);
    }
}

// Puts a nightrider that checks the mover's king, or a nightrider battery on the other king.
fn put_leaps(diagram: &mut Diagram, draw: &mut Draw, own: Square, other: Square) {
    let mover = diagram.turn;
    let leap = draw.leap();
    if draw.once_in(3) {
        let _checker = put_rider(diagram, draw, own, leap, mover.other());
    } else {
        let front = man(mover, draw.kind(Kinds::All));
        let _battery = put_battery(diagram, draw, other, leap, front, mover);
    }
}
