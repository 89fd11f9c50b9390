//! Rebirths after captures, and mutual paralysis.
use crate::draw::{Draw, Kinds};
use crate::plain::{home, next, up};
use crate::scene::{
    back, board, man, mark_homes, put, put_battery, put_blockers, put_king, put_rider, rank_for,
    rider, scatter, steps,
};
use chess_core::{Colour, Diagram, Kind, Man, Square};

// Returns a position with kings near the ranks where victims are reborn, and victims next to the mover's
// men.
pub(crate) fn rebirths(draw: &mut Draw) -> Diagram {
    let mut diagram = board(draw);
    let kinds = draw.kinds();
    let mover = diagram.turn;
    put_aimed_king(&mut diagram, draw, kinds, mover);
    put_aimed_king(&mut diagram, draw, kinds, mover.other());
    for _pair in 0..4u8 {
        put_pair(&mut diagram, draw, kinds);
    }
    let count = draw.below(6);
    scatter(&mut diagram, draw, kinds, count);
    mark_homes(&mut diagram, draw);
    diagram
}

// Puts a king of this colour, and an enemy rider that reaches it, with or without a victim between.
fn put_aimed_king(diagram: &mut Diagram, draw: &mut Draw, kinds: Kinds, colour: Colour) {
    let mover = diagram.turn;
    let rank = draw.pick(3, rank_for(mover, 7), rank_for(mover, 8));
    let at = Square::new(1 + draw.below(8), rank).unwrap_or_default();
    let _king = put(diagram, Some(at), man(colour, Kind::King));
    let line = draw.line();
    if draw.once_in(2) {
        let _rider = put_rider(diagram, draw, at, line, colour.other());
    } else {
        let victim = man(mover.other(), draw.kind(kinds));
        let _front = put_battery(diagram, draw, at, line, victim, colour.other());
    }
}

// Puts a victim, and a man of the mover next to it.
fn put_pair(diagram: &mut Diagram, draw: &mut Draw, kinds: Kinds) {
    let mover = diagram.turn;
    let at = Square::new(1 + draw.below(8), 2 + draw.below(6)).unwrap_or_default();
    let victim = man(mover.other(), draw.kind(kinds));
    let _victim = put(diagram, Some(at), victim);
    let beside = next(at, draw.line());
    let taker = man(mover, draw.kind(kinds));
    let _taker = put(diagram, beside, taker);
}

// Returns a position with men to be captured that are reborn next to the other side's king, and
// grasshoppers or other men of the mover beyond their home squares.
pub(crate) fn reborn_hurdles(draw: &mut Draw) -> Diagram {
    let mut diagram = board(draw);
    if draw.once_in(2) {
        put_promoting(&mut diagram, draw);
    } else {
        put_captured(&mut diagram, draw);
    }
    let mover = diagram.turn;
    let _own = put_king(&mut diagram, draw, mover);
    let count = draw.below(5);
    scatter(&mut diagram, draw, Kinds::All, count);
    diagram
}

// Puts a victim on the last rank, a pawn of the mover that can capture it, and a grasshopper anywhere.
fn put_promoting(diagram: &mut Diagram, draw: &mut Draw) {
    let mover = diagram.turn;
    let victim = man(mover.other(), draw.kind(Kinds::Orthodox));
    let at = Square::new(1 + draw.below(8), rank_for(mover, 8)).unwrap_or_default();
    let _line = put_victim(diagram, draw, victim, at);
    let hopper = hopper_of(draw, mover);
    let _hopper = put(diagram, Some(draw.square()), hopper);
    let file = at.file().wrapping_add(draw.pick(2, 1u8, 255));
    let pawn = man(mover, Kind::Pawn);
    let _pawn = put(diagram, Square::new(file, rank_for(mover, 7)), pawn);
}

// Puts a victim, a rider of the mover that captures it, and a grasshopper beyond its home square.
fn put_captured(diagram: &mut Diagram, draw: &mut Draw) {
    let mover = diagram.turn;
    let victim = man(mover.other(), draw.kind(Kinds::Orthodox));
    let rank = 2 + draw.below(6);
    let at = Square::new(1 + draw.below(8), rank).unwrap_or_default();
    let line = put_victim(diagram, draw, victim, at);
    let hopper = hopper_of(draw, mover);
    let rear = steps(home(victim, at), back(line), 1 + draw.below(5));
    let _hopper = put(diagram, Some(rear.unwrap_or_default()), hopper);
    let aside = draw.line();
    put_taker(diagram, draw, at, aside);
}

// Returns a grasshopper, usually of the mover.
fn hopper_of(draw: &mut Draw, mover: Colour) -> Man {
    man(draw.pick(3, mover.other(), mover), Kind::Grasshopper)
}

// Puts the victim, and the other king next to its home square. Returns the direction from there to the
// king.
fn put_victim(diagram: &mut Diagram, draw: &mut Draw, victim: Man, at: Square) -> (u8, u8) {
    let line = draw.line();
    let king = man(victim.colour, Kind::King);
    let _king = put(diagram, next(home(victim, at), line), king);
    let _victim = put(diagram, Some(at), victim);
    line
}

// Puts a rider of the mover that reaches the square from this direction.
fn put_taker(diagram: &mut Diagram, draw: &mut Draw, at: Square, line: (u8, u8)) {
    let taker = man(diagram.turn, rider(draw, line));
    let _taker = put(diagram, steps(at, line, 1 + draw.below(3)), taker);
}

// Returns a position with the other side's king in the corner without a flight, and a grasshopper on its
// diagonal that gives check once a captured pawn is reborn between them.
pub(crate) fn hurdle_nets(draw: &mut Draw) -> Diagram {
    let mut diagram = board(draw);
    let beside = put_corner(&mut diagram, draw);
    let at = Square::new(beside, 3 + draw.below(4)).unwrap_or_default();
    let victim = man(diagram.turn.other(), Kind::Pawn);
    let _victim = put(&mut diagram, Some(at), victim);
    for _taker in 0..2u8 {
        let line = draw.line();
        put_taker(&mut diagram, draw, at, line);
    }
    let count = draw.below(4);
    scatter(&mut diagram, draw, Kinds::All, count);
    diagram
}

// Puts the king in the corner, a bishop next to it, the mover's king opposite and the grasshopper. Returns
// the file next to the corner.
fn put_corner(diagram: &mut Diagram, draw: &mut Draw) -> u8 {
    let mover = diagram.turn;
    let last = rank_for(mover, 8);
    let (file, beside, inward) = if draw.once_in(2) {
        (1u8, 2u8, 1u8)
    } else {
        (8, 7, 255)
    };
    let corner = Square::new(file, last).unwrap_or_default();
    let _king = put(diagram, Some(corner), man(mover.other(), Kind::King));
    let guard = man(mover.other(), Kind::Bishop);
    let _guard = put(diagram, Square::new(beside, last), guard);
    let own = Square::new(beside, rank_for(mover, 6));
    let _own = put(diagram, own, man(mover, Kind::King));
    let diagonal = (inward, up(mover.other()));
    let far = steps(corner, diagonal, 3 + draw.below(3));
    let _hopper = put(diagram, far, man(mover, Kind::Grasshopper));
    beside
}

// Returns a position with riders that attack the kings, and enemy men of the same kinds that attack
// these riders or may do so.
pub(crate) fn paralysis(draw: &mut Draw) -> Diagram {
    let mut diagram = board(draw);
    let mover = diagram.turn;
    let kinds = draw.kinds();
    let own = put_king(&mut diagram, draw, mover);
    let other = put_king(&mut diagram, draw, mover.other());
    for _aimed in 0..2u8 {
        put_facing(&mut diagram, draw, own, mover.other());
    }
    for _aimed in 0..2u8 {
        put_facing(&mut diagram, draw, other, mover);
    }
    let count = 2 + draw.below(7);
    scatter(&mut diagram, draw, kinds, count);
    mark_homes(&mut diagram, draw);
    diagram
}

// Puts a rider of this colour on a line of the king, and an enemy man of its kind that attacks it from the
// side.
fn put_facing(diagram: &mut Diagram, draw: &mut Draw, king: Square, colour: Colour) {
    let line = draw.line();
    let gap = 1 + draw.below(4);
    let Some(at) = steps(king, line, gap) else {
        return;
    };
    let rider = man(colour, rider(draw, line));
    let _rider = put(diagram, Some(at), rider);
    let aside = 1 + draw.below(4);
    let like = man(colour.other(), rider.kind);
    let _facing = put(diagram, steps(at, turned(line), aside), like);
}

// Returns a position with the other side's king on its home rank opposed by the mover's king, and
// captures that give check.
pub(crate) fn nets(draw: &mut Draw) -> Diagram {
    let mut diagram = board(draw);
    if draw.once_in(2) {
        put_corner_net(&mut diagram, draw);
    } else {
        let file = 1 + draw.below(8);
        put_opposed(&mut diagram, file, file);
        put_captures(&mut diagram, draw, file);
    }
    let count = draw.below(4);
    scatter(&mut diagram, draw, Kinds::Orthodox, count);
    diagram
}

// Puts the other side's king on its home rank, and the mover's two ranks before it, on these files.
fn put_opposed(diagram: &mut Diagram, file: u8, own_file: u8) {
    let mover = diagram.turn;
    let king = Square::new(file, rank_for(mover, 8));
    let _king = put(diagram, king, man(mover.other(), Kind::King));
    let own = Square::new(own_file, rank_for(mover, 6));
    let _own = put(diagram, own, man(mover, Kind::King));
}

// Puts the king in a corner, a man before it, and a rook of the mover that captures this man along the
// rank.
fn put_corner_net(diagram: &mut Diagram, draw: &mut Draw) {
    let mover = diagram.turn;
    let (file, beside) = if draw.once_in(2) { (1u8, 2u8) } else { (8, 7) };
    put_opposed(diagram, file, beside);
    let second = rank_for(mover, 7);
    let victim = man(mover.other(), draw.kind(Kinds::Orthodox));
    let _victim = put(diagram, Square::new(file, second), victim);
    let taker = Square::new(2 + draw.below(6), second);
    let _taker = put(diagram, taker, man(mover, Kind::Rook));
}

// Puts men on lines of the king that riders may capture with check, and men next to the king.
fn put_captures(diagram: &mut Diagram, draw: &mut Draw, file: u8) {
    let rank = rank_for(diagram.turn, 8);
    let king = Square::new(file, rank).unwrap_or_default();
    for _capture in 0..3u8 {
        let line = draw.line();
        let gap = 1 + draw.below(5);
        if let Some(at) = steps(king, line, gap) {
            put_capture(diagram, draw, at, line);
        }
    }
    put_blockers(diagram, draw, Kinds::Orthodox, king);
}

// Puts a man to be captured on a line, and a rider of this line that captures it from the side.
fn put_capture(diagram: &mut Diagram, draw: &mut Draw, at: Square, line: (u8, u8)) {
    let mover = diagram.turn;
    let victim = man(mover.other(), draw.kind(Kinds::Orthodox));
    let _victim = put(diagram, Some(at), victim);
    let taker = man(mover, rider(draw, line));
    let aside = 1 + draw.below(4);
    let _taker = put(diagram, steps(at, turned(line), aside), taker);
}

// Returns the direction turned by a right angle.
fn turned(way: (u8, u8)) -> (u8, u8) {
    (way.1.wrapping_neg(), way.0)
}
