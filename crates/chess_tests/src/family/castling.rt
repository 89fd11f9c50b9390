//! Castling into lines, out of lines and across them.
use crate::draw::Draw;
use crate::plain::up;
use crate::scene::{board, man, mark_homes, put, put_rider, rank_for, scatter, steps};
use chess_core::{Diagram, Kind, Square};

// Returns a position with king and rooks at home, attackers of the squares between them, and the other
// king on their files.
pub(crate) fn castling(draw: &mut Draw) -> Diagram {
    let mut diagram = board(draw);
    let kinds = draw.kinds();
    put_home(&mut diagram);
    put_attackers(&mut diagram, draw);
    put_other(&mut diagram, draw);
    put_like(&mut diagram, draw);
    let count = draw.below(6);
    scatter(&mut diagram, draw, kinds, count);
    mark_homes(&mut diagram, draw);
    diagram
}

// Puts king and rooks of the side to move at home.
fn put_home(diagram: &mut Diagram) {
    let mover = diagram.turn;
    let rank = rank_for(mover, 1);
    let _king = put(diagram, Square::new(5, rank), man(mover, Kind::King));
    for corner in &[1u8, 8] {
        let _rook = put(diagram, Square::new(*corner, rank), man(mover, Kind::Rook));
    }
}

// Puts riders that reach squares between king and rooks.
fn put_attackers(diagram: &mut Diagram, draw: &mut Draw) {
    let mover = diagram.turn;
    let rank = rank_for(mover, 1);
    let ahead = up(mover);
    for _attacker in 0..draw.below(3) {
        let aim = Square::new(2 + draw.below(6), rank).unwrap_or_default();
        let slant = [0u8, 1, 255][draw.below(3) as usize];
        let _rider = put_rider(diagram, draw, aim, (slant, ahead), mover.other());
    }
}

// Puts the other king into a net, at its own end or anywhere.
fn put_other(diagram: &mut Diagram, draw: &mut Draw) {
    if draw.once_in(3) {
        put_net(diagram, draw);
        return;
    }
    let mover = diagram.turn;
    let other = Square::new(3 + draw.below(4), rank_for(mover, 8));
    let other = if draw.once_in(3) {
        Some(draw.square())
    } else {
        other
    };
    let _other = put(diagram, other, man(mover.other(), Kind::King));
}

// Puts a rook of the other side on the fourth rank, once in four draws.
fn put_like(diagram: &mut Diagram, draw: &mut Draw) {
    if draw.once_in(4) {
        let at = Square::new(1 + draw.below(8), 4);
        let rook = man(diagram.turn.other(), Kind::Rook);
        let _rook = put(diagram, at, rook);
    }
}

// Puts the other king on the file where a rook castles to, and rooks on the files next to it.
fn put_net(diagram: &mut Diagram, draw: &mut Draw) {
    let mover = diagram.turn;
    let file = draw.pick(2, 4u8, 6);
    let arrival = Square::new(file, rank_for(mover, 1)).unwrap_or_default();
    let king = steps(arrival, (0, up(mover)), 2 + draw.below(5));
    let _king = put(diagram, king, man(mover.other(), Kind::King));
    put_guard(diagram, draw, file.wrapping_sub(1));
    put_guard(diagram, draw, file.wrapping_add(1));
}

// Puts a queen or rook of the mover on a file.
fn put_guard(diagram: &mut Diagram, draw: &mut Draw, file: u8) {
    let mover = diagram.turn;
    let at = Square::new(file, 4 + draw.below(2)).unwrap_or_default();
    let far = steps(at, (0, up(mover)), draw.below(4));
    let guard = draw.pick(3, Kind::Queen, Kind::Rook);
    let _guard = put(diagram, far, man(mover, guard));
}

// Returns a position with king and one rook at home, the other king on their rank beyond the castling
// king's square, and a rook or queen on the next rank.
pub(crate) fn home_ranks(draw: &mut Draw) -> Diagram {
    let mut diagram = board(draw);
    let kinds = draw.kinds();
    let (corner, far, file) = home_files(draw);
    let guard = draw.pick(3, Kind::Queen, Kind::Rook);
    put_ranks(&mut diagram, corner, far);
    let mover = diagram.turn;
    let at = Square::new(file, rank_for(mover, 2));
    let _guard = put(&mut diagram, at, man(mover, guard));
    let count = draw.below(4);
    scatter(&mut diagram, draw, kinds, count);
    mark_homes(&mut diagram, draw);
    diagram
}

// Returns the files of the rook, of the other king and of the man on the next rank.
fn home_files(draw: &mut Draw) -> (u8, u8, u8) {
    let aside = draw.below(2);
    let bar = draw.below(5);
    if draw.once_in(2) {
        (8, 1 + aside, 4 + bar)
    } else {
        (1, 8 - aside, 5 - bar)
    }
}

// Puts king and rook at home, and the other king on their rank.
fn put_ranks(diagram: &mut Diagram, corner: u8, far: u8) {
    let mover = diagram.turn;
    let home = rank_for(mover, 1);
    let _king = put(diagram, Square::new(5, home), man(mover, Kind::King));
    let _rook = put(diagram, Square::new(corner, home), man(mover, Kind::Rook));
    let other = man(mover.other(), Kind::King);
    let _other = put(diagram, Square::new(far, home), other);
}
