//! Events as they are printed, some of which no search returns today.
use arrayvec::ArrayVec;
use chess_core::{Colour, Kind, Man, Square};
use pop_events::{Event, Mark, Shown, Side};
use pop_print::print_event;
use pop_text::TrialSink;

// Returns a move of a man between two squares, numbered from a1, 0, to h8, 63.
fn shown(colour: Colour, kind: Kind, from: u8, to: u8, mark: Mark) -> Shown {
    Shown {
        man: Man { colour, kind },
        from: Square::numbered(from % 64),
        to: Square::numbered(to % 64),
        capture: false,
        ep: false,
        promo: None,
        castling: None,
        rebirth: None,
        mark,
    }
}

fn prints(event: &Event, text: &[u8]) -> bool {
    let mut sink = TrialSink::<512>::new(512, None);
    let printed = print_event(&mut sink, event);
    printed.is_ok() && sink.text() == text
}

#[test]
fn a_line_that_begins_with_black(rt: HostRuntime) {
    let mut moves = ArrayVec::new();
    moves.push(shown(Colour::White, Kind::Rook, 0, 1, Mark::Plain));
    moves.push(shown(Colour::Black, Kind::King, 63, 62, Mark::Plain));
    moves.push(shown(Colour::White, Kind::Rook, 1, 57, Mark::Mate));
    let line = Event::Line { half: 2, moves };
    assert!(rt; prints(&line, b"1...Ra1-b1 2.Kh8-g8 Rb1-b8#\n"));
}

// Thirty-two half-moves are sixteen numbered moves.
#[test]
fn the_longest_line(rt: HostRuntime) {
    let mut moves = ArrayVec::new();
    for _number in 0..16 {
        let _white = moves.try_push(shown(Colour::White, Kind::Rook, 0, 1, Mark::Plain));
        let _black = moves.try_push(shown(Colour::Black, Kind::King, 63, 62, Mark::Plain));
    }
    let line = Event::Line { half: 1, moves };
    assert!(rt;
        prints(
            &line,
            b"1.Ra1-b1 Kh8-g8 2.Ra1-b1 Kh8-g8 3.Ra1-b1 Kh8-g8 4.Ra1-b1 Kh8-g8 5.Ra1-b1 Kh8-g8 6.Ra1-b1 Kh8-g8 7.Ra1-b1 Kh8-g8 8.Ra1-b1 Kh8-g8 9.Ra1-b1 Kh8-g8 10.Ra1-b1 Kh8-g8 11.Ra1-b1 Kh8-g8 12.Ra1-b1 Kh8-g8 13.Ra1-b1 Kh8-g8 14.Ra1-b1 Kh8-g8 15.Ra1-b1 Kh8-g8 16.Ra1-b1 Kh8-g8\n"
        )
    );
}

#[test]
fn nodes(rt: HostRuntime) {
    let deep = Event::Node {
        depth: 2,
        half: 3,
        shown: shown(Colour::White, Kind::Rook, 1, 0, Mark::Mate),
    };
    assert!(rt; prints(&deep, b"    2.Rb1-a1#\n"));
    let mut reborn = shown(Colour::White, Kind::Rook, 0, 56, Mark::Plain);
    reborn.capture = true;
    let bishop = Man {
        colour: Colour::Black,
        kind: Kind::Bishop,
    };
    reborn.rebirth = Some((bishop, Square::numbered(58)));
    let key = Event::Node {
        depth: 0,
        half: 1,
        shown: reborn,
    };
    assert!(rt; prints(&key, b"1.Ra1*a8[+bBc8]\n"));
    let mut castling = shown(Colour::Black, Kind::King, 60, 58, Mark::Check);
    castling.castling = Some(Side::A);
    let answer = Event::Node {
        depth: 1,
        half: 2,
        shown: castling,
    };
    assert!(rt; prints(&answer, b"  1...0-0-0+\n"));
}
