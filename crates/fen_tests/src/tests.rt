//! Texts and what they say.
use crate::row::{Placed, has_fields, is_read_as, is_written_again};
use chess_core::{Colour, Kind, Square};
use fen::read;

// P. Morphy, 1856: mate in two.
const MORPHY: [Placed; 7] = [
    (Square::C8, Colour::White, Kind::King),
    (Square::A1, Colour::White, Kind::Rook),
    (Square::B6, Colour::White, Kind::Pawn),
    (Square::A8, Colour::Black, Kind::King),
    (Square::B8, Colour::Black, Kind::Bishop),
    (Square::A7, Colour::Black, Kind::Pawn),
    (Square::B7, Colour::Black, Kind::Pawn),
];

// F. Saavedra, 1895: White wins.
const SAAVEDRA: [Placed; 4] = [
    (Square::B6, Colour::White, Kind::King),
    (Square::C6, Colour::White, Kind::Pawn),
    (Square::A1, Colour::Black, Kind::King),
    (Square::D5, Colour::Black, Kind::Rook),
];

// R. Réti, 1921: White draws.
const RETI: [Placed; 4] = [
    (Square::H8, Colour::White, Kind::King),
    (Square::C6, Colour::White, Kind::Pawn),
    (Square::A6, Colour::Black, Kind::King),
    (Square::H5, Colour::Black, Kind::Pawn),
];

// Men whose letters differ from Popeye's, and grasshoppers and nightriders as the page writes them.
const KINDS: [Placed; 8] = [
    (Square::A8, Colour::Black, Kind::King),
    (Square::B8, Colour::Black, Kind::Queen),
    (Square::C8, Colour::Black, Kind::Knight),
    (Square::D8, Colour::Black, Kind::Grasshopper),
    (Square::E8, Colour::Black, Kind::Nightrider),
    (Square::F1, Colour::White, Kind::Nightrider),
    (Square::G1, Colour::White, Kind::Grasshopper),
    (Square::H1, Colour::White, Kind::Knight),
];

#[test]
fn problems(rt: HostRuntime) {
    assert!(rt; is_read_as("kbK5/pp6/1P6/8/8/8/8/R7 w - -", Colour::White, &MORPHY));
    assert!(rt; is_read_as("8/8/1KP5/3r4/8/8/8/k7 w - -", Colour::White, &SAAVEDRA));
    assert!(rt; is_read_as("7K/8/k1P5/7p/8/8/8/8 w - -", Colour::White, &RETI));
    assert!(rt; is_read_as("kqng(n)3/8/8/8/8/8/8/5(N)GN b - -", Colour::Black, &KINDS));
}

// All castling squares.
const ALL: [Square; 6] = [
    Square::A1,
    Square::E1,
    Square::H1,
    Square::A8,
    Square::E8,
    Square::H8,
];

// The examples of the PGN Standard, section 16.1.4, without the last two fields: the start, and the positions
// after 1.e4 c5 2.Nf3.
#[test]
fn standard(rt: HostRuntime) {
    assert!(rt;
        has_fields(
            "rnbqkbnr/pppppppp/8/8/8/8/PPPPPPPP/RNBQKBNR w KQkq -",
            32,
            Colour::White,
            &ALL,
            None
        )
    );
    assert!(rt;
        has_fields(
            "rnbqkbnr/pppppppp/8/8/4P3/8/PPPP1PPP/RNBQKBNR b KQkq e3",
            32,
            Colour::Black,
            &ALL,
            Some(Square::E3)
        )
    );
    assert!(rt;
        has_fields(
            "rnbqkbnr/pp1ppppp/8/2p5/4P3/8/PPPP1PPP/RNBQKBNR w KQkq c6",
            32,
            Colour::White,
            &ALL,
            Some(Square::C6)
        )
    );
    assert!(rt;
        has_fields(
            "rnbqkbnr/pp1ppppp/8/2p5/4P3/5N2/PPPP1PPP/RNBQKB1R b KQkq -",
            32,
            Colour::Black,
            &ALL,
            None
        )
    );
}

// Castlings one by one: king and rook.
#[test]
fn castlings(rt: HostRuntime) {
    assert!(rt;
        has_fields(
            "4k3/8/8/8/8/8/8/4K2R w K -",
            3,
            Colour::White,
            &[Square::E1, Square::H1],
            None
        )
    );
    assert!(rt;
        has_fields(
            "4k3/8/8/8/8/8/8/R3K3 w Q -",
            3,
            Colour::White,
            &[Square::E1, Square::A1],
            None
        )
    );
    assert!(rt;
        has_fields(
            "4k2r/8/8/8/8/8/8/4K3 w k -",
            3,
            Colour::White,
            &[Square::E8, Square::H8],
            None
        )
    );
    assert!(rt;
        has_fields(
            "r3k3/8/8/8/8/8/8/4K3 w q -",
            3,
            Colour::White,
            &[Square::E8, Square::A8],
            None
        )
    );
}

// Texts that aren't FEN: ranks too short, too long, too few, too many; two numbers in a row; letters that FEN
// hasn't; fields that lack, are out of order or come twice; blanks; the two numbers of a whole FEN.
const REFUSED: [&str; 27] = [
    "",
    "8/8/8/8/8/8/8/8",
    "8/8/8/8/8/8/8/7 w - -",
    "8/8/8/8/8/8/8/7KK w - -",
    "8/8/8/8/8/8/8/9 w - -",
    "8/8/8/8/8/8/8 w - -",
    "8/8/8/8/8/8/8/8/8 w - -",
    "8/8/8/8/8/8/8/44 w - -",
    "8/8/8/8/8/8/8/80 w - -",
    "8/8/8/8/8/8/8/s7 w - -",
    "8/8/8/8/8/8/8/h7 w - -",
    "8/8/8/8/8/8/8/(k)7 w - -",
    "8/8/8/8/8/8/8/(n7 w - -",
    "88/8/8/8/8/8/8 w - -",
    "8/8/8/8/8/8/8/8  w - -",
    "8/8/8/8/8/8/8/8 W - -",
    "8/8/8/8/8/8/8/8 w",
    "8/8/8/8/8/8/8/8 w -",
    "8/8/8/8/8/8/8/8 w QK -",
    "8/8/8/8/8/8/8/8 w KK -",
    "8/8/8/8/8/8/8/8 w K- -",
    "8/8/8/8/8/8/8/8 w  -",
    "8/8/8/8/8/8/8/8 w - e9",
    "8/8/8/8/8/8/8/8 w - i3",
    "8/8/8/8/8/8/8/8 w - e",
    "8/8/8/8/8/8/8/8 w - - ",
    "8/8/8/8/8/8/8/8 w - - 0 1",
];

#[test]
fn refused(rt: HostRuntime) {
    for text in &REFUSED {
        assert!(rt; read(text.as_bytes()).is_err(), "{text}");
    }
}

// Texts in FEN's one form: the PGN Standard's, a study, one castling a side, and men in brackets.
const WRITTEN: [&str; 5] = [
    "rnbqkbnr/pppppppp/8/8/8/8/PPPPPPPP/RNBQKBNR w KQkq -",
    "rnbqkbnr/pp1ppppp/8/2p5/4P3/8/PPPP1PPP/RNBQKBNR w KQkq c6",
    "8/8/1KP5/3r4/8/8/8/k7 w - -",
    "r3k3/8/8/8/8/8/8/4K2R b Kq -",
    "kqng(n)3/8/8/8/8/8/8/5(N)GN b - -",
];

#[test]
fn written(rt: HostRuntime) {
    for text in &WRITTEN {
        assert!(rt; is_written_again(rt.alloc(), text), "{text}");
    }
}
