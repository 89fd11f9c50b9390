//! Counts of lines of moves on which published move generators agree (perft), and boards restored along
//! these lines.
use crate::count::walk_lines;
use crate::plain::Rule;

// A position, a length in moves, and the number of lines of this length.
const COUNTS: [(&str, u32, u64); 12] = [
    // The initial position of the game.
    (
        "rsbqkbsr/pppppppp/8/8/8/8/PPPPPPPP/RSBQKBSR a1 e1 h1 a8 e8 h8",
        1,
        20,
    ),
    (
        "rsbqkbsr/pppppppp/8/8/8/8/PPPPPPPP/RSBQKBSR a1 e1 h1 a8 e8 h8",
        2,
        400,
    ),
    (
        "rsbqkbsr/pppppppp/8/8/8/8/PPPPPPPP/RSBQKBSR a1 e1 h1 a8 e8 h8",
        3,
        8_902,
    ),
    // A full board.
    (
        "r3k2r/p1ppqpb1/bs2psp1/3PS3/1p2P3/2S2Q1p/PPPBBPPP/R3K2R a1 e1 h1 a8 e8 h8",
        1,
        48,
    ),
    (
        "r3k2r/p1ppqpb1/bs2psp1/3PS3/1p2P3/2S2Q1p/PPPBBPPP/R3K2R a1 e1 h1 a8 e8 h8",
        2,
        2_039,
    ),
    // An attacked square between king and rook.
    ("4kr2/8/8/8/8/8/8/4K2R e1 h1 e8", 1, 12),
    // Rooks and pawns.
    ("8/2p5/3p4/KP5r/1R3p1k/8/4P1P1/8", 1, 14),
    ("8/2p5/3p4/KP5r/1R3p1k/8/4P1P1/8", 2, 191),
    // A check from a distance.
    (
        "r3k2r/Pppp1ppp/1b3sbS/sP6/BBP1P3/q4S2/Pp1P2PP/R2Q1RK1 a8 e8 h8",
        1,
        6,
    ),
    (
        "r3k2r/Pppp1ppp/1b3sbS/sP6/BBP1P3/q4S2/Pp1P2PP/R2Q1RK1 a8 e8 h8",
        2,
        264,
    ),
    // A pawn one step before promotion.
    (
        "rsbq1k1r/pp1Pbppp/2p5/8/2B5/8/PPP1SsPP/RSBQK2R a1 e1 h1",
        1,
        44,
    ),
    (
        "rsbq1k1r/pp1Pbppp/2p5/8/2B5/8/PPP1SsPP/RSBQK2R a1 e1 h1",
        2,
        1_486,
    ),
];

// A position, a length in moves, and the number of castlings among the last moves: the initial position,
// a full board, a check from a distance.
const CASTLINGS: [(&str, u32, u64); 4] = [
    (
        "rsbqkbsr/pppppppp/8/8/8/8/PPPPPPPP/RSBQKBSR a1 e1 h1 a8 e8 h8",
        3,
        0,
    ),
    (
        "r3k2r/p1ppqpb1/bs2psp1/3PS3/1p2P3/2S2Q1p/PPPBBPPP/R3K2R a1 e1 h1 a8 e8 h8",
        1,
        2,
    ),
    (
        "r3k2r/p1ppqpb1/bs2psp1/3PS3/1p2P3/2S2Q1p/PPPBBPPP/R3K2R a1 e1 h1 a8 e8 h8",
        2,
        91,
    ),
    (
        "r3k2r/Pppp1ppp/1b3sbS/sP6/BBP1P3/q4S2/Pp1P2PP/R2Q1RK1 a8 e8 h8",
        2,
        6,
    ),
];

// Positions whose boards must be restored along two moves.
const TAKEN_BACK: [(Rule, &str); 4] = [
    (Rule::Circe, "7k/8/6K1/3pP3/8/1B6/8/B7 d6"),
    (Rule::Circe, "b5k1/8/6K1/8/8/8/8/R7"),
    (Rule::Circe, "r5k1/8/6K1/8/8/8/8/R7"),
    (Rule::Madrasi, "6k1/8/6K1/8/8/8/8/R6r"),
];

#[test]
fn counts(rt: HostRuntime) {
    for (position, length, wanted) in &COUNTS {
        let Some(walk) = walk_lines(Rule::Orthodox, position, *length) else {
            assert!(rt; false, "{position} is well formed");
            return;
        };
        let as_wanted = walk.lines == *wanted && walk.changed == 0;
        assert!(rt; as_wanted, "{length} moves from {position}");
    }
}

// In orthodox chess only castlings must be played to know that they are legal.
#[test]
fn only_castlings_are_played(rt: HostRuntime) {
    for (position, length, wanted) in &CASTLINGS {
        let played = match walk_lines(Rule::Orthodox, position, *length) {
            Some(walk) => walk.played,
            None => u64::MAX,
        };
        assert!(rt; played == *wanted, "{length} moves from {position}");
    }
}

#[test]
fn boards_are_restored_under_conditions(rt: HostRuntime) {
    for (rule, position) in &TAKEN_BACK {
        let changed = match walk_lines(*rule, position, 2) {
            Some(walk) => walk.changed,
            None => 1,
        };
        assert!(rt; changed == 0, "{position}");
    }
}
