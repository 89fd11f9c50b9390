//! All moves of positions, compared with the plain rules.
use crate::agreement::compare;
use crate::plain::Rule;

// A position, a length in moves, and the number of positions fewer moves away.
const ORTHODOX: [(&str, u32, u64); 3] = [
    (
        "rsbqkbsr/pppppppp/8/8/8/8/PPPPPPPP/RSBQKBSR a1 e1 h1 a8 e8 h8",
        3,
        421,
    ),
    (
        "r3k2r/p1ppqpb1/bs2psp1/3PS3/1p2P3/2S2Q1p/PPPBBPPP/R3K2R a1 e1 h1 a8 e8 h8",
        2,
        49,
    ),
    (
        "r3k2r/Pppp1ppp/1b3sbS/sP6/BBP1P3/q4S2/Pp1P2PP/R2Q1RK1 a8 e8 h8",
        3,
        271,
    ),
];

// The rules, and a position with fairy men.
const FAIRY: [(Rule, &str); 5] = [
    (
        Rule::Orthodox,
        "r3k2r/P2g3n/8/2pP4/3N1q2/1b4G1/6p1/R3K2R a1 e1 h1 a8 e8 h8 c6",
    ),
    (
        Rule::Circe,
        "r3k2r/P2g3n/8/2pP4/3N1q2/1b4G1/6p1/R3K2R a1 e1 h1 a8 e8 h8 c6",
    ),
    (
        Rule::Madrasi,
        "r3k2r/P2g3n/8/2pP4/3N1q2/1b4G1/6p1/R3K2R a1 e1 h1 a8 e8 h8 c6",
    ),
    (
        Rule::Circe,
        "r3k2r/P2g3n/8/2pP4/3N1q2/1b4G1/6p1/R3K2R a1 e1 h1 a8 e8 h8 b",
    ),
    (
        Rule::Madrasi,
        "r3k2r/P2g3n/8/2pP4/3N1q2/1b4G1/6p1/R3K2R a1 e1 h1 a8 e8 h8 b",
    ),
];

#[test]
fn orthodox_positions_agree(rt: HostRuntime) {
    for (position, length, wanted) in &ORTHODOX {
        let Some(tally) = compare(Rule::Orthodox, position, *length) else {
            assert!(rt; false, "{position} is well formed");
            return;
        };
        let as_wanted = tally.positions == *wanted && tally.unlike == 0;
        assert!(rt; as_wanted, "{position}");
    }
}

#[test]
fn fairy_positions_agree(rt: HostRuntime) {
    for (rule, position) in &FAIRY {
        let unlike = match compare(*rule, position, 2) {
            Some(tally) => tally.unlike,
            None => 1,
        };
        assert!(rt; unlike == 0, "{position}");
    }
}
