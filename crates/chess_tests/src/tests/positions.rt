//! Single moves whose outcome is known: castling, en passant, promotion, rebirth and paralysis.
use crate::plain::Rule;
use crate::probe::{Outcome, has_outcome, leads_in_circe_and_back};

// The rules, the position, a move, and its outcome.
const OUTCOMES: [(Rule, &str, &str, Outcome); 12] = [
    (
        Rule::Orthodox,
        "4R1R1/8/8/8/8/5k2/8/4K2R e1 h1",
        "e1g1",
        Outcome::Mate,
    ),
    (
        Rule::Orthodox,
        "4R1R1/8/8/8/8/5k2/8/4K2R e1 h1",
        "h1f1",
        Outcome::Mate,
    ),
    // The grasshopper would hop over the king's square to f1.
    (
        Rule::Orthodox,
        "4R1R1/8/8/8/8/5k2/8/3gK2R e1 h1",
        "e1g1",
        Outcome::Illegal,
    ),
    (
        Rule::Orthodox,
        "4R1R1/8/8/8/8/5k2/8/3gK2R e1 h1",
        "h1f1",
        Outcome::Legal,
    ),
    // En passant is possible only right after the double step.
    (
        Rule::Orthodox,
        "7k/8/6K1/3pP3/8/1B6/8/B7",
        "e5d6",
        Outcome::Illegal,
    ),
    (
        Rule::Orthodox,
        "7k/8/6K1/3pP3/8/1B6/8/B7 d6",
        "e5d6",
        Outcome::Mate,
    ),
    // A pawn may promote to a nightrider if one is on the board.
    (
        Rule::Orthodox,
        "n7/4P3/8/8/8/7p/5K1k/7b",
        "e7e8N",
        Outcome::Mate,
    ),
    (
        Rule::Orthodox,
        "8/4P3/8/8/8/7p/5K1k/7b",
        "e7e8N",
        Outcome::Illegal,
    ),
    // Captured on a8, a light square, the bishop is reborn on c8 and blocks the line; the rook's home
    // square is a8 itself.
    (Rule::Circe, "b5k1/8/6K1/8/8/8/8/R7", "a1a8", Outcome::Legal),
    (Rule::Circe, "r5k1/8/6K1/8/8/8/8/R7", "a1a8", Outcome::Mate),
    // Enemy rooks that attack each other are paralysed.
    (
        Rule::Madrasi,
        "6k1/8/6K1/8/8/8/8/R6r",
        "a1a8",
        Outcome::Illegal,
    ),
    (
        Rule::Orthodox,
        "6k1/8/6K1/8/8/8/8/R6r",
        "a1a8",
        Outcome::Mate,
    ),
];

// A position, a move, and the position to which it leads in Circe; taking it back restores the first.
const REBIRTHS: [(&str, &str, &str); 2] = [
    // The pawn captured en passant on d5 is reborn on d7.
    (
        "7k/8/6K1/3pP3/8/1B6/8/B7 d6",
        "e5d6",
        "7k/3p4/3P2K1/8/8/1B6/8/B7 b",
    ),
    // The rook captured on b3 is reborn on h1, with castling rights.
    (
        "1r2k3/8/8/8/8/1R6/8/4K3 e1 e8 b",
        "b8b3",
        "4k3/8/8/8/8/1r6/8/4K2R e1 e8 h1",
    ),
];

#[test]
fn outcomes(rt: HostRuntime) {
    for (rule, position, m, wanted) in &OUTCOMES {
        assert!(rt;
            has_outcome(*rule, position, m, *wanted),
            "{m} in {position}"
        );
    }
}

#[test]
fn rebirths(rt: HostRuntime) {
    for (position, m, wanted) in &REBIRTHS {
        assert!(rt;
            leads_in_circe_and_back(position, m, wanted),
            "{m} in {position}"
        );
    }
}
