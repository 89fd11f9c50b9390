//! Small positions whose legal moves or mates are worked out by hand.
use crate::plain::Rule;
use crate::probe::{has_mates, has_moves, has_seen_step, is_ruled_safe};

// The rules, the position, and White's legal moves.
const LEGAL_MOVES: [(Rule, &str, &str); 28] = [
    // The rook on e2 is pinned by the rook on e8: it moves along the file only, up to the capture. The
    // king has all squares next to it except on the file.
    (
        Rule::Orthodox,
        "k3r3/8/8/8/8/8/4R3/4K3",
        "e1d1 e1f1 e1d2 e1f2 e2e3 e2e4 e2e5 e2e6 e2e7 e2e8",
    ),
    // In Circe the captured rook would be reborn on a8 (e8 is light), where the king is: it disappears.
    (
        Rule::Circe,
        "k3r3/8/8/8/8/8/4R3/4K3",
        "e1d1 e1f1 e1d2 e1f2 e2e3 e2e4 e2e5 e2e6 e2e7 e2e8",
    ),
    // In Madrasi the rooks paralyse each other, and neither moves.
    (
        Rule::Madrasi,
        "k3r3/8/8/8/8/8/4R3/4K3",
        "e1d1 e1f1 e1d2 e1f2",
    ),
    // The en passant capture removes both pawns from the rank, and the rook on h5 would attack the king on
    // a5. The black pawn guards b4. In Circe the pawn is reborn on c7, off the rank.
    (
        Rule::Orthodox,
        "7k/8/8/KPp4r/8/8/8/8 c6",
        "a5a4 a5a6 a5b6 b5b6",
    ),
    (
        Rule::Circe,
        "7k/8/8/KPp4r/8/8/8/8 c6",
        "a5a4 a5a6 a5b6 b5b6",
    ),
    (
        Rule::Madrasi,
        "7k/8/8/KPp4r/8/8/8/8 c6",
        "a5a4 a5a6 a5b6 b5b6",
    ),
    // The pawn that has just passed e6 gives check: it may be captured en passant, though e6 is neither its
    // square nor between it and the king. The step to d6 doesn't parry the check.
    (
        Rule::Orthodox,
        "7k/8/8/3Pp3/3K4/8/8/8 e6",
        "d4c3 d4d3 d4e3 d4c4 d4e4 d4c5 d4e5 d5e6",
    ),
    (
        Rule::Circe,
        "7k/8/8/3Pp3/3K4/8/8/8 e6",
        "d4c3 d4d3 d4e3 d4c4 d4e4 d4c5 d4e5 d5e6",
    ),
    // The square f1 is attacked, so the king can't castle across it; b1 is attacked too, but only the rook
    // passes it.
    (
        Rule::Orthodox,
        "1r3r2/6k1/8/8/8/8/8/R3K2R a1 e1 h1",
        "a1b1 a1c1 a1d1 a1a2 a1a3 a1a4 a1a5 a1a6 a1a7 a1a8 e1c1 e1d1 e1d2 e1e2 h1f1 h1g1 h1h2 h1h3 h1h4 h1h5 h1h6 h1h7 h1h8",
    ),
    (
        Rule::Circe,
        "1r3r2/6k1/8/8/8/8/8/R3K2R a1 e1 h1",
        "a1b1 a1c1 a1d1 a1a2 a1a3 a1a4 a1a5 a1a6 a1a7 a1a8 e1c1 e1d1 e1d2 e1e2 h1f1 h1g1 h1h2 h1h3 h1h4 h1h5 h1h6 h1h7 h1h8",
    ),
    // The square c1 is attacked, so the king can't castle to it; in the next position the king is in check
    // and can't castle.
    (
        Rule::Orthodox,
        "2r5/6k1/8/8/8/8/8/R3K2R a1 e1 h1",
        "a1b1 a1c1 a1d1 a1a2 a1a3 a1a4 a1a5 a1a6 a1a7 a1a8 e1d1 e1f1 e1g1 e1d2 e1e2 e1f2 h1f1 h1g1 h1h2 h1h3 h1h4 h1h5 h1h6 h1h7 h1h8",
    ),
    (
        Rule::Orthodox,
        "4r3/6k1/8/8/8/8/8/R3K2R a1 e1 h1",
        "e1d1 e1f1 e1d2 e1f2",
    ),
    // The rook on a8 checks along the last rank, and the pawn blocks the line by any promotion.
    (
        Rule::Orthodox,
        "r6K/4P3/8/8/8/2k5/8/8",
        "e7e8Q e7e8R e7e8B e7e8S h8g7 h8h7",
    ),
    (
        Rule::Madrasi,
        "r6K/4P3/8/8/8/2k5/8/8",
        "e7e8Q e7e8R e7e8B e7e8S h8g7 h8h7",
    ),
    // Rook and bishop give double check: neither queen nor pawn can parry both, and d2 and e2 are on their
    // lines.
    (Rule::Orthodox, "4r2k/8/8/b7/8/8/2P5/3QK3", "e1f1 e1f2"),
    (Rule::Circe, "4r2k/8/8/b7/8/8/2P5/3QK3", "e1f1 e1f2"),
    // The king can't move along the rook's rank, not even to f4, which the king itself masks.
    (
        Rule::Orthodox,
        "k7/8/8/8/r3K3/8/8/8",
        "e4d3 e4e3 e4f3 e4d5 e4e5 e4f5",
    ),
    // The grasshopper on a5 attacks e5 over the king on d5. Once the king is on e5 it is no hurdle any
    // more, so it may go there; c5 isn't attacked.
    (
        Rule::Orthodox,
        "8/8/8/g2K4/8/8/8/7k",
        "d5c4 d5d4 d5e4 d5c5 d5e5 d5c6 d5d6 d5e6",
    ),
    // The rook may not go to c5, where the grasshopper on a5 would hop over it to the king's square. It may
    // pass c5.
    (
        Rule::Orthodox,
        "8/8/8/g2K4/8/8/7k/2R5",
        "c1a1 c1b1 c1d1 c1e1 c1f1 c1g1 c1h1 c1c2 c1c3 c1c4 c1c6 c1c7 c1c8 d5c4 d5d4 d5e4 d5c5 d5e5 d5c6 d5d6 d5e6",
    ),
    // The grasshopper on a5 hops over the bishop on b5 to c5. Without the bishop it would hop over the rook
    // to the king, so the bishop can't move. The rook may.
    (
        Rule::Orthodox,
        "8/8/8/gBRK4/8/8/7k/8",
        "c5c1 c5c2 c5c3 c5c4 c5c6 c5c7 c5c8 d5c4 d5d4 d5e4 d5e5 d5c6 d5d6 d5e6",
    ),
    // The nightrider on b7 rides via c5 and d3 to e1. A rook on c5 is pinned and can't stay on that line; a
    // rook on h5 may block it on c5.
    (
        Rule::Orthodox,
        "7k/1n6/8/2R5/8/8/8/4K3",
        "e1d1 e1f1 e1d2 e1e2 e1f2",
    ),
    (
        Rule::Orthodox,
        "k7/1n6/8/7R/8/8/8/4K3",
        "e1d1 e1f1 e1d2 e1e2 e1f2 h5c5",
    ),
    // Without a king, nothing is pinned.
    (
        Rule::Orthodox,
        "4r3/7k/8/8/8/8/4R3/8",
        "e2e1 e2a2 e2b2 e2c2 e2d2 e2f2 e2g2 e2h2 e2e3 e2e4 e2e5 e2e6 e2e7 e2e8",
    ),
    // Captured on b7, a light square, the rook would be reborn on a8 and check the king on d8.
    (
        Rule::Circe,
        "3K4/1r6/8/8/8/5B2/7k/8",
        "f3d1 f3h1 f3e2 f3g2 f3e4 f3g4 f3d5 f3h5 f3c6 d8c8 d8e8",
    ),
    (
        Rule::Orthodox,
        "3K4/1r6/8/8/8/5B2/7k/8",
        "f3d1 f3h1 f3e2 f3g2 f3e4 f3g4 f3d5 f3h5 f3c6 f3b7 d8c8 d8e8",
    ),
    // The rooks on a8 and e8 paralyse each other, so the rook on e8 doesn't check. A bishop on c8 would
    // free it.
    (
        Rule::Madrasi,
        "R3r3/7k/8/8/8/7B/8/4K3",
        "e1d1 e1f1 e1d2 e1e2 e1f2 h3f1 h3g2 h3g4 h3f5 h3e6 h3d7",
    ),
    // The bishop on b4 checks. From f8 the white bishop attacks it, so that it is paralysed; on d2 it
    // blocks the line as well.
    (
        Rule::Madrasi,
        "7k/8/7B/8/1b6/8/8/4K3",
        "e1d1 e1f1 e1e2 e1f2 h6d2 h6f8",
    ),
    (
        Rule::Orthodox,
        "7k/8/7B/8/1b6/8/8/4K3",
        "e1d1 e1f1 e1e2 e1f2 h6d2",
    ),
];

// The rules, the position, and White's mating moves.
const MATES: [(Rule, &str, &str); 11] = [
    // On c8, d8 and e8 the queen checks and leaves h7, on h3 it leaves g8, and on h7 the king takes it. On
    // g7 it is guarded and attacks both.
    (Rule::Orthodox, "7k/3Q4/5K2/8/8/8/8/8", "d7g7"),
    // A side without a king isn't mated.
    (Rule::Orthodox, "r7/8/6K1/8/8/8/8/R7", ""),
    // After the rook's capture on h7 the king flees to g8. In Circe the knight, captured on a light square,
    // is reborn there: mate. After Rd8 the knight goes to f8.
    (Rule::Orthodox, "7k/3R3s/6K1/8/8/8/8/8", ""),
    (Rule::Circe, "7k/3R3s/6K1/8/8/8/8/8", "d7h7"),
    // Castling and the rook's move confine the king on f3 between the rooks' files: both mate.
    (
        Rule::Orthodox,
        "4R1R1/8/8/8/8/5k2/8/4K2R e1 h1",
        "e1g1 h1f1",
    ),
    // The castling rook checks along the rank, across the square that the king left; the other rook guards
    // the second rank. A step by the king to the second rank would block that rook.
    (Rule::Orthodox, "8/8/8/8/8/8/7R/k3K2R e1 h1", "e1g1"),
    (Rule::Circe, "8/8/8/8/8/8/R7/R3K2k a1 e1", "e1c1"),
    (Rule::Madrasi, "8/8/8/8/8/8/R7/R3K2k a1 e1", "e1c1"),
    // The en passant capture opens the diagonal from a1 to h8, and the bishop on b3 then attacks g8.
    (Rule::Orthodox, "7k/8/6K1/3pP3/8/1B6/8/B7 d6", "e5d6"),
    (Rule::Circe, "7k/8/6K1/3pP3/8/1B6/8/B7 d6", "e5d6"),
    // Queen and rook check along the last rank and attack g8; bishop and knight don't check.
    (Rule::Orthodox, "7k/5P2/6K1/8/8/8/8/8", "f7f8Q f7f8R"),
];

// The rules, a position with Black to move, a legal move, and whether threats rule out a mate after it.
const HARMLESS: [(Rule, &str, &str, bool); 17] = [
    // A rook controls one file or one rank, and the king has other flights.
    (Rule::Orthodox, "8/8/8/3k4/8/8/8/K6R b", "d5e5", true),
    (Rule::Circe, "8/8/8/3k4/8/8/8/K6R b", "d5e5", true),
    (Rule::Madrasi, "8/8/8/3k4/8/8/8/K6R b", "d5e5", true),
    // The rook may give check by capturing the knight, but the king keeps a flight. Threats don't look for
    // this in Circe.
    (Rule::Orthodox, "8/8/3k4/8/K7/1s6/3R4/8 b", "b3d4", true),
    (Rule::Circe, "8/8/3k4/8/K7/1s6/3R4/8 b", "b3d4", false),
    // The rook mates on h8.
    (Rule::Orthodox, "k7/8/1K6/8/8/8/8/7R b", "a8b8", false),
    // Threats say nothing about castling.
    (
        Rule::Orthodox,
        "r3k3/8/8/8/8/8/8/K6R a8 e8 b",
        "e8c8",
        false,
    ),
    // The pawn may promote to a queen with check, which leaves flights.
    (Rule::Orthodox, "8/P7/8/4k3/8/8/8/K7 b", "e5e4", true),
    (Rule::Orthodox, "8/8/P7/4k3/8/8/8/K7 b", "e5e4", true),
    // The pawn opens its own line: promoted to queen or rook it mates along the file.
    (Rule::Orthodox, "2R5/p2P4/8/8/8/8/5K2/3k4 b", "a7a6", false),
    // Only promotion to a knight mates.
    (Rule::Orthodox, "6br/p4P1k/7p/8/8/8/8/B1K5 b", "a7a6", false),
    // A grasshopper reaches few squares next to the king.
    (Rule::Orthodox, "8/8/8/4k3/8/8/8/K6G b", "e5e4", true),
    // The king takes the last man; or a man takes the rook, and may be taken itself. Threats say nothing
    // about captures in Circe.
    (Rule::Orthodox, "8/8/8/3k4/4R3/8/8/K7 b", "d5e4", true),
    (Rule::Circe, "8/8/8/3k4/4R3/8/8/K7 b", "d5e4", false),
    (Rule::Orthodox, "8/8/8/3k4/8/2s5/8/KR6 b", "c3b1", true),
    (Rule::Circe, "8/8/8/3k4/8/2s5/8/KR6 b", "c3b1", false),
    // The pawn may go where the king was; the king takes it or goes elsewhere.
    (Rule::Orthodox, "8/8/8/4k3/4P3/8/8/K7 b", "e5d4", true),
];

// The rules, a position with White to move, a legal move, and whether `QuietSteps` sees a quiet step of
// Black's king after it.
const QUIET_STEPS: [(Rule, &str, &str, bool); 11] = [
    // The king steps to b8, unless the rook reaches it there.
    (Rule::Orthodox, "k7/8/1K6/8/8/8/8/7R", "h1h2", true),
    (Rule::Madrasi, "k7/8/1K6/8/8/8/8/7R", "h1h2", true),
    (Rule::Orthodox, "k7/8/1K6/8/8/8/8/7R", "h1h8", false),
    // The first step, to a6, opens the bishop's line to h1.
    (Rule::Orthodox, "b7/1k6/8/8/8/8/P7/7K", "a2a3", false),
    (Rule::Orthodox, "b7/1k6/8/8/8/8/P7/6K1", "a2a3", true),
    // White's king comes onto that line, or leaves it.
    (Rule::Orthodox, "b7/1k6/8/8/8/8/7K/8", "h2h1", false),
    (Rule::Orthodox, "b7/1k6/8/8/8/8/8/7K", "h1g1", true),
    // The king captures the pawn that arrives next to it.
    (Rule::Orthodox, "k7/8/1P6/8/8/8/8/7K", "b6b7", true),
    // `QuietSteps` says nothing about captures in Circe, since men are reborn.
    (Rule::Orthodox, "k7/8/8/8/8/8/7p/K6R", "h1h2", true),
    (Rule::Circe, "k7/8/8/8/8/8/7p/K6R", "h1h2", false),
    // `QuietSteps` doesn't look for a step that only the move makes possible.
    (Rule::Orthodox, "k1K5/8/8/8/8/8/8/6B1", "g1h2", false),
];

#[test]
fn quiet_steps(rt: HostRuntime) {
    for (rule, position, m, wanted) in &QUIET_STEPS {
        assert!(rt;
            has_seen_step(*rule, position, m, *wanted),
            "{position} {m}"
        );
    }
}

#[test]
fn harmless_moves(rt: HostRuntime) {
    for (rule, position, m, wanted) in &HARMLESS {
        assert!(rt;
            is_ruled_safe(*rule, position, m, *wanted),
            "{position} {m}"
        );
    }
}

#[test]
fn legal_moves(rt: HostRuntime) {
    for (rule, position, wanted) in &LEGAL_MOVES {
        assert!(rt; has_moves(*rule, position, wanted), "{position}");
    }
}

#[test]
fn mates(rt: HostRuntime) {
    for (rule, position, wanted) in &MATES {
        assert!(rt; has_mates(*rule, position, wanted), "{position}");
    }
}
