//! Searches on small positions, compared with the plain solver.
use crate::row::agrees;

/// Small positions with all kinds of men, castling, promotions and en passant.
const POSITIONS: [&str; 10] = [
    "White Kc7 Rb2 Black Ka8",
    "White Kg6 Ra1 Black Kh8",
    "White Kg6 Ba1 Bb3 Pe5 Black Kh8 Pd5",
    "White Kf7 Pg6 Black Kh8 Pa2",
    "White Ka1 Re8 Ph6 Black Kh8 Bg8 Ph7 Pa2a3b3",
    "White Ke1 Rh1 Qd2 Black Kf3 Sg4",
    "White Kf6 Bb3 Pg5 Ge3 Black Kh8 Ph7",
    "White Kg6 Na3 Rb7 Black Kh8 Ra8 Pb2",
    "White Kc6 Pb6a7 Black Ka8 Rb8",
    "White Kg6 Qe4 Black Kg8 Sf8 Bc8",
];

/// Stipulations, with the words after them.
const STIPULATIONS: [(&str, &str); 38] = [
    ("#1", ""),
    ("#1", "Option SetPlay Variation"),
    ("#1", "Condition Circe"),
    ("#1", "Condition Madrasi Option SetPlay"),
    ("#2", ""),
    ("#2", "Option SetPlay Variation"),
    ("#2", "Option SetPlay MaxSolutions 2"),
    ("#2", "Condition Circe Option Variation"),
    ("s#1", ""),
    ("s#1", "Option SetPlay Variation"),
    ("s#1", "Condition Circe Option SetPlay Variation"),
    ("h#0.5", "Option SetPlay"),
    ("h#0.5", "Condition Circe Option MaxSolutions 3"),
    ("h#0.5", "Condition Madrasi Option SetPlay"),
    ("h#1", "Option SetPlay"),
    ("h#1", "Condition Circe Option MaxSolutions 3"),
    ("h#1", "Condition Madrasi Option SetPlay"),
    ("h#1.5", "Option SetPlay"),
    ("h#1.5", "Condition Circe Option MaxSolutions 3"),
    ("h#1.5", "Condition Madrasi Option SetPlay"),
    ("h#2", "Option MaxSolutions 5"),
    // In a stalemate problem either king may be missing.
    ("=1", "Option SetPlay Variation"),
    ("=1", "Condition Circe Option SetPlay MaxSolutions 3"),
    ("=1", "Condition Madrasi"),
    ("s=1", "Option SetPlay Variation"),
    ("s=1", "Condition Circe Option SetPlay MaxSolutions 3"),
    ("s=1", "Condition Madrasi"),
    ("h=0.5", "Option SetPlay Variation"),
    ("h=0.5", "Condition Circe Option SetPlay MaxSolutions 3"),
    ("h=0.5", "Condition Madrasi"),
    ("h=1", "Option SetPlay Variation"),
    ("h=1", "Condition Circe Option SetPlay MaxSolutions 3"),
    ("h=1", "Condition Madrasi"),
    ("h=1.5", "Option SetPlay Variation"),
    ("h=1.5", "Condition Circe Option SetPlay MaxSolutions 3"),
    ("h=1.5", "Condition Madrasi"),
    ("=2", "Option Variation MaxSolutions 4"),
    ("h=2", "Option MaxSolutions 5"),
];

/// Men with longer stipulations. The positions for stalemate have pawns that block each other, or no kings.
const LONGER: [(&str, [&str; 4]); 6] = [
    ("White Kc7 Rb2 Black Ka8", ["#3", "s#2", "h#2", "h#2.5"]),
    ("White Kg6 Ra1 Black Kh8", ["#3", "s#2", "h#2", "h#2.5"]),
    (
        "White Kc6 Pb6a7 Black Ka8 Rb8",
        ["#3", "s#2", "h#2", "h#2.5"],
    ),
    ("White Ra5 Black Pa7", ["=3", "s=2", "h=2", "h=2.5"]),
    ("White Pa4 Black Kh8 Pa7", ["=3", "s=2", "h=2", "h=2.5"]),
    ("White Kf5 Pf6 Black Kg8", ["=3", "s=2", "h=2", "h=2.5"]),
];

// At least six of the ten positions are sound under each stipulation.
#[test]
fn short_problems(rt: HostRuntime) {
    for (stipulation, rest) in &STIPULATIONS {
        let mut sound = 0u32;
        for men in &POSITIONS {
            if let Some(agreed) = agrees(men, stipulation, rest) {
                assert!(rt; agreed, "{men} {stipulation} {rest}");
                sound = sound.saturating_add(1);
            }
        }
        assert!(rt; sound >= 6, "{sound} sound: {stipulation} {rest}");
    }
}

#[test]
fn longer_problems(rt: HostRuntime) {
    for (men, stipulations) in &LONGER {
        for stipulation in stipulations {
            let agreed = agrees(men, stipulation, "Option SetPlay Variation") == Some(true);
            assert!(rt; agreed, "{men} {stipulation}");
        }
    }
}
