//! Positions before a defence, compared with the plain rules.
use crate::defended::defended;
use crate::family::Family;
use crate::plain::Rule;
use crate::plain::Rule::{Circe, Madrasi, Orthodox};
use std::process::Abort;

// A name, the rule, the family, the number of its positions compared, and the least number of moves after
// which threats must rule out a mate.
const FAMILIES: [(&str, Rule, Family, u64, u32); 14] = [
    ("flights", Circe, Family::Flights, 500, 300),
    ("rebirths before mates", Circe, Family::Nets, 900, 3_000),
    ("discovered checks", Circe, Family::Batteries, 400, 1_200),
    ("batteries", Orthodox, Family::Batteries, 200, 100),
    ("kings shut in", Orthodox, Family::Nooks, 200, 20),
    (
        "castling on the king's rank",
        Orthodox,
        Family::HomeRanks,
        150,
        20,
    ),
    ("springboards", Orthodox, Family::Hurdles, 400, 1_200),
    ("reborn hurdles", Circe, Family::RebornHurdles, 500, 1_000),
    ("nightriders", Madrasi, Family::NightriderLines, 300, 1_000),
    (
        "promotions on opened lines",
        Orthodox,
        Family::OpenedLines,
        200,
        200,
    ),
    (
        "underpromotions",
        Orthodox,
        Family::Underpromotions,
        200,
        200,
    ),
    (
        "promotions to fairy men",
        Orthodox,
        Family::FairyPromotions,
        150,
        150,
    ),
    (
        "promotions on opened lines in Circe",
        Circe,
        Family::OpenedLines,
        150,
        150,
    ),
    (
        "underpromotions in Circe",
        Circe,
        Family::Underpromotions,
        100,
        100,
    ),
];

#[test]
fn defences(rt: HostRuntime) {
    for (name, rule, family, count, least) in &FAMILIES {
        let defences = defended(*rule, *family, *count);
        let (wrong, reported) = (defences.wrong, defences.reported);
        assert!(rt;
            wrong.is_none(),
            "{name}: a mate follows in number {wrong:?}"
        );
        assert!(rt;
            reported >= *least,
            "{name}: threats rule out a mate after {reported} moves"
        );
    }
}
