//! Defences after which the king keeps a flight, compared with the plain rules.
use crate::escaped::kept_flights;
use crate::family::Family;
use crate::plain::Rule;
use crate::plain::Rule::{Madrasi, Orthodox};
use std::process::Abort;

// A name, the rule, the family, the number of its positions compared, and the least number of men that
// the filter must report to have a safe defence.
const FAMILIES: [(&str, Rule, Family, u64, u32); 6] = [
    ("pinned men", Orthodox, Family::Pins, 60, 6),
    ("castling", Orthodox, Family::Castling, 60, 6),
    ("kings in check", Orthodox, Family::KingSteps, 60, 6),
    ("promotions", Orthodox, Family::Underpromotions, 60, 6),
    ("en passant", Orthodox, Family::EnPassant, 60, 6),
    ("paralysed men", Madrasi, Family::Paralysis, 60, 6),
];

#[test]
fn escape_by_kept_flights(rt: HostRuntime) {
    for (name, rule, family, count, least) in &FAMILIES {
        let defended = kept_flights(*rule, *family, *count);
        let (wrong, removed) = (defended.wrong, defended.removed);
        assert!(rt;
            wrong.is_none(),
            "{name}: a man in number {wrong:?} has no safe defence"
        );
        assert!(rt;
            removed >= *least,
            "{name}: {removed} men have a safe defence"
        );
    }
}
