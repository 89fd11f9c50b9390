//! Families of positions, compared with the plain rules.
use crate::family::Family;
use crate::motif::Motif;
use crate::plain::Rule;
use crate::survey::surveyed;
use chess_core::Kind;
use std::process::Abort;

// A name, the rules, the family, the number of its positions compared, the motifs, and the least number
// of moves that must show each motif.
type Row<'a> = (&'a str, &'a [Rule], Family, u64, &'a [Motif], u32);

const EACH: [Rule; 3] = [Rule::Orthodox, Rule::Circe, Rule::Madrasi];

// Pinned men, discovered checks and double checks.
const LINES: [Row<'static>; 3] = [
    (
        "pinned men",
        &EACH,
        Family::Pins,
        500,
        &[
            Motif::Exposes(Kind::King),
            Motif::Exposes(Kind::Queen),
            Motif::Exposes(Kind::Rook),
            Motif::Exposes(Kind::Bishop),
            Motif::Exposes(Kind::Knight),
            Motif::Exposes(Kind::Pawn),
            Motif::Exposes(Kind::Grasshopper),
            Motif::Exposes(Kind::Nightrider),
            Motif::ExposedTo(Kind::Queen),
            Motif::ExposedTo(Kind::Rook),
            Motif::ExposedTo(Kind::Bishop),
            Motif::ExposedTo(Kind::Nightrider),
        ],
        10,
    ),
    (
        "discovered checks",
        &EACH,
        Family::Batteries,
        500,
        &[
            Motif::Uncovers(Kind::King),
            Motif::Uncovers(Kind::Queen),
            Motif::Uncovers(Kind::Rook),
            Motif::Uncovers(Kind::Bishop),
            Motif::Uncovers(Kind::Knight),
            Motif::Uncovers(Kind::Pawn),
            Motif::Uncovers(Kind::Grasshopper),
            Motif::Uncovers(Kind::Nightrider),
            Motif::UncoveredBy(Kind::Queen),
            Motif::UncoveredBy(Kind::Rook),
            Motif::UncoveredBy(Kind::Bishop),
            Motif::UncoveredBy(Kind::Nightrider),
        ],
        5,
    ),
    (
        "double checks",
        &EACH,
        Family::DoubleChecks,
        500,
        &[Motif::DoubleCheck, Motif::InDoubleCheck, Motif::Mates],
        50,
    ),
];

// En passant captures and promotions.
const PAWNS: [Row<'static>; 2] = [
    (
        "en passant",
        &EACH,
        Family::EnPassant,
        1_500,
        &[
            Motif::EnPassant,
            Motif::EnPassantOpensRank,
            Motif::EnPassantOpensLine,
            Motif::EnPassantParries,
            Motif::EnPassantUncovers,
            Motif::EnPassantMates,
        ],
        5,
    ),
    (
        "promotions",
        &EACH,
        Family::Promotions,
        600,
        &[
            Motif::PromotionChecks(Kind::Queen),
            Motif::PromotionChecks(Kind::Rook),
            Motif::PromotionChecks(Kind::Bishop),
            Motif::PromotionChecks(Kind::Knight),
            Motif::PromotionChecks(Kind::Grasshopper),
            Motif::PromotionChecks(Kind::Nightrider),
            Motif::PromotionMates(Kind::Queen),
            Motif::PromotionMates(Kind::Rook),
            Motif::PromotionParries,
            Motif::Exposes(Kind::Pawn),
            Motif::Mates,
        ],
        3,
    ),
];

// Kings that castle, flee, are mated or are missing.
const KINGS: [Row<'static>; 7] = [
    (
        "castling",
        &EACH,
        Family::Castling,
        500,
        &[
            Motif::Castles,
            Motif::CastlingChecks,
            Motif::CastlingFromCheck,
            Motif::CastlingAcross,
            Motif::CastlingInto,
            Motif::CastlingMates,
        ],
        10,
    ),
    (
        "castling along the rank",
        &EACH,
        Family::HomeRanks,
        300,
        &[Motif::Castles, Motif::CastlingChecks, Motif::CastlingMates],
        20,
    ),
    (
        "steps along a line",
        &EACH,
        Family::KingSteps,
        500,
        &[
            Motif::StepsAlong,
            Motif::Parries(Kind::King),
            Motif::Exposes(Kind::King),
        ],
        20,
    ),
    (
        "flights",
        &EACH,
        Family::Flights,
        300,
        &[Motif::FlightOpened, Motif::FlightCovered, Motif::Mates],
        20,
    ),
    (
        "refuges",
        &EACH,
        Family::Refuges,
        400,
        &[
            Motif::FlightBeyond,
            Motif::FlightUnmasked,
            Motif::FlightOpened,
            Motif::FlightCovered,
        ],
        20,
    ),
    (
        "mates by pawns and kings",
        &EACH,
        Family::Nooks,
        800,
        &[
            Motif::StepMates,
            Motif::DoubleStepMates,
            Motif::CaptureMates,
            Motif::UncoversMate(Kind::Pawn),
            Motif::UncoversMate(Kind::King),
        ],
        5,
    ),
    (
        "missing kings",
        &EACH,
        Family::MissingKings,
        400,
        &[Motif::KinglessMover, Motif::KinglessEnemy],
        500,
    ),
];

// Motifs of Circe and Madrasi only.
const CONDITIONS: [Row<'static>; 7] = [
    (
        "rebirths",
        &[Rule::Circe],
        Family::Rebirths,
        2_000,
        &[
            Motif::RebirthExposes,
            Motif::RebirthSaves,
            Motif::RebirthParries,
        ],
        5,
    ),
    (
        "reborn hurdles",
        &[Rule::Circe],
        Family::RebornHurdles,
        2_000,
        &[
            Motif::RebirthChecks,
            Motif::RebirthChecksPromoted,
            Motif::RebirthParries,
            Motif::RebirthParriesPromoted,
        ],
        5,
    ),
    (
        "mates over reborn hurdles",
        &[Rule::Circe],
        Family::HurdleNets,
        500,
        &[Motif::RebirthMatesOver],
        20,
    ),
    (
        "rebirths before mates",
        &[Rule::Circe],
        Family::Nets,
        2_000,
        &[Motif::RebirthMates, Motif::RebirthParriesMate],
        3,
    ),
    (
        "paralysis",
        &[Rule::Madrasi],
        Family::Paralysis,
        800,
        &[
            Motif::FreesEnemy,
            Motif::FreesChecker,
            Motif::ParalysesChecker,
            Motif::ParalysisSaves,
        ],
        20,
    ),
    (
        "paralysis before mates",
        &[Rule::Madrasi],
        Family::Nets,
        3_000,
        &[Motif::ParalysisMates, Motif::ParalysisSaves],
        3,
    ),
    (
        "castling with a paralysed rook",
        &[Rule::Madrasi],
        Family::Castling,
        400,
        &[Motif::Castles, Motif::CastlingParalysed],
        5,
    ),
];

// Grasshoppers' hurdles and nightriders' lines.
const FAIRY: [Row<'static>; 2] = [
    (
        "hurdles",
        &EACH,
        Family::Hurdles,
        600,
        &[
            Motif::HurdleArrives,
            Motif::HurdleLeaves,
            Motif::OwnHurdleArrives,
            Motif::OwnHurdleLeaves,
        ],
        5,
    ),
    (
        "nightrider lines",
        &EACH,
        Family::NightriderLines,
        500,
        &[
            Motif::ExposedTo(Kind::Nightrider),
            Motif::UncoveredBy(Kind::Nightrider),
        ],
        50,
    ),
];

// Asserts of each row that no position differs, and that each motif is shown often enough.
fn agree(rt: &impl Abort, rows: &[Row]) {
    for (name, rules, family, count, motifs, least) in rows {
        for rule in *rules {
            let survey = surveyed(*rule, *family, *count, motifs);
            if let Some(unlike) = survey.unlike {
                let (number, half_moves) = (unlike.number, unlike.half_moves);
                let question = unlike.question;
                assert!(rt;
                    false,
                    "{name}: {question:?} {half_moves} half-moves after number {number}"
                );
            }
            for (motif, shown) in survey.shown.iter().enumerate() {
                let enough = motif >= motifs.len() || *shown >= *least;
                assert!(rt; enough, "{name}: {shown} moves show motif {motif}");
            }
        }
    }
}

#[test]
fn lines(rt: HostRuntime) {
    agree(&rt, &LINES);
}

#[test]
fn pawns(rt: HostRuntime) {
    agree(&rt, &PAWNS);
}

#[test]
fn kings(rt: HostRuntime) {
    agree(&rt, &KINGS);
}

#[test]
fn conditions(rt: HostRuntime) {
    agree(&rt, &CONDITIONS);
}

#[test]
fn fairy(rt: HostRuntime) {
    agree(&rt, &FAIRY);
}
