//! The number of positions that a search has tried, compared with plain counts and published ones.
use crate::counts::{fewest_tried, walk_of};
use crate::made::made;
use crate::row::{half_moves, posed};
use crate::watch::{Seen, watch};
use chess_core::{Kind, Square};
use pop_input::{Condition, Problem};
use pop_stipulation::Goal;
use std::process::Abort;

/// The number of generated problems of each sort.
#[derive(Clone, Copy, Default)]
struct Tally {
    problems: u32,
    solved: u32,
    solved_in_set_play: u32,
    castling_forbidden: u32,
    stopped: u32,
    checks: u32,
    rebirths: u32,
    circe: u32,
    madrasi: u32,
    fairy: u32,
    stalemate: u32,
}

fn add(count: &mut u32, whether: bool) {
    if whether {
        *count = count.saturating_add(1);
    }
}

fn has_fairy_men(problem: &Problem) -> bool {
    let diagram = problem.diagram();
    for number in 0..64u8 {
        if let Some(man) = diagram.man_at(Square::numbered(number)) {
            if man.kind == Kind::Grasshopper || man.kind == Kind::Nightrider {
                return true;
            }
        }
    }
    false
}

impl Tally {
    fn count(&mut self, problem: &Problem, seen: Seen, in_play: Seen) {
        add(&mut self.problems, true);
        add(&mut self.solved, seen.solutions > 0);
        add(
            &mut self.solved_in_set_play,
            seen.solutions > in_play.solutions,
        );
        add(&mut self.castling_forbidden, seen.castling_forbidden > 0);
        add(&mut self.checks, seen.checks > 0);
        add(&mut self.rebirths, seen.rebirths > 0);
        add(
            &mut self.circe,
            problem.condition() == Some(Condition::Circe),
        );
        add(
            &mut self.madrasi,
            problem.condition() == Some(Condition::Madrasi),
        );
        add(&mut self.fairy, has_fairy_men(problem));
        add(
            &mut self.stalemate,
            problem.stipulation().goal == Goal::Stalemate,
        );
    }
}

/// Runs the generated problem with this number, which is sound with any options.
fn seen_with(rt: &impl Abort, number: u64, set_play: bool, limit: Option<u32>, most: u64) -> Seen {
    match made(number, set_play, limit) {
        Some(problem) => watch(rt, &problem, most),
        None => {
            assert!(rt; false, "{number} is sound");
            Seen::default()
        }
    }
}

/// Tries a generated problem with and without set play, with a limit that isn't reached and with limits
/// that are. Unless a limit stops it, a phase opens a frame for each list of moves.
fn try_help(rt: &impl Abort, problem: &Problem, number: u64, tally: &mut Tally) {
    let in_set = walk_of(problem, true);
    let in_play = walk_of(problem, false);
    let both = in_set.saturating_add(in_play);
    let seen = watch(rt, problem, both);
    assert_eq!(rt; seen.after_set, in_set, "set play of {number}");
    assert_eq!(rt; seen.opened, both, "both phases of {number}");
    let bare = seen_with(rt, number, false, None, in_play);
    assert_eq!(rt; bare.opened, in_play, "the play of {number}");
    let more = seen.most.saturating_add(1);
    let free = seen_with(rt, number, true, Some(more), both);
    assert_eq!(rt; free.stopped, 0, "a limit that {number} doesn't reach");
    assert_eq!(rt; free.opened, both, "a limit that {number} doesn't reach");
    if seen.most > 0 {
        for limit in &[1, seen.most] {
            let cut = seen_with(rt, number, true, Some(*limit), both);
            assert!(rt; cut.stopped > 0, "a limit that {number} reaches");
            tally.stopped = tally.stopped.saturating_add(cut.stopped);
        }
    }
    tally.count(problem, seen, bare);
}

#[test]
fn made_help_problems(rt: HostRuntime) {
    let mut tally = Tally::default();
    for number in 0..240u64 {
        if let Some(problem) = made(number, true, None) {
            try_help(&rt, &problem, number, &mut tally);
        }
    }
    for (count, least, what) in &[
        (tally.problems, 100, "problems"),
        (tally.solved, 40, "solved"),
        (tally.solved_in_set_play, 10, "solved in set play"),
        (tally.castling_forbidden, 10, "without set play"),
        (tally.stopped, 40, "phases stopped"),
        (tally.checks, 10, "with a check on the way"),
        (tally.rebirths, 2, "with a rebirth"),
        (tally.circe, 20, "under Circe"),
        (tally.madrasi, 20, "under Madrasi"),
        (tally.fairy, 20, "with fairy men"),
        (tally.stalemate, 10, "for stalemate"),
    ] {
        assert!(&rt; *count >= *least, "{count} {what}");
    }
}

// The numbers of moves of one half-move, two half-moves and so on are perft results (Chess Programming
// Wiki), and the sums begin with the first position, 1. The last one was counted by an independent program
// in another language.
#[test]
fn known_counts(rt: HostRuntime) {
    let rows: [(&[u8], &str, u64); 6] = [
        (
            b"White Ke1 Qd1 Ra1h1 Bc1f1 Sb1g1 Pa2b2c2d2e2f2g2h2 Black Ke8 Qd8 Ra8h8 Bc8f8 Sb8g8 Pa7b7c7d7e7f7g7h7",
            "h#2",
            1 + 20 + 400 + 8902,
        ),
        (
            b"White Ke1 Qf3 Ra1h1 Bd2e2 Sc3e5 Pa2b2c2d5e4f2g2h2 Black Ke8 Qe7 Ra8h8 Ba6g7 Sb6f6 Pa7b4c7d7e6f7g6h3",
            "h#1.5",
            1 + 48 + 2039,
        ),
        (
            b"White Ka5 Rb4 Pb5e2g2 Black Kh4 Rh5 Pc7d6f4",
            "h#2.5",
            1 + 14 + 191 + 2812 + 43238,
        ),
        (
            b"White Kg1 Qd1 Ra1f1 Ba4b4 Sf3h6 Pa2d2g2h2c4e4b5a7 Black Ke8 Qa3 Ra8h8 Bb6g6 Sa5f6 Pb2b7c7d7f7g7h7",
            "h#1.5",
            1 + 6 + 264,
        ),
        (
            b"White Ke1 Qd1 Ra1h1 Bc1c4 Sb1e2 Pa2b2c2g2h2d7 Black Kf8 Qd8 Ra8h8 Bc8e7 Sb8f2 Pa7b7c6f7g7h7",
            "h#1.5",
            1 + 44 + 1486,
        ),
        (b"White Kf4 Rh7 Bh6 Black Kb5 Pd5d6", "h#3", 161_349),
    ];
    for (men, stipulation, want) in &rows {
        let Some(problem) = posed(men, stipulation, "") else {
            assert!(rt; false, "{stipulation} of {want} is sound");
            return;
        };
        assert_eq!(rt; walk_of(&problem, false), *want);
        assert_eq!(rt; watch(&rt, &problem, *want).opened, *want);
    }
}

/// Tries a battle. To find the keys, a search must try a smallest tree for each first move, and it tries no
/// list of moves twice. With variations it tries each list of moves once to show it, and at most once for a
/// test of each of its positions.
fn try_battle(rt: &impl Abort, men: &[u8], stipulation: &str) {
    let Some(problem) = posed(men, stipulation, "") else {
        assert!(rt; false, "{stipulation} is sound");
        return;
    };
    let walk = walk_of(&problem, false);
    let tried = fewest_tried(&problem);
    assert!(rt; tried.keys > 0 && tried.positions < walk, "{stipulation}");
    let seen = watch(rt, &problem, walk);
    assert_eq!(rt; seen.solutions, tried.keys, "{stipulation}");
    assert!(rt; tried.positions <= seen.opened, "{stipulation}");
    for rest in &["Option Variation", "Option Variation SetPlay"] {
        let Some(varied) = posed(men, stipulation, rest) else {
            assert!(rt; false, "{stipulation} {rest} is sound");
            return;
        };
        let both = if varied.set_play() {
            walk.saturating_add(walk_of(&varied, true))
        } else {
            walk
        };
        let tests = half_moves(&varied) as u64;
        let seen = watch(rt, &varied, both.saturating_mul(tests.saturating_add(1)));
        assert!(rt; tried.positions <= seen.opened, "{stipulation} {rest}");
    }
}

#[test]
fn battles(rt: HostRuntime) {
    try_battle(&rt, b"White Kc7 Rb2 Black Ka8", "#2");
    try_battle(&rt, b"White Kg6 Ra1 Black Kh8", "#3");
    try_battle(&rt, b"White Ka1 Re8 Ph6 Black Kh8 Bg8 Ph7 Pa2a3b3", "s#2");
    try_battle(&rt, b"White Kc7 Rb2 Black Ka8", "=2");
}

// Each side has one move at a time, so no order and no cutoff saves a try. In the first problem White's
// only half-move is tried from the diagram, and none after it. In the second, h3-h4 h6-h5 blocks both
// pawns: moves are tried from the diagram and from the position after h3-h4. In the third, b3-b4 is White's
// only move and a6-a5 Black's only reply, and then White takes the last black man: moves are tried from the
// diagram and from the positions after these two moves.
#[test]
fn battles_by_hand(rt: HostRuntime) {
    let rows: [(&[u8], &str, u64); 3] = [
        (b"White Kg6 Ra1 Black Kg8", "#1", 1),
        (b"White Ph3 Black Ph6", "s=1", 2),
        (b"White Pb3 Black Pa6", "=2", 3),
    ];
    for (men, stipulation, want) in &rows {
        let Some(problem) = posed(men, stipulation, "") else {
            assert!(rt; false, "{stipulation} is sound");
            return;
        };
        let seen = watch(&rt, &problem, *want);
        assert_eq!(rt; seen.solutions, 1, "{stipulation}");
        assert_eq!(rt; seen.opened, *want, "{stipulation}");
    }
}
