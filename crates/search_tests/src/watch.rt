//! The number of positions that a search has tried, checked at each of its events.
ghost use Rattle.std.specs.Prelude.{◌≡◌};
ghost use Rattle.pop_input.specs.Posed.{rule_of};

use crate::row::half_moves;
use arrayvec::ArrayVec;
use chess_rules::{Circe, Madrasi, Orthodox, Rules};
use pop_events::{Event, Mark, Phase, Shown};
use pop_input::{Condition, MOST_FRAMES, Problem};
use pop_solve::Search;
use std::process::Abort;

/// More events than any problem here has.
const ALL: u32 = 1_000_000;

/// The counts of a search.
#[derive(Clone, Copy, Default)]
pub(crate) struct Seen {
    /// The positions tried when set play ended, and at the end.
    pub after_set: u64,
    pub opened: u64,
    /// The number of solutions of all phases, and of the phase with the most.
    pub solutions: u32,
    pub most: u32,
    /// The number of phases that the limit stopped, and of set plays that aren't possible.
    pub stopped: u32,
    pub castling_forbidden: u32,
    /// The number of lines and nodes with a check that isn't mate, and with a rebirth.
    pub checks: u32,
    pub rebirths: u32,
}

impl Seen {
    fn phase_ends(&mut self, count: u32, stopped: bool) {
        self.solutions = self.solutions.saturating_add(count);
        self.most = self.most.max(count);
        if stopped {
            self.stopped = self.stopped.saturating_add(1);
        }
    }

    fn moves(&mut self, moves: &[Shown]) {
        let mut checks = 0;
        let mut rebirths = 0;
        for shown in moves {
            if shown.mark == Mark::Check {
                checks = 1;
            }
            if shown.rebirth.is_some() {
                rebirths = 1;
            }
        }
        self.checks = self.checks.saturating_add(checks);
        self.rebirths = self.rebirths.saturating_add(rebirths);
    }
}

/// The number of positions from which the lines and nodes so far go on: the search must have tried each.
#[derive(Drop)]
struct ShownPositions {
    line: ArrayVec<Shown, 32>,
    /// A next node of this depth or more is the first node below another one.
    below: u32,
    positions: u64,
}

/// Returns the number of moves with which both lines begin.
fn common_length(one: &[Shown], other: &[Shown]) -> usize {
    let length = one.len().min(other.len());
    for k in 0..length {
        let (a, b) = (one[k], other[k]);
        if a.from != b.from || a.to != b.to || a.promo != b.promo {
            return k;
        }
    }
    length
}

impl ShownPositions {
    fn phase_begins(&mut self) {
        self.line = ArrayVec::new();
        self.below = 0;
    }

    /// Counts a position for each move of a line, but not those shared with the line before.
    fn line(&mut self, moves: &[Shown]) {
        let shared = if self.line.is_empty() {
            0
        } else {
            common_length(self.line.as_slice(), moves).saturating_add(1)
        };
        let more = moves.len().saturating_sub(shared);
        self.positions = self.positions.saturating_add(more as u64);
        self.line = ArrayVec::new();
        let _fits = self.line.try_extend_from_slice(moves);
    }

    /// Counts a position for the first node below another: it goes on from the position after that node.
    fn node(&mut self, depth: u32) {
        if depth >= self.below {
            self.positions = self.positions.saturating_add(1);
        }
        self.below = depth.saturating_add(1);
    }
}

/// Counts an event.
fn note(event: &Event, opened: u64, seen: &mut Seen, stood: &mut ShownPositions) {
    match event {
        Event::Phase(phase) => {
            stood.phase_begins();
            if *phase == Phase::Play {
                seen.after_set = opened;
            }
        }
        Event::Line { half: _, moves } => {
            stood.line(moves.as_slice());
            seen.moves(moves.as_slice());
        }
        Event::Node {
            depth,
            half: _,
            shown,
        } => {
            stood.node(*depth);
            seen.moves(&[*shown]);
        }
        Event::Impossible => seen.castling_forbidden = seen.castling_forbidden.saturating_add(1),
        Event::Total { count, stopped } => seen.phase_ends(*count, *stopped),
    }
}

/// Runs a search to its end. Checks that after each event `opened()` hasn't fallen and is at least the
/// number of positions from which the shown moves go on, and at most `most`; after the end it stays the
/// same.
fn watch_under<R: Rules>(rt: &impl Abort, problem: &Problem, most: u64) -> Seen
    requires { R.rule ≡ rule_of problem.now.condition }
{
    // For the proof: a problem that was read has fewer half-moves than `MOST_FRAMES`.
    let _half_moves = half_moves(problem);
    let mut seen = Seen::default();
    let mut stood = ShownPositions {
        line: ArrayVec::new(),
        below: 0,
        positions: 0,
    };
    let mut search = Search::<R, MOST_FRAMES>::new(problem);
    assert_eq!(rt; search.opened(), 0);
    for _event in 0..ALL {
        let Some(event) = search.next() else {
            break;
        };
        let opened = search.opened();
        note(&event, seen.opened, &mut seen, &mut stood);
        assert!(rt; seen.opened <= opened);
        assert!(rt; stood.positions <= opened);
        assert!(rt; opened <= most);
        seen.opened = opened;
    }
    assert!(rt; search.next().is_none());
    assert_eq!(rt; search.opened(), seen.opened);
    seen
}

/// Runs a search to its end under the rules of the problem's condition.
pub(crate) fn watch(rt: &impl Abort, problem: &Problem, most: u64) -> Seen {
    match problem.condition() {
        None => watch_under::<Orthodox>(rt, problem, most),
        Some(Condition::Circe) => watch_under::<Circe>(rt, problem, most),
        Some(Condition::Madrasi) => watch_under::<Madrasi>(rt, problem, most),
    }
}
