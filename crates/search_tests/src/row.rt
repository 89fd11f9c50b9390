//! Rows: problems with known solutions, and everything that a search for them must do.
ghost use Rattle.std.specs.Prelude.{◌≡◌, ◌<◌, ◌≤◌};
ghost use Rattle.pop_input.specs.Posed.{rule_of};
ghost use Rattle.pop_stipulation.specs.Stipulations.{half_moves};

use crate::plain::solve;
use arrayvec::ArrayVec;
use chess_rules::{Circe, Madrasi, Orthodox, Rules};
use pop_events::Event;
use pop_input::{Condition, Item, MOST_FRAMES, Problem, Reader};
use pop_print::print_event;
use pop_solve::{PrunedSearch, Search};
use pop_text::{TrialSink, TrialSource};

/// A row of `tests/rows`: a problem, the text of its events, and the least and the most positions that a
/// search may try, where they are known.
pub(crate) struct Row {
    pub(crate) name: &'static str,
    pub(crate) input: &'static [u8],
    pub(crate) events: &'static [u8],
    pub(crate) opened: Option<(u64, u64)>,
}

/// More events than any row has.
const ALL: u64 = 1000;

/// The outcome of a search: the text and number of its events, what `given` and `opened` return after
/// them, and the most frames in use; also how many of three more calls returned an event, and what
/// `given` returns after these.
#[derive(Drop)]
struct Given {
    text: ArrayVec<u8, 4096>,
    events: u64,
    given: u64,
    opened: u64,
    deepest: usize,
    further: u64,
    given_after: u64,
}

/// Adds what `print_event` writes for an event, as far as it fits.
pub(crate) fn add_event(event: &Event, text: &mut ArrayVec<u8, 4096>) {
    let mut sink = TrialSink::<256>::new(256, None);
    let _reported = print_event(&mut sink, event);
    let _fits = text.try_extend_from_slice(sink.text());
}

/// Returns the number of half-moves of a problem.
#[tactic(auto, using(pop_walk::proofs::Sound::in_range))]
pub(crate) fn half_moves(problem: &Problem) -> usize
    ensures value { result ≡ half_moves problem.now.stipulation }
    ensures most { result ≤ 32 }
{
    problem.stipulation().half_moves()
}

/// Runs a search that prunes to its end. Returns the text of its events, and what `opened` returns after them.
fn run_pruned<R: Rules>(problem: &Problem) -> (ArrayVec<u8, 4096>, u64)
    requires { R.rule ≡ rule_of problem.now.condition }
{
    // For the proof: a problem that was read has fewer half-moves than `MOST_FRAMES`.
    let _half_moves = half_moves(problem);
    let mut search = PrunedSearch::<R, MOST_FRAMES>::new(problem);
    let mut text = ArrayVec::new();
    for _event in 0..ALL {
        let Some(event) = search.next() else {
            break;
        };
        add_event(&event, &mut text);
    }
    (text, search.opened())
}

/// Runs a search up to `most` events, and then calls it three more times.
fn run<R: Rules, const N: usize>(problem: &Problem, most: u64) -> Given
    requires rule { R.rule ≡ rule_of problem.now.condition }
    requires room { half_moves problem.now.stipulation < N }
    requires few { N ≤ MOST_FRAMES }
{
    let mut search = Search::<R, N>::new(problem);
    let mut text = ArrayVec::new();
    let mut deepest = 0;
    let mut events = 0;
    while events < most {
        let Some(event) = search.next() else {
            break;
        };
        add_event(&event, &mut text);
        deepest = deepest.max(search.depth());
        events += 1;
    }
    let given = search.given();
    let opened = search.opened();
    let mut further = 0u64;
    for _call in 0..3u8 {
        further = further.saturating_add(u64::from(search.next().is_some()));
    }
    let given_after = search.given();
    Given {
        text,
        events,
        given,
        opened,
        deepest,
        further,
        given_after,
    }
}

/// Runs a search with just enough frames; `None` if no row has this number of half-moves.
fn run_tight<R: Rules>(problem: &Problem) -> Option<Given>
    requires { R.rule ≡ rule_of problem.now.condition }
{
    Some(match half_moves(problem) {
        1 => run::<R, 2>(problem, ALL),
        2 => run::<R, 3>(problem, ALL),
        3 => run::<R, 4>(problem, ALL),
        4 => run::<R, 5>(problem, ALL),
        5 => run::<R, 6>(problem, ALL),
        31 => run::<R, 32>(problem, ALL),
        32 => run::<R, MOST_FRAMES>(problem, ALL),
        _ => return None,
    })
}

impl Given {
    /// Returns whether the search returned this text and ended: each call after the last event returns
    /// `None` and changes no count.
    fn ends(&self, text: &[u8]) -> bool {
        self.text.as_slice() == text
            && self.given == self.events
            && self.further == 0
            && self.given_after == self.events
    }

    /// Returns whether the search, which was stopped after this number of events, returned a beginning of
    /// the whole text, and then, when called again, the events after it.
    fn begins(&self, events: u64, whole: &Given) -> bool {
        self.events == events
            && self.given == events
            && self.further == whole.events.saturating_sub(events).min(3)
            && self.given_after == events.saturating_add(self.further)
            && whole.text.as_slice().starts_with(self.text.as_slice())
    }
}

/// Returns whether searches under the problem's rules return the row's events: one to its end, one that
/// prunes, one with just enough frames, and one dropped after each number of events.
fn is_searched_under<R: Rules>(problem: &Problem, row: &Row) -> bool
    requires { R.rule ≡ rule_of problem.now.condition }
{
    let half_moves = half_moves(problem);
    let whole = run::<R, MOST_FRAMES>(problem, ALL);
    let Some(tight) = run_tight::<R>(problem) else {
        return false;
    };
    let (least, most) = row.opened.unwrap_or((0, u64::MAX));
    let (text, opened) = run_pruned::<R>(problem);
    let right = whole.ends(row.events)
        && text.as_slice() == row.events
        && opened <= whole.opened
        && whole.deepest <= half_moves + 1
        && least <= whole.opened
        && whole.opened <= most
        && tight.ends(row.events)
        && tight.opened == whole.opened;
    if !right {
        return false;
    }
    for events in 0..whole.events {
        if !run::<R, MOST_FRAMES>(problem, events).begins(events, &whole) {
            return false;
        }
    }
    true
}

/// Returns whether searches do everything that they must for the row's problem.
pub(crate) fn is_searched(row: &Row) -> bool {
    let Some(problem) = read(row.input) else {
        return false;
    };
    match problem.condition() {
        None => is_searched_under::<Orthodox>(&problem, row),
        Some(Condition::Circe) => is_searched_under::<Circe>(&problem, row),
        Some(Condition::Madrasi) => is_searched_under::<Madrasi>(&problem, row),
    }
}

/// Returns whether a search and one that prunes return the text of the plain solver.
fn agrees_under<R: Rules>(problem: &Problem) -> bool
    requires { R.rule ≡ rule_of problem.now.condition }
{
    // For the proof: a problem that was read has fewer half-moves than `MOST_FRAMES`.
    let _half_moves = half_moves(problem);
    let given = run::<R, MOST_FRAMES>(problem, ALL);
    let pruned = run_pruned::<R>(problem);
    let plain = solve::<R>(problem);
    given.text.as_slice() == plain.as_slice() && pruned.0.as_slice() == plain.as_slice()
}

/// Returns the problem with these men, stipulation and options, or `None` if it isn't sound.
pub(crate) fn posed(men: &[u8], stipulation: &str, rest: &str) -> Option<Problem> {
    let parts: [&[u8]; 7] = [
        b"BeginProblem Pieces ",
        men,
        b" Stipulation ",
        stipulation.as_bytes(),
        b" ",
        rest.as_bytes(),
        b" EndProblem ",
    ];
    let mut text = ArrayVec::<u8, 512>::new();
    for part in parts {
        let _fits = text.try_extend_from_slice(part);
    }
    read(text.as_slice())
}

/// Returns the first problem of a text, or `None` if it isn't sound.
fn read(text: &[u8]) -> Option<Problem> {
    let mut source = TrialSource::new(text, 4096, None);
    let mut reader = Reader::new();
    match reader.next_problem(&mut source) {
        Item::Sound(problem, _) => Some(problem),
        _ => None,
    }
}

/// Returns whether a search agrees with the plain solver on the problem with these men, stipulation and
/// options, or `None` if the problem isn't sound.
pub(crate) fn agrees(men: &str, stipulation: &str, rest: &str) -> Option<bool> {
    let problem = posed(men.as_bytes(), stipulation, rest)?;
    Some(match problem.condition() {
        None => agrees_under::<Orthodox>(&problem),
        Some(Condition::Circe) => agrees_under::<Circe>(&problem),
        Some(Condition::Madrasi) => agrees_under::<Madrasi>(&problem),
    })
}
