//! The solutions of requested parts.
ghost use Rattle.std.specs.Prelude.{◌≡◌, ◌<◌, ◌≤◌, ◌==◌, IfOk, IfSome, false, if◌then◌else◌, is_some, map, true, take, drop, length, slice_get, ◌+◌, ◌-◌};
ghost use Rattle.std.specs.List.{flat_map};
ghost use Rattle.pop_text.specs.Bytes.{Writes, count_after, greatest_count};
ghost use Rattle.pop_input.specs.FaultKinds.{is_device_failure};
ghost use Rattle.pop_parts.specs.declared.request.Outcome.TheVariants.{FaultyItem, InputFailed, NoItem};
ghost use Rattle.pop_input.specs.Posed.{rule_of};
ghost use Rattle.pop_walk.specs.Events.{event_of};
ghost use Rattle.pop_print.specs.Events.{event_text};
ghost use Rattle.pop_run.specs.Run.{FailsOnce, has_grown, input_met, taken_of};
ghost use Rattle.pop_parts.specs.Parts.{has_parts as has_the_parts, has_phase as has_the_phase, outcome_at, outcome_in, part_text, parts_requested, text_at, text_in};
ghost use Rattle.pop_parts.specs.Runs.{ReadsItems, Shows};
ghost use Rattle.pop_parts.specs.ties.Items.{entry_in, text_if};

use crate::items::{is_end, reports_device_failure};
use crate::part_search::PartSearch;
use crate::remaining_parts::RemainingParts;
use crate::request::{Outcome, PartRequest};
use crate::searching::parts_in;
use chess_rules::Rules;
use pop_battle::Killers;
use pop_events::Phase;
use pop_input::{Fault, Item, MOST_FRAMES, Problem, Reader, under_condition};
use pop_print::print_event;
use pop_text::{Sink, SinkFault, Source};

/// Reads items of the source up to the requested one and writes the solutions of its requested parts.
/// Returns the outcome.
///
/// It writes exactly the text of the parts, or nothing if the input doesn't have them. If the sink fails,
/// it has written a beginning of the text; then it writes nothing more and returns `OutputFailed`. It
/// takes at most 4,096 bytes after the requested item, and doesn't use them. At most one call to the
/// source and one call to the sink fail.
pub fn show_parts<S: Source, W: Sink>(
    request: &PartRequest,
    source: &mut S,
    sink: &mut W,
) -> Outcome
    requires depth { 1 ≤ request.now.depth }
    requires source { S.failures source.old < greatest_count }
    requires sink { W.failures sink.old < greatest_count }
    ensures headline { IfSome (S.remaining source.old) (λ had.
        Shows request.now (input_met (has_grown (S.failures source.old) (S.failures source.new)) had
        (S.remaining source.new))
        (W.taken sink.old) (W.taken sink.new)
        (has_grown (W.failures sink.old) (W.failures sink.new)) result) }
    ensures reads { IfSome (S.remaining source.old) (λ had. ReadsItems request.now.item
        (input_met (has_grown (S.failures source.old) (S.failures source.new)) had
        (S.remaining source.new)) (taken_of had (S.remaining source.new))) }
    ensures once { FailsOnce (S.failures source.old) (S.failures source.new)
        × FailsOnce (W.failures sink.old) (W.failures sink.new) }
{
    let mut reader = Reader::new();
    let mut number: u64 = 1;
    let mut failed = false;
    loop {
        let item = reader.next_problem(source);
        if is_end(&item) {
            return outcome_without_item(failed);
        }
        if number == request.item {
            match show_item(sink, request, &item) {
                Ok(outcome) => return outcome,
                Err(_) => return Outcome::OutputFailed,
            }
        }
        failed |= reports_device_failure(&item);
        number += 1;
    }
}

// Returns the outcome for an input without the item. `failed` says whether the input's device failed.
fn outcome_without_item(failed: bool) -> Outcome
    ensures { result ≡ (if failed then InputFailed else NoItem) }
{
    if failed {
        Outcome::InputFailed
    } else {
        Outcome::NoItem
    }
}

// Prints the requested parts of the item.
fn show_item<W: Sink>(
    sink: &mut W,
    request: &PartRequest,
    item: &Item,
) -> Result<Outcome, SinkFault>
    requires depth { 1 ≤ request.now.depth }
    requires sink { W.failures sink.old < greatest_count }
    ensures bytes { Writes (W.taken sink.old) (W.taken sink.new)
        (text_at request.now (entry_in item.now)) result }
    ensures outcome { is_some (entry_in item.now) ≡ true
        → IfOk result (λ outcome. outcome ≡ outcome_at request.now false (entry_in item.now)) }
    ensures counted { W.failures sink.new ≡ count_after result (W.failures sink.old) }
{
    match item {
        Item::End => Ok(Outcome::NoItem),
        Item::Faulty(fault, _) => Ok(outcome_of_fault(fault)),
        Item::Sound(problem, _) => show_sound(sink, request, problem),
    }
}

// Returns the outcome for a faulty item.
fn outcome_of_fault(fault: &Fault) -> Outcome
    ensures { result ≡ (if is_device_failure fault.now.kind then InputFailed
        else FaultyItem) }
{
    if fault.kind.is_device_failure() {
        Outcome::InputFailed
    } else {
        Outcome::FaultyItem
    }
}

// Prints the requested parts of a sound problem, if it has the phase and the parts.
fn show_sound<W: Sink>(
    sink: &mut W,
    request: &PartRequest,
    problem: &Problem,
) -> Result<Outcome, SinkFault>
    requires depth { 1 ≤ request.now.depth }
    requires sink { W.failures sink.old < greatest_count }
    ensures bytes { Writes (W.taken sink.old) (W.taken sink.new)
        (text_in (rule_of problem.now.condition) request.now problem.now) result }
    ensures outcome { IfOk result (λ outcome. outcome
        ≡ outcome_in (rule_of problem.now.condition) request.now problem.now) }
    ensures counted { W.failures sink.new ≡ count_after result (W.failures sink.old) }
{
    under_condition!(
        problem.condition(),
        show_under::<_, W>(sink, request, problem)
    )
}

// Prints the requested parts of a sound problem under the rules of its condition.
#[tactic(auto, unfolding(crate::specs::Parts::text_in))]
fn show_under<R: Rules, W: Sink>(
    sink: &mut W,
    request: &PartRequest,
    problem: &Problem,
) -> Result<Outcome, SinkFault>
    requires depth { 1 ≤ request.now.depth }
    requires sink { W.failures sink.old < greatest_count }
    requires rules { R.rule ≡ rule_of problem.now.condition }
    ensures bytes { Writes (W.taken sink.old) (W.taken sink.new)
        (text_in R.rule request.now problem.now) result }
    ensures outcome { IfOk result (λ outcome. outcome
        ≡ outcome_in R.rule request.now problem.now) }
    ensures counted { W.failures sink.new ≡ count_after result (W.failures sink.old) }
{
    if !has_phase(problem, request.phase) {
        return Ok(Outcome::NoPhase);
    }
    if !has_parts::<R>(request, problem) {
        return Ok(Outcome::NoPart);
    }
    print_parts::<R, W>(sink, request, problem)?;
    Ok(Outcome::Shown)
}

// Returns whether the problem has the phase: the play always, set play if its options ask for it.
fn has_phase(problem: &Problem, phase: Phase) -> bool
    ensures { result ≡ has_the_phase problem.now phase }
{
    match phase {
        Phase::Set => problem.set_play(),
        Phase::Play => true,
    }
}

// Returns whether the phase has all requested parts.
fn has_parts<R: Rules>(request: &PartRequest, problem: &Problem) -> bool
    requires depth { 1 ≤ request.now.depth }
    requires rules { R.rule ≡ rule_of problem.now.condition }
    ensures { result ≡ has_the_parts R.rule request.now problem.now }
{
    1 <= request.first
        && request.first <= request.last
        && request.last <= parts_in::<R>(problem, request.phase, request.depth)
}

// Prints the requested parts, one after another.
fn print_parts<R: Rules, W: Sink>(
    sink: &mut W,
    request: &PartRequest,
    problem: &Problem,
) -> Result<(), SinkFault>
    requires depth { 1 ≤ request.now.depth }
    requires sink { W.failures sink.old < greatest_count }
    requires rules { R.rule ≡ rule_of problem.now.condition }
    requires parts { has_the_parts R.rule request.now problem.now ≡ true }
    ensures bytes { Writes (W.taken sink.old) (W.taken sink.new)
        (flat_map (part_text R.rule problem.now request.now.phase)
        (parts_requested R.rule request.now problem.now)) result }
    ensures counted { W.failures sink.new ≡ count_after result (W.failures sink.old) }
{
    problem.show_sound();
    match RemainingParts::<R, MOST_FRAMES>::of(problem, request.phase, request.depth) {
        None => Ok(()),
        Some(mut parts) => print_parts_from::<R, W>(
            sink,
            request.first,
            request.last - request.first + 1,
            &mut parts,
        ),
    }
}

// Prints `count` of the parts still to come, from part `first` on. The search of each part starts with the
// killers of the part before it.
fn print_parts_from<R: Rules, W: Sink>(
    sink: &mut W,
    first: u64,
    count: u64,
    parts: &mut RemainingParts<R, MOST_FRAMES>,
) -> Result<(), SinkFault>
    requires sink { W.failures sink.old < greatest_count }
    requires first { 1 ≤ first }
    requires there { first + count ≤ length parts.old.left + 1 }
    ensures bytes { Writes (W.taken sink.old) (W.taken sink.new)
        (flat_map (part_text R.rule parts.old.problem parts.old.phase)
        (take count (drop (first - 1) parts.old.left))) result }
    ensures counted { W.failures sink.new ≡ count_after result (W.failures sink.old) }
{
    let mut killers = Killers::none();
    let mut number = first;
    let mut left = count;
    while left > 0 {
        left -= 1;
        killers = print_part::<R, W>(sink, number, parts, killers)?;
        number = 1;
    }
    Ok(())
}

// Prints the part with this number among the parts still to come. Its search starts with these killers.
// Returns the killers at its end.
#[tactic(auto, unfolding(crate::specs::Parts::part_text))]
fn print_part<R: Rules, W: Sink>(
    sink: &mut W,
    number: u64,
    parts: &mut RemainingParts<R, MOST_FRAMES>,
    killers: Killers,
) -> Result<Killers, SinkFault>
    requires sink { W.failures sink.old < greatest_count }
    requires number { 1 ≤ number }
    ensures bytes { Writes (W.taken sink.old) (W.taken sink.new)
        (text_if R.rule parts.old.problem parts.old.phase
        (slice_get parts.old.left (number - 1))) result }
    ensures counted { W.failures sink.new ≡ count_after result (W.failures sink.old) }
    ensures left { parts.new.left ≡ drop number parts.old.left }
    ensures problem { parts.new.problem ≡ parts.old.problem }
    ensures phase { parts.new.phase ≡ parts.old.phase }
{
    match parts.search(number, killers) {
        None => Ok(Killers::none()),
        Some(mut search) => {
            print_events::<R, W>(sink, &mut search)?;
            Ok(search.into_killers())
        }
    }
}

// Prints the remaining events of a search, each as soon as it is found.
fn print_events<R: Rules, W: Sink>(
    sink: &mut W,
    search: &mut PartSearch<R, MOST_FRAMES>,
) -> Result<(), SinkFault>
    requires sink { W.failures sink.old < greatest_count }
    ensures bytes { Writes (W.taken sink.old) (W.taken sink.new)
        (flat_map event_text (map (event_of R.rule search.old.problem) search.old.left)) result }
    ensures counted { W.failures sink.new ≡ count_after result (W.failures sink.old) }
{
    while let Some(event) = search.next() {
        print_event(sink, &event)?;
    }
    Ok(())
}
