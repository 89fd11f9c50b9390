//! Part counts for problems of any length: there are frames for the longest stipulation.
ghost use Rattle.std.specs.Prelude.{◌≡◌, ◌≤◌, ◌-◌, ◌^◌, length, min};
ghost use Rattle.pop_input.specs.Posed.{rule_of};
ghost use Rattle.pop_parts.specs.PhaseParts.{parts};

use crate::beginnings::count_parts;
use chess_rules::Rules;
use pop_events::Phase;
use pop_input::{MOST_FRAMES, Problem};

/// Returns the number of parts of a phase, up to the greatest u64; `depth` moves distinguish the parts of
/// help play.
pub(crate) fn parts_in<R: Rules>(problem: &Problem, phase: Phase, depth: usize) -> u64
    requires depth { 1 ≤ depth }
    requires rules { R.rule ≡ rule_of problem.now.condition }
    ensures { result ≡ min (length (parts R.rule problem.now phase depth)) (2 ^ 64 - 1) }
{
    problem.show_sound();
    count_parts::<R, MOST_FRAMES>(problem, phase, depth)
}
