//! What a search remembers from position to position.
ghost use Rattle.std.specs.Prelude.{◌≡◌, ◌<◌, ◌^◌};

use crate::kept_threats::KeptThreats;
use crate::killers::Killers;

/// What a search remembers: the moves that decided tests, the threats of one position, and the number of
/// positions that it has tried, up to the greatest u64.
#[derive(Drop)]
pub struct SearchState {
    pub killers: Killers,
    pub threats: KeptThreats,
    pub opened: u64,
}

impl SearchState {
    /// Returns a state with these killers, before any position is tried.
    pub fn with(killers: Killers) -> SearchState
        ensures killers { result.killers ≡ killers }
        ensures opened { result.opened ≡ 0 }
    {
        SearchState {
            killers,
            threats: KeptThreats::none(),
            opened: 0,
        }
    }
}

/// Does nothing: a statement for the prover alone, that the count is below 2^64.
#[inline(always)]
pub fn show_fits_u64(count: u64)
    ensures { count < 2 ^ 64 }
{
    let _count = count;
}
