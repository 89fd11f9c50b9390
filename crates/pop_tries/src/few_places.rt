//! The places of few moves.
ghost use Rattle.std.specs.Prelude.{◌≡◌, List, ◌∷◌};
ghost use Rattle.chess_core.specs.declared.man.Move.{Move};
ghost use Rattle.pop_tries.specs.ties.FewPlaces.{are_few, AreAt, IsPlaceOf};

/// The places of at most two moves in the order of moves, as numbers of `MovePlace`. Nothing is known of more
/// moves.
#[derive(Clone, Copy)]
pub(crate) enum FewPlaces {
    Empty,
    One { place: u16 },
    Two { first: u16, second: u16 },
    Many,
}

impl FewPlaces {
    /// Returns the places with one more.
    pub(crate) fn with(self, place: u16) -> FewPlaces
        ensures { (m : Move) (all rest : List Move) → IsPlaceOf place m → AreAt self all (m ∷ rest)
            → AreAt result all rest }
    {
        match self {
            FewPlaces::Empty => FewPlaces::One { place },
            FewPlaces::One { place: first } => FewPlaces::Two {
                first,
                second: place,
            },
            FewPlaces::Two { .. } | FewPlaces::Many => FewPlaces::Many,
        }
    }

    /// Returns whether the places are known.
    pub(crate) fn are_few(self) -> bool
        ensures { result ≡ are_few self }
    {
        match self {
            FewPlaces::Many => false,
            FewPlaces::Empty | FewPlaces::One { .. } | FewPlaces::Two { .. } => true,
        }
    }
}
