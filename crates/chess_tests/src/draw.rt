//! Pseudorandom numbers, equal on each run.
ghost use Rattle.std.specs.Prelude.{◌<◌};

use crate::plain::{LEAPS, LINES};
use chess_core::{Colour, Kind, Man, Square};

// A xorshift* generator (Vigna, An experimental exploration of Marsaglia's xorshift generators, 2016).
#[derive(Clone, Copy)]
pub(crate) struct Draw {
    state: u64,
}

const ORTHODOX_KINDS: [Kind; 8] = [
    Kind::Queen,
    Kind::Rook,
    Kind::Bishop,
    Kind::Knight,
    Kind::Pawn,
    Kind::Pawn,
    Kind::Rook,
    Kind::Bishop,
];

const ALL_KINDS: [Kind; 8] = [
    Kind::Queen,
    Kind::Rook,
    Kind::Bishop,
    Kind::Knight,
    Kind::Pawn,
    Kind::Grasshopper,
    Kind::Nightrider,
    Kind::Grasshopper,
];

// The kinds of men that a position may hold besides kings.
#[derive(Clone, Copy, PartialEq, Eq)]
pub(crate) enum Kinds {
    // The kinds of the FIDE Laws.
    Orthodox,
    // Also grasshoppers and nightriders.
    All,
}

impl Draw {
    // Returns the generator for the position with this number.
    pub(crate) fn of(number: u64) -> Draw {
        let mut draw = Draw {
            state: number
                .wrapping_mul(0x9e37_79b9_7f4a_7c15)
                .wrapping_add(0x2545_f491_4f6c_dd1d),
        };
        for _skipped in 0..4u8 {
            let _early = draw.number();
        }
        draw
    }

    // Returns the next number of the generator (xorshift64*).
    fn number(&mut self) -> u64 {
        self.state ^= self.state >> 12;
        self.state ^= self.state << 25;
        self.state ^= self.state >> 27;
        self.state.wrapping_mul(0x2545_f491_4f6c_dd1d)
    }

    // Returns a number below `count`.
    pub(crate) fn below(&mut self, count: u8) -> u8
        requires { 0 < count }
        ensures { result < count }
    {
        ((self.number() >> 32) % (count as u64)) as u8
    }

    // Returns `true` once in `count` draws on average.
    pub(crate) fn once_in(&mut self, count: u8) -> bool
        requires { 0 < count }
    {
        self.below(count) == 0
    }

    // Returns `rare` once in `count` draws on average, otherwise `usual`.
    pub(crate) fn pick<T: Copy>(&mut self, count: u8, rare: T, usual: T) -> T
        requires { 0 < count }
    {
        if self.once_in(count) { rare } else { usual }
    }

    // Returns a square.
    pub(crate) fn square(&mut self) -> Square {
        Square::numbered(self.below(64))
    }

    // Returns a colour.
    pub(crate) fn colour(&mut self) -> Colour {
        self.pick(2, Colour::White, Colour::Black)
    }

    // Returns which kinds a position has: the orthodox ones, or all.
    pub(crate) fn kinds(&mut self) -> Kinds {
        self.pick(2, Kinds::Orthodox, Kinds::All)
    }

    // Returns a kind other than king.
    pub(crate) fn kind(&mut self, kinds: Kinds) -> Kind {
        let at = self.below(8) as usize;
        match kinds {
            Kinds::Orthodox => ORTHODOX_KINDS[at],
            Kinds::All => ALL_KINDS[at],
        }
    }

    // Returns a man of either colour, no king.
    pub(crate) fn man(&mut self, kinds: Kinds) -> Man {
        Man {
            colour: self.colour(),
            kind: self.kind(kinds),
        }
    }

    // Returns a direction of a queen.
    pub(crate) fn line(&mut self) -> (u8, u8) {
        LINES[self.below(8) as usize]
    }

    // Returns a direction of a nightrider.
    pub(crate) fn leap(&mut self) -> (u8, u8) {
        LEAPS[self.below(8) as usize]
    }
}
