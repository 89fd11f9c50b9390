//! The text of moves.
ghost use Rattle.std.specs.Prelude.{[], ◌++◌, ◌+◌, ◌∷◌, ◌≡◌, ◌≤◌, length};
ghost use Rattle.chess_core.specs.Move.{promotion_text};
ghost use Rattle.pop_print.specs.Moves.{castling_text as text_of_castling, en_passant_text as text_of_en_passant, mark_text as text_of_mark, move_text, plain_move_text, rebirth_text, step_text as text_of_step};

use crate::line::LineBuffer;
use crate::notation::colour_letter;
use chess_core::{Kind, Man, Square};
use pop_events::{Mark, Shown, Side};

/// The most bytes of a move (own).
pub(crate) const LONGEST_MOVE: usize = LONGEST_PLAIN_MOVE + 1;

// The most bytes of a move without its mark (own).
const LONGEST_PLAIN_MOVE: usize = 19;

// Returns the text of castling towards the h side or the a side.
fn castling_text(side: Side) -> &'static [u8]
    ensures text { result.now ≡ text_of_castling side }
    ensures short { length result.now ≤ 5 }
{
    match side {
        Side::H => b"0-0",
        Side::A => b"0-0-0",
    }
}

// Returns what comes between origin and arrival: `*` for a capture, `-` for another move.
fn step_text(capture: bool) -> u8
    ensures { result ∷ [] ≡ text_of_step capture }
{
    if capture { b'*' } else { b'-' }
}

// Returns the sign of mate, stalemate or check, or nothing.
fn mark_text(mark: Mark) -> &'static [u8]
    ensures text { result.now ≡ text_of_mark mark }
    ensures short { length result.now ≤ 1 }
{
    match mark {
        Mark::Mate => b"#",
        Mark::Stalemate => b"=",
        Mark::Check => b"+",
        Mark::Plain => b"",
    }
}

// Returns ` ep.` for an en passant capture, and nothing for another move.
fn en_passant_text(ep: bool) -> &'static [u8]
    ensures text { result.now ≡ text_of_en_passant ep }
    ensures short { length result.now ≤ 4 }
{
    if ep { b" ep." } else { b"" }
}

impl<const N: usize> LineBuffer<N> {
    /// Adds a move, such as `Ra1*a8[+bBc8]`.
    #[tactic(auto, unfolding(crate::specs::Moves::move_text))]
    pub(crate) fn add_move(&mut self, shown: &Shown)
        requires { length self.old + LONGEST_MOVE ≤ N }
        ensures text { self.new ≡ self.old ++ move_text shown.now }
        ensures short { length self.new ≤ length self.old + LONGEST_MOVE }
    {
        match shown.castling {
            Some(side) => self.add(castling_text(side)),
            None => self.add_plain_move(shown),
        }
        self.add(mark_text(shown.mark));
    }

    // Adds a move that isn't castling, without its mark.
    fn add_plain_move(&mut self, shown: &Shown)
        requires { length self.old + LONGEST_PLAIN_MOVE ≤ N }
        ensures text { self.new ≡ self.old ++ plain_move_text shown.now }
        ensures short { length self.new ≤ length self.old + LONGEST_PLAIN_MOVE }
    {
        self.add_man(shown.man.kind);
        self.add_square(shown.from);
        self.add_byte(step_text(shown.capture));
        self.add_square(shown.to);
        self.add(en_passant_text(shown.ep));
        self.add_promotion(shown.promo);
        self.add_rebirth(shown.rebirth);
    }

    // Adds `=` and the letter of the kind that a pawn becomes, or nothing if it doesn't promote.
    fn add_promotion(&mut self, promo: Option<Kind>)
        requires { length self.old + 2 ≤ N }
        ensures text { self.new ≡ self.old ++ promotion_text promo }
        ensures short { length self.new ≤ length self.old + 2 }
    {
        match promo {
            Some(kind) => self.add(&[b'=', kind.letter()]),
            None => self.add(b""),
        }
    }

    // Adds the man that is reborn and its square, such as `[+bBc8]`, or nothing if there is none.
    fn add_rebirth(&mut self, rebirth: Option<(Man, Square)>)
        requires { length self.old + 7 ≤ N }
        ensures text { self.new ≡ self.old ++ rebirth_text rebirth }
        ensures short { length self.new ≤ length self.old + 7 }
    {
        match rebirth {
            Some((man, square)) => self.add(&[
                b'[',
                b'+',
                colour_letter(man.colour),
                man.kind.letter(),
                b'a' - 1 + square.file(),
                b'0' + square.rank(),
                b']',
            ]),
            None => self.add(b""),
        }
    }
}
