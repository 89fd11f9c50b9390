//! The tests at the end of a problem (own).
ghost use Rattle.std.specs.Prelude.{◌≡◌, ◌<◌, None, Some, MatchBool};
ghost use Rattle.chess_core.specs.Castling.{mark_unmoved};
ghost use Rattle.chess_core.specs.Diagrams.{position_of};
ghost use Rattle.chess_core.specs.Position.{other};
ghost use Rattle.chess_core.specs.WellFormed.{IsWellFormed};
ghost use Rattle.chess_attacks.specs.Attacks.{in_check};
ghost use Rattle.pop_input.specs.Posed.{rule_of};
ghost use Rattle.pop_input.specs.Ends.{has_castling_rights, diagram_fault, diagram_of, position_fault, castling_rights_of};
ghost use Rattle.pop_input.specs.Blocks.{posed_entry};
ghost use Rattle.pop_input.specs.ties.Closings.{item_of};
ghost use Rattle.pop_stipulation.specs.Stipulations.{has_king_to_mate, starting_side};

use crate::condition::Condition;
use crate::draft::Draft;
use crate::fault_kind::FaultKind;
use crate::item::{Fault, Item, Last};
use crate::problem::{Problem, Texts};
use crate::under_condition;
use chess_attacks::in_check;
use chess_core::{Board, Colour, Diagram, Square, Unmoved};
use pop_stipulation::{Form, Stipulation};
use pop_text::Text;

impl Draft {
    /// Returns the problem that the words pose, or the fault found at its end, in this line.
    ///
    /// The first test that fails decides. In order: there is a stipulation; there are men; a pawn can have just passed
    /// over the en passant square; the side to be mated has a king; the side that isn't to move isn't in check.
    #[tactic(auto, unfolding(crate::specs::Blocks::posed_entry))]
    pub(crate) fn posed_item(&self, title: &Text, author: &Text, line: u64, last: Last) -> Item
        ensures { result ≡ item_of (posed_entry self.now title.now author.now line) last }
    {
        let Some(stipulation) = self.stipulation else {
            return Item::Faulty(Fault::at(FaultKind::StipulationMissing, line), last);
        };
        let diagram = self.diagram_for(stipulation.form);
        match self.diagram_fault(&diagram, stipulation) {
            Some(fault) => Item::Faulty(Fault::at(fault, line), last),
            None => Item::Sound(
                Problem::new(
                    &diagram,
                    stipulation,
                    self.condition,
                    self.switches,
                    self.limit,
                    Texts { title, author },
                ),
                last,
            ),
        }
    }

    // Returns the diagram for a problem of this form.
    fn diagram_for(&self, form: Form) -> Diagram
        ensures { result ≡ diagram_of self.now form }
    {
        let mut diagram = self.diagram;
        diagram.turn = form.starting_side();
        diagram.unmoved = self.unmoved();
        diagram.crossed = self.crossed;
        diagram
    }

    // Returns the fault of the diagram that `diagram_for` returned, if any.
    fn diagram_fault(&self, diagram: &Diagram, stipulation: Stipulation) -> Option<FaultKind>
        requires { diagram.now ≡ diagram_of self.now stipulation.form }
        ensures fault { result ≡ diagram_fault self.now stipulation diagram.now }
        ensures well_formed { result ≡ None → IsWellFormed (position_of diagram.now) }
    {
        let condition = self.condition;
        if !diagram.has_men() {
            return Some(FaultKind::NoMen);
        }
        if !self.is_well_formed(diagram, stipulation.form) {
            return Some(FaultKind::EnPassantImpossible);
        }
        position_fault(stipulation, condition, &Board::of(diagram))
    }

    // Returns whether the diagram that `diagram_for` returned is well formed. Only its en passant square can be wrong.
    fn is_well_formed(&self, diagram: &Diagram, form: Form) -> bool
        requires { diagram.now ≡ diagram_of self.now form }
        ensures { MatchBool result (IsWellFormed (position_of diagram.now))
            (IsWellFormed (position_of diagram.now) → ⊥) }
    {
        match self.crossed {
            None => true,
            Some(_) => diagram.is_well_formed(),
        }
    }

    // Returns the castling rights, as squares (Codex).
    #[tactic(auto, unfolding(crate::specs::Ends::castling_rights_of))]
    fn unmoved(&self) -> Unmoved
        ensures { result ≡ castling_rights_of self.now.men self.now.castling_forbidden }
    {
        let mut set = Unmoved::none();
        let castling = Square::castling();
        for &square in &castling {
            set = self.with_rights(set, square);
        }
        set
    }

    // Adds the square to the set if the man on it has castling rights, otherwise removes it, as the definition does.
    fn with_rights(&self, set: Unmoved, square: Square) -> Unmoved
        ensures { result ≡ mark_unmoved set square
            (has_castling_rights self.now.men self.now.castling_forbidden square) }
    {
        if self.diagram.is_home(square) && !self.castling_forbidden.has(square) {
            set.with(square)
        } else {
            set.without(square)
        }
    }
}

// Returns the fault of a position: the king to be mated is missing, or the side that isn't to move is in check.
fn position_fault(
    stipulation: Stipulation,
    condition: Option<Condition>,
    board: &Board,
) -> Option<FaultKind>
    ensures { result ≡ position_fault (has_king_to_mate stipulation board.now.men)
        (in_check (rule_of condition) board.now.men (other (starting_side stipulation.form))) }
{
    let waiting = stipulation.form.starting_side().other();
    if !has_king_to_mate(stipulation, board) {
        Some(FaultKind::KingMissing)
    } else if is_in_check(board, condition, waiting) {
        Some(FaultKind::WaitingSideInCheck)
    } else {
        None
    }
}

// Returns whether the king to be mated is on the board. Stalemate needs no king.
fn has_king_to_mate(stipulation: Stipulation, board: &Board) -> bool
    ensures { result ≡ has_king_to_mate stipulation board.now.men }
{
    stipulation.goal.is_for_stalemate() || board.king_of(stipulation.form.goal_side()).is_some()
}

// Returns whether the side is in check, by the rules of the condition.
fn is_in_check(board: &Board, condition: Option<Condition>, colour: Colour) -> bool
    ensures { result ≡ in_check (rule_of condition) board.now.men colour }
{
    under_condition!(condition, in_check::<_>(board, colour))
}
