//! Families of drawn positions, each built so that its motif is likely.
mod castling;
mod fairy;
mod kings;
mod lines;
mod pawns;
mod promotions;
mod rebirths;

use crate::draw::Draw;
use chess_core::Diagram;

// The motif of a family of positions.
#[derive(Clone, Copy)]
pub(crate) enum Family {
    // Men of the side to move between their king and an enemy rider.
    Pins,
    // Men of the side to move between the other king and a rider of their own.
    Batteries,
    // Two riders on one king, that of the side to move or the other.
    DoubleChecks,
    // A pawn that has just passed an enemy pawn.
    EnPassant,
    // Pawns one step before their last rank.
    Promotions,
    // A pawn before its last rank that opens its own line to the other king.
    OpenedLines,
    // A pawn that gives check once it is a knight.
    Underpromotions,
    // A pawn before its last rank, with a fairy man elsewhere.
    FairyPromotions,
    // Kings and rooks at home.
    Castling,
    // Kings and rooks at home, with the other king on their rank.
    HomeRanks,
    // A king in check from a rider, with room on the line beyond the king.
    KingSteps,
    // A king at the edge with few flights.
    Flights,
    // A king among its men, with lines through the free squares next to it.
    Refuges,
    // A king shut in, with a pawn one move before a check, or a battery with a pawn or king in front.
    Nooks,
    // Positions without one king or both.
    MissingKings,
    // Grasshoppers and hurdles on lines to kings.
    Hurdles,
    // Nightriders and men on their lines.
    NightriderLines,
    // Men to be captured whose home squares are near the kings.
    Rebirths,
    // Men to be captured whose home squares are between the other king and a grasshopper.
    RebornHurdles,
    // A grasshopper on a king's diagonal, and a pawn that is reborn between them.
    HurdleNets,
    // Men of one kind that attack each other near the kings.
    Paralysis,
    // A king on its home rank, opposed by the other king, and captures on lines to it.
    Nets,
}

impl Family {
    // Returns a position of the family.
    pub(crate) fn diagram(self, draw: &mut Draw) -> Diagram {
        match self {
            Family::Pins => lines::pins(draw),
            Family::Batteries => lines::batteries(draw),
            Family::DoubleChecks => lines::double_checks(draw),
            Family::EnPassant => pawns::en_passant(draw),
            Family::Promotions => pawns::promotions(draw),
            Family::OpenedLines => promotions::opened_lines(draw),
            Family::Underpromotions => promotions::underpromotions(draw),
            Family::FairyPromotions => promotions::fairy_promotions(draw),
            Family::Castling => castling::castling(draw),
            Family::HomeRanks => castling::home_ranks(draw),
            Family::KingSteps => kings::king_steps(draw),
            Family::Flights => kings::flights(draw),
            Family::Refuges => kings::refuges(draw),
            Family::Nooks => kings::nooks(draw),
            Family::MissingKings => kings::missing_kings(draw),
            Family::Hurdles => fairy::hurdles(draw),
            Family::NightriderLines => fairy::nightrider_lines(draw),
            Family::Rebirths => rebirths::rebirths(draw),
            Family::RebornHurdles => rebirths::reborn_hurdles(draw),
            Family::HurdleNets => rebirths::hurdle_nets(draw),
            Family::Paralysis => rebirths::paralysis(draw),
            Family::Nets => rebirths::nets(draw),
        }
    }
}
