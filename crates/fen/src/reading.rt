//! Reading FEN.
ghost use Rattle.std.specs.Prelude.{◌≡◌, MatchResult};
ghost use Rattle.chess_core.specs.Diagrams.{Diagram};
ghost use Rattle.fen.specs.Fen.{IsReadAs};
ghost use Rattle.fen.specs.ties.Reading.{HasFields};

use crate::men::read_men;
use crate::not_fen::NotFen;
use crate::rights::{read_crossed, read_rights, read_turn};
use chess_core::Diagram;

// Reads the side to move, the castling rights and the en passant square of a diagram that has its men.
fn read_fields(men: Diagram, text: &[u8]) -> Result<Diagram, NotFen>
    ensures { MatchResult result (λ d. HasFields text.now d × (d.men ≡ men.men))
        (λ _. (d : Diagram) → HasFields text.now d → ⊥) }
{
    let (turn, rest) = read_turn(text)?;
    let (unmoved, rest) = match read_rights(rest) {
        Ok(found) => found,
        Err(error) => return Err(error),
    };
    let crossed = read_crossed(rest)?;
    let mut diagram = men;
    diagram.turn = turn;
    diagram.unmoved = unmoved;
    diagram.crossed = crossed;
    Ok(diagram)
}

/// Reads a diagram from the first four fields of FEN: men, side to move, castling rights and en passant
/// square, with one blank between.
///
/// # Errors
///
/// `NotFen` exactly if the text is no diagram's FEN.
///
/// # Example
///
/// ```rust
/// let diagram = fen::read(b"8/8/1KP5/3r4/8/8/8/k7 w - -")?;
/// ```
pub fn read(text: &[u8]) -> Result<Diagram, NotFen>
    ensures { IsReadAs text.now result }
{
    let (men, rest) = match read_men(text) {
        Ok(found) => found,
        Err(error) => return Err(error),
    };
    read_fields(men, rest)
}
