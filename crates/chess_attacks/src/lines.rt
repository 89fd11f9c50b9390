//! Lines in one direction, and the squares that riders and hoppers reach along them.
ghost use Rattle.std.specs.Prelude.{◌≡◌, ℕ, ◌<◌, ◌&&◌, Bool, List, Option};
ghost use Rattle.std.specs.List.{list_any};
ghost use Rattle.chess_core.specs.declared.man.Man.{Man};
ghost use Rattle.chess_core.specs.Steps.{along, diagonal_steps, knight_steps, queen_steps, straight_steps};
ghost use Rattle.chess_core.specs.Squares.{some_square};
ghost use Rattle.chess_core.specs.declared.man.Colour.{Colour};
ghost use Rattle.chess_core.specs.declared.man.Kind.TheVariants.{Grasshopper, Nightrider};
ghost use Rattle.chess_core.specs.ties.Words.{squares_of, word};
ghost use Rattle.chess_attacks.specs.ties.Lines.{IsStop, IsUpTo, direction_number, flat_steps, is_ahead, is_on_some, occupied_squares, ray, rises, steep_steps, step_of, is_lined};
ghost use Rattle.chess_attacks.specs.ties.Outward.{hopped_from};
ghost use Rattle.chess_attacks.specs.Reaches.{hops, rides};

use crate::geometry::{DIAGONAL_LINES, RAYS, STRAIGHT_LINES};
use crate::words::{contains, highest, lowest, only};
use chess_core::{Board, Colour, Square, Squares};

/// A direction of a line, as White sees it: the queen's eight, then the nightrider's eight.
#[derive(Clone, Copy)]
pub enum Direction {
    East,
    West,
    North,
    South,
    NorthEast,
    SouthEast,
    NorthWest,
    SouthWest,
    NorthNorthEast,
    SouthSouthEast,
    NorthNorthWest,
    SouthSouthWest,
    EastNorthEast,
    EastSouthEast,
    WestNorthWest,
    WestSouthWest,
}

impl Direction {
    // Returns whether the square numbers rise along the line.
    #[tactic(auto, unfolding(crate::specs::ties::Lines::rises))]
    fn rises(self) -> bool
        ensures { result ≡ rises (step_of self) }
    {
        match self {
            Direction::East
            | Direction::North
            | Direction::NorthEast
            | Direction::NorthWest
            | Direction::NorthNorthEast
            | Direction::NorthNorthWest
            | Direction::EastNorthEast
            | Direction::WestNorthWest => true,
            _ => false,
        }
    }

    // Returns the squares of the line from this square on the empty board.
    fn ray(self, from: Square) -> Squares
        ensures { result ≡ ray from (step_of self) }
    {
        RAYS[self.number()][from.index() as usize]
    }

    // Returns the direction's index in `RAYS`.
    fn number(self) -> usize
        ensures value { result ≡ direction_number self }
        ensures small { result < 16 }
    {
        self as usize
    }

    // Returns the first square of `word` in this direction. For an empty `word` it returns a1 or h8,
    // whichever comes last in this direction; no line continues from there.
    #[tactic(auto, using(crate::proofs::rays::Firsts::highest_stop, crate::proofs::rays::Firsts::lowest_stop))]
    fn first(self, word: Squares) -> Square
        ensures { IsStop (step_of self) word result }
    {
        if self.rises() {
            lowest(word | 1u64 << 63)
        } else {
            highest(word | 1)
        }
    }

    // Returns all squares up to the first one of `word` in this direction; all squares if `word` is empty.
    #[tactic(auto, using(crate::proofs::rays::Firsts::falling_up_to, crate::proofs::rays::Firsts::rising_up_to))]
    fn up_to_first(self, word: Squares) -> Squares
        ensures { IsUpTo (step_of self) word result }
    {
        if self.rises() {
            word ^ word.wrapping_sub(1)
        } else {
            u64::MAX << highest(word | 1).index()
        }
    }

    // Returns the next square of the line, or `None` at the board's edge.
    #[tactic(auto, using(crate::proofs::rays::HopWords::next_none, crate::proofs::rays::HopWords::next_some))]
    fn next(self, from: Square) -> Option<Square>
        ensures { result ≡ along from (step_of self) 1 }
    {
        from.show_below_64();
        let ray = self.ray(from);
        if ray == 0 {
            return None;
        }
        Some(self.first(ray))
    }
}

/// Returns the squares of all men on the board, of both colours.
pub fn occupied(board: &Board) -> Squares
    ensures { result ≡ occupied_squares board.now.men }
{
    board.side(Colour::White) | board.side(Colour::Black)
}

// Returns the squares that a rider on `from` reaches in this direction. Only `occupied` matters, not
// which men are there.
fn ride(occupied: Squares, from: Square, direction: Direction) -> Squares
    ensures { (men : List (Option Man)) → occupied ≡ occupied_squares men
        → result ≡ word (λ t. rides men from t (step_of direction)) }
{
    from.show_below_64();
    let ray = direction.ray(from);
    ray & direction.up_to_first(ray & occupied)
}

/// Returns the squares of the file and the rank of `from`, without `from`.
pub fn straight_lines(from: Square) -> Squares
    ensures { result ≡ word (is_on_some straight_steps from) }
{
    STRAIGHT_LINES[from.index() as usize]
}

/// Returns the squares of the diagonals of `from`, without `from`.
pub fn diagonal_lines(from: Square) -> Squares
    ensures { result ≡ word (is_on_some diagonal_steps from) }
{
    DIAGONAL_LINES[from.index() as usize]
}

/// Returns the squares that a rook on `from` reaches. Only `occupied` matters, not which men are
/// there.
pub fn straight_rides(occupied: Squares, from: Square) -> Squares
    ensures { (men : List (Option Man)) → occupied ≡ occupied_squares men
        → result ≡ word (λ t. list_any (rides men from t) straight_steps) }
{
    ride(occupied, from, Direction::East)
        | ride(occupied, from, Direction::West)
        | ride(occupied, from, Direction::North)
        | ride(occupied, from, Direction::South)
}

/// Returns the squares that a bishop on `from` reaches. Only `occupied` matters, not which men are
/// there.
pub fn diagonal_rides(occupied: Squares, from: Square) -> Squares
    ensures { (men : List (Option Man)) → occupied ≡ occupied_squares men
        → result ≡ word (λ t. list_any (rides men from t) diagonal_steps) }
{
    ride(occupied, from, Direction::NorthEast)
        | ride(occupied, from, Direction::SouthEast)
        | ride(occupied, from, Direction::NorthWest)
        | ride(occupied, from, Direction::SouthWest)
}

// Returns the squares that a queen on `from` reaches.
pub(crate) fn queen_rides(occupied: Squares, from: Square) -> Squares
    ensures { (men : List (Option Man)) → occupied ≡ occupied_squares men
        → result ≡ word (λ t. list_any (rides men from t) queen_steps) }
{
    straight_rides(occupied, from) | diagonal_rides(occupied, from)
}

// Returns the squares of the line from `from` in this direction if it crosses one of `squares`;
// otherwise none.
fn line_with(from: Square, squares: Squares, direction: Direction) -> Squares
    ensures { (test : ℕ → Bool) → squares ≡ word test
        → result ≡ word (λ t. is_ahead from (step_of direction) t
        && some_square (λ q. test q && is_ahead from (step_of direction) q)) }
{
    let ray = direction.ray(from);
    if ray & squares == 0 {
        return 0;
    }
    ray
}

// Returns the square to which a grasshopper on `from` hops in this direction, if there is one.
fn hop(occupied: Squares, from: Square, direction: Direction) -> Squares
    ensures { (men : List (Option Man)) → occupied ≡ occupied_squares men
        → result ≡ word (λ t. hops men from t (step_of direction)) }
{
    from.show_below_64();
    let hurdle = direction.first(direction.ray(from) & occupied);
    only(direction.next(hurdle))
}

// Returns the squares from which a grasshopper hops onto `to` over the man next to `to` in this direction.
fn hop_back(occupied: Squares, to: Square, direction: Direction) -> Squares
    ensures { (men : List (Option Man)) → occupied ≡ occupied_squares men
        → result ≡ word (λ s. hopped_from men to s (step_of direction)) }
{
    to.show_below_64();
    let Some(next) = direction.next(to) else {
        return 0;
    };
    next.show_below_64();
    if contains(occupied, next) {
        ride(occupied, next, direction)
    } else {
        0
    }
}

// Returns the squares that a nightrider on `from` reaches by steps of two ranks and one file.
fn steep_rides(occupied: Squares, from: Square) -> Squares
    ensures { (men : List (Option Man)) → occupied ≡ occupied_squares men
        → result ≡ word (λ t. list_any (rides men from t) steep_steps) }
{
    ride(occupied, from, Direction::NorthNorthEast)
        | ride(occupied, from, Direction::SouthSouthEast)
        | ride(occupied, from, Direction::NorthNorthWest)
        | ride(occupied, from, Direction::SouthSouthWest)
}

// Returns the squares that a nightrider on `from` reaches by steps of one rank and two files.
fn flat_rides(occupied: Squares, from: Square) -> Squares
    ensures { (men : List (Option Man)) → occupied ≡ occupied_squares men
        → result ≡ word (λ t. list_any (rides men from t) flat_steps) }
{
    ride(occupied, from, Direction::EastNorthEast)
        | ride(occupied, from, Direction::EastSouthEast)
        | ride(occupied, from, Direction::WestNorthWest)
        | ride(occupied, from, Direction::WestSouthWest)
}

// Returns the squares that a nightrider on `from` reaches.
pub(crate) fn knight_rides(occupied: Squares, from: Square) -> Squares
    ensures { (men : List (Option Man)) → occupied ≡ occupied_squares men
        → result ≡ word (λ t. list_any (rides men from t) knight_steps) }
{
    steep_rides(occupied, from) | flat_rides(occupied, from)
}

// Returns the squares to which a grasshopper on `from` hops along its file and its rank.
fn straight_hops(occupied: Squares, from: Square) -> Squares
    ensures { (men : List (Option Man)) → occupied ≡ occupied_squares men
        → result ≡ word (λ t. list_any (hops men from t) straight_steps) }
{
    hop(occupied, from, Direction::East)
        | hop(occupied, from, Direction::West)
        | hop(occupied, from, Direction::North)
        | hop(occupied, from, Direction::South)
}

// Returns the squares to which a grasshopper on `from` hops along its diagonals.
fn diagonal_hops(occupied: Squares, from: Square) -> Squares
    ensures { (men : List (Option Man)) → occupied ≡ occupied_squares men
        → result ≡ word (λ t. list_any (hops men from t) diagonal_steps) }
{
    hop(occupied, from, Direction::NorthEast)
        | hop(occupied, from, Direction::SouthEast)
        | hop(occupied, from, Direction::NorthWest)
        | hop(occupied, from, Direction::SouthWest)
}

// Returns the squares to which a grasshopper on `from` hops.
pub(crate) fn queen_hops(occupied: Squares, from: Square) -> Squares
    ensures { (men : List (Option Man)) → occupied ≡ occupied_squares men
        → result ≡ word (λ t. list_any (hops men from t) queen_steps) }
{
    straight_hops(occupied, from) | diagonal_hops(occupied, from)
}

// Returns the squares from which a grasshopper hops to `to` along a file or a rank.
fn straight_hops_back(occupied: Squares, to: Square) -> Squares
    ensures { (men : List (Option Man)) → occupied ≡ occupied_squares men
        → result ≡ word (λ s. list_any (hopped_from men to s) straight_steps) }
{
    hop_back(occupied, to, Direction::East)
        | hop_back(occupied, to, Direction::West)
        | hop_back(occupied, to, Direction::North)
        | hop_back(occupied, to, Direction::South)
}

// Returns the squares from which a grasshopper hops to `to` along a diagonal.
fn diagonal_hops_back(occupied: Squares, to: Square) -> Squares
    ensures { (men : List (Option Man)) → occupied ≡ occupied_squares men
        → result ≡ word (λ s. list_any (hopped_from men to s) diagonal_steps) }
{
    hop_back(occupied, to, Direction::NorthEast)
        | hop_back(occupied, to, Direction::SouthEast)
        | hop_back(occupied, to, Direction::NorthWest)
        | hop_back(occupied, to, Direction::SouthWest)
}

// Returns the squares from which a grasshopper hops to `to`.
pub(crate) fn queen_hops_back(occupied: Squares, to: Square) -> Squares
    ensures { (men : List (Option Man)) → occupied ≡ occupied_squares men
        → result ≡ word (λ s. list_any (hopped_from men to s) queen_steps) }
{
    straight_hops_back(occupied, to) | diagonal_hops_back(occupied, to)
}

/// Returns the squares of the queen's lines from `from` that cross one of `squares`.
pub fn queen_lines_with(from: Square, squares: Squares) -> Squares
    ensures { (men : List (Option Man)) (e : Colour) → squares ≡ squares_of men e Grasshopper
        → result ≡ word (λ t. list_any (is_lined men e Grasshopper from t) queen_steps) }
{
    let straight = line_with(from, squares, Direction::East)
        | line_with(from, squares, Direction::West)
        | line_with(from, squares, Direction::North)
        | line_with(from, squares, Direction::South);
    let diagonal = line_with(from, squares, Direction::NorthEast)
        | line_with(from, squares, Direction::SouthEast)
        | line_with(from, squares, Direction::NorthWest)
        | line_with(from, squares, Direction::SouthWest);
    straight | diagonal
}

/// Returns the squares of the nightrider's lines from `from` that cross one of `squares`.
pub fn knight_lines_with(from: Square, squares: Squares) -> Squares
    ensures { (men : List (Option Man)) (e : Colour) → squares ≡ squares_of men e Nightrider
        → result ≡ word (λ t. list_any (is_lined men e Nightrider from t) knight_steps) }
{
    let steep = line_with(from, squares, Direction::NorthNorthEast)
        | line_with(from, squares, Direction::SouthSouthEast)
        | line_with(from, squares, Direction::NorthNorthWest)
        | line_with(from, squares, Direction::SouthSouthWest);
    let flat = line_with(from, squares, Direction::EastNorthEast)
        | line_with(from, squares, Direction::EastSouthEast)
        | line_with(from, squares, Direction::WestNorthWest)
        | line_with(from, squares, Direction::WestSouthWest);
    steep | flat
}
