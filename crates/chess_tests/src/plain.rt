//! A plain implementation of the rules, to compare with: it copies the position for each move, and lists
//! moves by testing all triples.
use arrayvec::ArrayVec;
use chess_core::{Board, Colour, Kind, Man, Move, Square, Unmoved};

// The condition under which a position is played.
#[derive(Clone, Copy, PartialEq, Eq)]
pub(crate) enum Rule {
    Orthodox,
    Circe,
    Madrasi,
}

// A position, square by square.
#[derive(Clone, Copy)]
pub(crate) struct Plain {
    pub(crate) men: [Option<Man>; 64],
    pub(crate) turn: Colour,
    pub(crate) unmoved: Unmoved,
    pub(crate) crossed: Option<Square>,
    grasshopper: bool,
    nightrider: bool,
}

// More moves than any position of the tests has.
pub(crate) const MOVES: usize = 1024;

// Moves in order.
pub(crate) type Moves = ArrayVec<Move, MOVES>;

// The promotions in order, none first.
const PROMOTIONS: [Option<Kind>; 7] = [
    None,
    Some(Kind::Queen),
    Some(Kind::Rook),
    Some(Kind::Bishop),
    Some(Kind::Knight),
    Some(Kind::Grasshopper),
    Some(Kind::Nightrider),
];

// The queen's directions: files to the right and ranks up, modulo 256, so 255 is one back.
pub(crate) const LINES: [(u8, u8); 8] = [
    (1, 0),
    (255, 0),
    (0, 1),
    (0, 255),
    (1, 1),
    (1, 255),
    (255, 1),
    (255, 255),
];

// The rook's directions, and the bishop's.
const STRAIGHT: [(u8, u8); 4] = [(1, 0), (255, 0), (0, 1), (0, 255)];

const SLANTED: [(u8, u8); 4] = [(1, 1), (1, 255), (255, 1), (255, 255)];

pub(crate) const LEAPS: [(u8, u8); 8] = [
    (1, 2),
    (1, 254),
    (255, 2),
    (255, 254),
    (2, 1),
    (2, 255),
    (254, 1),
    (254, 255),
];

// Returns the next square in a direction.
pub(crate) fn next(square: Square, way: (u8, u8)) -> Option<Square> {
    Square::new(
        square.file().wrapping_add(way.0),
        square.rank().wrapping_add(way.1),
    )
}

// Returns a bit for the square; a1 is the lowest.
pub(crate) fn bit(square: Square) -> u64 {
    1u64 << square.index()
}

// Returns whether one step in one of these directions leads from `from` to `to`.
fn steps(from: Square, to: Square, ways: &[(u8, u8)]) -> bool {
    for way in ways {
        if next(from, *way) == Some(to) {
            return true;
        }
    }
    false
}

// Returns the rank step of the colour's pawns: up for White, down for Black.
pub(crate) fn up(colour: Colour) -> u8 {
    match colour {
        Colour::White => 1,
        Colour::Black => 255,
    }
}

impl Plain {
    // Returns the position of a board.
    pub(crate) fn of(board: &Board) -> Plain {
        let mut men = [None; 64];
        for number in 0..64u8 {
            men[number as usize] = board.man_at(Square::numbered(number));
        }
        Plain {
            men,
            turn: board.turn(),
            unmoved: board.unmoved(),
            crossed: board.crossed(),
            grasshopper: board.may_promote(Kind::Grasshopper),
            nightrider: board.may_promote(Kind::Nightrider),
        }
    }

    // Returns the man on a square, if there is one.
    pub(crate) fn man(&self, square: Square) -> Option<Man> {
        self.men[square.index() as usize]
    }

    // Returns whether a man of this colour and kind is on the square.
    pub(crate) fn has(&self, square: Square, colour: Colour, kind: Kind) -> bool {
        self.man(square) == Some(Man { colour, kind })
    }

    // Returns whether a man of the colour is on the square.
    pub(crate) fn has_colour(&self, square: Square, colour: Colour) -> bool {
        match self.man(square) {
            Some(man) => man.colour == colour,
            None => false,
        }
    }

    // Returns a bit for each man of the colour.
    pub(crate) fn of_colour(&self, colour: Colour) -> u64 {
        let mut squares = 0u64;
        for number in 0..64u8 {
            let square = Square::numbered(number);
            if self.has_colour(square, colour) {
                squares |= bit(square);
            }
        }
        squares
    }

    // Returns a bit for each man of the kind.
    pub(crate) fn of_kind(&self, kind: Kind) -> u64 {
        let mut squares = 0u64;
        for number in 0..64u8 {
            let square = Square::numbered(number);
            if self.has(square, Colour::White, kind) || self.has(square, Colour::Black, kind) {
                squares |= bit(square);
            }
        }
        squares
    }

    // Returns whether a rider reaches `to` from `from` in one of these directions.
    fn rides(&self, from: Square, to: Square, ways: &[(u8, u8)]) -> bool {
        for way in ways {
            let mut at = from;
            for _step in 0..8u8 {
                match next(at, *way) {
                    Some(square) => at = square,
                    None => break,
                }
                if at == to {
                    return true;
                }
                if self.man(at).is_some() {
                    break;
                }
            }
        }
        false
    }

    // Returns whether a grasshopper hops from `from` to `to`.
    fn hops(&self, from: Square, to: Square) -> bool {
        for way in &LINES {
            let mut at = from;
            for _step in 0..8u8 {
                match next(at, *way) {
                    Some(square) => at = square,
                    None => break,
                }
                if self.man(at).is_some() {
                    if next(at, *way) == Some(to) {
                        return true;
                    }
                    break;
                }
            }
        }
        false
    }

    // Returns whether the man on `from` could capture on `to`.
    pub(crate) fn reaches(&self, from: Square, to: Square) -> bool {
        let Some(man) = self.man(from) else {
            return false;
        };
        match man.kind {
            Kind::King => steps(from, to, &LINES),
            Kind::Knight => steps(from, to, &LEAPS),
            Kind::Grasshopper => self.hops(from, to),
            Kind::Pawn => steps(from, to, &[(1, up(man.colour)), (255, up(man.colour))]),
            rider => self.rides(from, to, ways_of(rider)),
        }
    }

    // Returns whether the man on the square is paralysed.
    pub(crate) fn is_paralysed(&self, rule: Rule, square: Square) -> bool {
        let Some(man) = self.man(square) else {
            return false;
        };
        if rule != Rule::Madrasi || man.kind == Kind::King {
            return false;
        }
        for number in 0..64u8 {
            let other = Square::numbered(number);
            if self.has(other, man.colour.other(), man.kind) && self.reaches(other, square) {
                return true;
            }
        }
        false
    }

    // Returns whether the colour is in check.
    pub(crate) fn is_in_check(&self, rule: Rule, colour: Colour) -> bool {
        for number in 0..64u8 {
            let king = Square::numbered(number);
            if self.has(king, colour, Kind::King) && self.is_attacked(rule, king, colour.other()) {
                return true;
            }
        }
        false
    }

    // Returns whether the man on `from` has the colour and attacks the square.
    fn attacks(&self, rule: Rule, from: Square, square: Square, colour: Colour) -> bool {
        self.has_colour(from, colour)
            && self.reaches(from, square)
            && !self.is_paralysed(rule, from)
    }

    // Returns whether the colour attacks the square.
    pub(crate) fn is_attacked(&self, rule: Rule, square: Square, colour: Colour) -> bool {
        for number in 0..64u8 {
            if self.attacks(rule, Square::numbered(number), square, colour) {
                return true;
            }
        }
        false
    }

    // Returns a bit for each man of the colour that attacks the square.
    pub(crate) fn attackers(&self, rule: Rule, square: Square, colour: Colour) -> u64 {
        let mut squares = 0u64;
        for number in 0..64u8 {
            let from = Square::numbered(number);
            if self.attacks(rule, from, square, colour) {
                squares |= bit(from);
            }
        }
        squares
    }

    // Returns a bit for each man that could capture on the square.
    pub(crate) fn reachers(&self, to: Square) -> u64 {
        let mut squares = 0u64;
        for number in 0..64u8 {
            let from = Square::numbered(number);
            if self.reaches(from, to) {
                squares |= bit(from);
            }
        }
        squares
    }

    // Returns a bit for each paralysed man.
    pub(crate) fn paralysed(&self, rule: Rule) -> u64 {
        let mut squares = 0u64;
        for number in 0..64u8 {
            let square = Square::numbered(number);
            if self.is_paralysed(rule, square) {
                squares |= bit(square);
            }
        }
        squares
    }

    // Returns a bit for each square that the colour attacks.
    pub(crate) fn attacked(&self, rule: Rule, colour: Colour) -> u64 {
        let mut squares = 0u64;
        for number in 0..64u8 {
            let square = Square::numbered(number);
            if self.is_attacked(rule, square, colour) {
                squares |= bit(square);
            }
        }
        squares
    }

    // Returns whether no man is on the square.
    pub(crate) fn is_empty(&self, square: Square) -> bool {
        self.man(square).is_none()
    }

    // Returns whether a pawn moves like this: by a capture or a step.
    fn pawn_steps_to(&self, colour: Colour, m: Move) -> bool {
        if self.reaches(m.from, m.to) {
            !self.is_empty(m.to) || self.crossed == Some(m.to)
        } else {
            self.is_pawn_step(colour, m)
        }
    }

    // Returns whether a pawn moves like this by a step: one square ahead, or two from its second rank.
    fn is_pawn_step(&self, colour: Colour, m: Move) -> bool {
        let Some(one) = next(m.from, (0, up(colour))) else {
            return false;
        };
        if !self.is_empty(one) {
            return false;
        }
        if one == m.to {
            return true;
        }
        let start = match colour {
            Colour::White => 2,
            Colour::Black => 7,
        };
        m.from.rank() == start && next(one, (0, up(colour))) == Some(m.to) && self.is_empty(m.to)
    }

    // Returns the rook's square and the square that the king crosses, if the king goes two squares towards
    // a rook with castling rights, over empty squares.
    pub(crate) fn castling(&self, king: Man, m: Move) -> Option<(Square, Square)> {
        let (rook, crossed) = castling_squares(king.colour, m)?;
        if self.unmoved.has(m.from) && self.unmoved.has(rook) && self.rides(rook, m.from, &LINES) {
            Some((rook, crossed))
        } else {
            None
        }
    }

    // Returns whether the king may castle by this move.
    fn castles(&self, rule: Rule, king: Man, m: Move) -> bool {
        let Some((rook, crossed)) = self.castling(king, m) else {
            return false;
        };
        !self.is_paralysed(rule, rook)
            && !self.is_in_check(rule, king.colour)
            && !self
                .with_king_on(king, m.from, crossed)
                .is_in_check(rule, king.colour)
    }

    // Returns the position with only the king moved.
    pub(crate) fn with_king_on(&self, king: Man, from: Square, to: Square) -> Plain {
        let mut plain = *self;
        plain.men[from.index() as usize] = None;
        plain.men[to.index() as usize] = Some(king);
        plain
    }

    // Returns whether the move names a promotion exactly if it should.
    fn is_promotion_right(&self, man: Man, m: Move) -> bool {
        let last = match man.colour {
            Colour::White => 8,
            Colour::Black => 1,
        };
        if man.kind != Kind::Pawn || m.to.rank() != last {
            return m.promo.is_none();
        }
        match m.promo {
            Some(kind) => self.may_promote(kind),
            None => false,
        }
    }

    // Returns whether a man of the colour may arrive on the square: it is empty or holds an enemy that
    // isn't a king.
    fn is_free_for(&self, colour: Colour, square: Square) -> bool {
        match self.man(square) {
            Some(other) => other.colour != colour && other.kind != Kind::King,
            None => true,
        }
    }

    // Returns whether the man moves like this, paralysed or not.
    fn goes(&self, rule: Rule, man: Man, m: Move) -> bool {
        match man.kind {
            Kind::Pawn => self.pawn_steps_to(man.colour, m),
            Kind::King => self.reaches(m.from, m.to) || self.castles(rule, man, m),
            _ => self.reaches(m.from, m.to),
        }
    }

    // Returns whether the move is pseudo-legal.
    pub(crate) fn may_arrive(&self, rule: Rule, man: Man, m: Move) -> bool {
        man.colour == self.turn
            && self.is_free_for(man.colour, m.to)
            && self.is_promotion_right(man, m)
            && self.goes(rule, man, m)
            && !self.is_paralysed(rule, m.from)
    }

    // Returns whether the man on the origin may go to the arrival, and its king isn't in check afterwards.
    pub(crate) fn is_legal(&self, rule: Rule, m: Move) -> bool {
        let Some(man) = self.man(m.from) else {
            return false;
        };
        self.may_arrive(rule, man, m) && !self.after(rule, m).is_in_check(rule, man.colour)
    }

    // Returns the pseudo-legal moves.
    pub(crate) fn moves_but_for_check(&self, rule: Rule) -> Moves {
        let mut moves = ArrayVec::new();
        for number in 0..64u8 {
            self.add_moves_from(rule, Square::numbered(number), &mut moves);
        }
        moves
    }

    // Adds the pseudo-legal moves of the man on the square, if it is of the side to move.
    fn add_moves_from(&self, rule: Rule, from: Square, moves: &mut Moves) {
        let Some(man) = self.man(from) else {
            return;
        };
        if man.colour != self.turn {
            return;
        }
        for to in 0..64u8 {
            for promo in &PROMOTIONS {
                let m = Move {
                    from,
                    to: Square::numbered(to),
                    promo: *promo,
                };
                if self.may_arrive(rule, man, m) {
                    let _fits = moves.try_push(m);
                }
            }
        }
    }

    // Returns whether the side to move is in check without a legal move.
    pub(crate) fn is_mate(&self, rule: Rule) -> bool {
        self.is_in_check(rule, self.turn) && !self.has_legal_move(rule)
    }

    // Returns whether the side to move has a legal move.
    pub(crate) fn has_legal_move(&self, rule: Rule) -> bool {
        for number in 0..64u8 {
            let mut moves = ArrayVec::new();
            self.add_moves_from(rule, Square::numbered(number), &mut moves);
            for m in moves.as_slice() {
                if self.is_legal(rule, *m) {
                    return true;
                }
            }
        }
        false
    }

    // Returns the square on which the man captures by this move: its arrival, or for en passant the pawn's
    // square.
    pub(crate) fn capture_square(&self, man: Man, m: Move) -> Square {
        if man.kind == Kind::Pawn && m.from.file() != m.to.file() && self.is_empty(m.to) {
            return Square::new(m.to.file(), m.from.rank()).unwrap_or_default();
        }
        m.to
    }

    // Returns the position after a pseudo-legal move.
    pub(crate) fn after(&self, rule: Rule, m: Move) -> Plain {
        let Some(man) = self.man(m.from) else {
            return *self;
        };
        let captured = self.capture_square(man, m);
        let mut plain = *self;
        plain.turn = self.turn.other();
        plain.unmoved = self.unmoved.without(m.from).without(m.to).without(captured);
        plain.crossed = passed(man, m);
        plain.carry(man, m, captured);
        plain.move_rook(man, m);
        if let (Rule::Circe, Some(victim)) = (rule, self.man(captured)) {
            plain.rebirth(victim, captured);
        }
        plain
    }

    // Removes the captured man, if there is one, and moves `man`, which may promote.
    fn carry(&mut self, man: Man, m: Move, captured: Square) {
        self.men[captured.index() as usize] = None;
        self.men[m.from.index() as usize] = None;
        self.men[m.to.index() as usize] = Some(Man {
            colour: man.colour,
            kind: m.promo.unwrap_or(man.kind),
        });
    }

    // Moves the rook if the king castles.
    fn move_rook(&mut self, man: Man, m: Move) {
        if man.kind == Kind::King {
            if let Some((rook, crossed)) = castling_squares(man.colour, m) {
                self.shift(rook, crossed);
            }
        }
    }

    // Moves a rook.
    fn shift(&mut self, from: Square, to: Square) {
        self.men[to.index() as usize] = self.man(from);
        self.men[from.index() as usize] = None;
        self.unmoved = self.unmoved.without(from);
    }

    // Puts a captured man on its home square, if that is empty. A reborn rook may castle.
    fn rebirth(&mut self, victim: Man, captured: Square) {
        let home = home(victim, captured);
        if self.is_empty(home) {
            self.men[home.index() as usize] = Some(victim);
            if victim.kind == Kind::Rook {
                self.unmoved = self.unmoved.with(home);
            }
        }
    }

    // Returns whether a pawn may promote to this kind.
    pub(crate) fn may_promote(&self, kind: Kind) -> bool {
        match kind {
            Kind::Grasshopper => self.grasshopper,
            Kind::Nightrider => self.nightrider,
            Kind::Queen | Kind::Rook | Kind::Bishop | Kind::Knight => true,
            Kind::King | Kind::Pawn => false,
        }
    }
}

// Returns the rook's square and the square that the king crosses, if the king goes two squares from home
// along its rank.
fn castling_squares(colour: Colour, m: Move) -> Option<(Square, Square)> {
    let rank = match colour {
        Colour::White => 1u8,
        Colour::Black => 8,
    };
    if Some(m.from) != Square::new(5, rank) || m.to.rank() != rank {
        return None;
    }
    match m.to.file() {
        7 => Some((Square::new(8, rank)?, Square::new(6, rank)?)),
        3 => Some((Square::new(1, rank)?, Square::new(4, rank)?)),
        _ => None,
    }
}

// Returns the directions of a rider of this kind; none for other kinds.
fn ways_of(kind: Kind) -> &'static [(u8, u8)] {
    match kind {
        Kind::Queen => &LINES,
        Kind::Rook => &STRAIGHT,
        Kind::Bishop => &SLANTED,
        Kind::Nightrider => &LEAPS,
        _ => &[],
    }
}

// Returns the square that a pawn passes by this move, if it is a double step.
fn passed(man: Man, m: Move) -> Option<Square> {
    if man.kind == Kind::Pawn && m.from.rank().abs_diff(m.to.rank()) == 2 {
        next(m.from, (0, up(man.colour)))
    } else {
        None
    }
}

// Returns the home square of a man captured on this square.
pub(crate) fn home(man: Man, captured: Square) -> Square {
    let dark = captured.file() % 2 == captured.rank() % 2;
    let first = match man.colour {
        Colour::White => 1,
        Colour::Black => 8,
    };
    // Whether the home square is the one for White's men captured on dark squares (a1, c1, g1), or Black's
    // on light ones.
    let own = dark == (man.colour == Colour::White);
    let (file, rank) = match man.kind {
        Kind::King | Kind::Queen => (4, first),
        Kind::Rook => (if own { 1 } else { 8 }, first),
        Kind::Bishop => (if own { 3 } else { 6 }, first),
        Kind::Knight => (if own { 7 } else { 2 }, first),
        Kind::Pawn => (captured.file(), if first == 1 { 2 } else { 7 }),
        Kind::Grasshopper | Kind::Nightrider => (captured.file(), 9 - first),
    };
    Square::new(file, rank).unwrap_or_default()
}
