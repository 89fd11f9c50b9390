//! A move and the motifs that it shows, by the plain rules.
use crate::motif::Motif;
use crate::plain::{LINES, Plain, Rule, bit, next};
use chess_core::{Colour, Kind, Man, Move, Square};

// A pseudo-legal move, or a castling that only attack or paralysis forbids.
#[derive(Drop)]
pub(crate) struct Case<'a> {
    rule: Rule,
    before: &'a Plain,
    man: Man,
    m: Move,
    after: Plain,
    legal: bool,
    was_in_check: bool,
    // A bit for each enemy that attacks the mover's king after the move.
    exposing: u64,
    // A bit for each of the mover's men that attacks the other king after the move.
    checkers: u64,
    // A bit for each man that hasn't moved.
    stood: u64,
}

// Returns a bit for each man that attacks the colour's king.
fn checkers(plain: &Plain, rule: Rule, colour: Colour) -> u64 {
    match king_square(plain, colour) {
        Some(king) => plain.attackers(rule, king, colour.other()),
        None => 0,
    }
}

// Returns a bit for each man that is on the same square before and after the move.
fn stood(before: &Plain, after: &Plain, m: Move) -> u64 {
    let mut squares = 0u64;
    for number in 0..64u8 {
        let square = Square::numbered(number);
        if square != m.to && before.man(square) == after.man(square) {
            squares |= bit(square);
        }
    }
    squares
}

// Returns the square of the colour's king, if there is one.
fn king_square(plain: &Plain, colour: Colour) -> Option<Square> {
    for number in 0..64u8 {
        let square = Square::numbered(number);
        if plain.has(square, colour, Kind::King) {
            return Some(square);
        }
    }
    None
}

// Returns a bit for each square next to this one.
fn beside(square: Square) -> u64 {
    let mut squares = 0u64;
    for way in &LINES {
        if let Some(near) = next(square, *way) {
            squares |= bit(near);
        }
    }
    squares
}

// Returns a bit for each square of this square's rank.
fn rank_of(square: Square) -> u64 {
    bit(Square::new(1, square.rank()).unwrap_or_default()).wrapping_mul(255)
}

impl<'a> Case<'a> {
    // Returns the case of this man's move under the rule.
    pub(crate) fn of(before: &'a Plain, rule: Rule, man: Man, m: Move) -> Case<'a> {
        let after = before.after(rule, m);
        Case {
            rule,
            before,
            man,
            m,
            after,
            legal: before.is_legal(rule, m),
            was_in_check: before.is_in_check(rule, man.colour),
            exposing: checkers(&after, rule, man.colour),
            checkers: checkers(&after, rule, man.colour.other()),
            stood: stood(before, &after, m),
        }
    }

    // Returns whether the move shows the motif.
    pub(crate) fn shows(&self, motif: Motif) -> bool {
        match motif {
            Motif::Exposes(kind) => self.is_pinned(kind),
            Motif::ExposedTo(kind) => self.is_pinned_by(kind),
            Motif::Uncovers(kind) => self.uncovers_by(kind),
            Motif::UncoveredBy(kind) => self.is_uncovered_by(kind),
            Motif::DoubleCheck => self.checks_twice(),
            Motif::InDoubleCheck => self.is_in_double_check(),
            Motif::Mates => self.mates(),
            Motif::Parries(kind) => self.parries_by(kind),
            other => self.shows_of_pawns(other),
        }
    }

    // Returns whether the move shows the motif, one of pawns or one that `shows_en_passant` decides.
    fn shows_of_pawns(&self, motif: Motif) -> bool {
        match motif {
            Motif::PromotionChecks(kind) => self.promotes_with_check(kind),
            Motif::PromotionMates(kind) => self.promotes_with_mate(kind),
            Motif::PromotionParries => self.parries_by_promotion(),
            Motif::StepMates => self.mates_ahead(1),
            Motif::DoubleStepMates => self.mates_ahead(2),
            Motif::CaptureMates => self.mates_by_capture(),
            Motif::UncoversMate(kind) => self.uncovers_mate(kind),
            other => self.shows_en_passant(other),
        }
    }

    // Returns whether the move shows the motif, one of en passant or one that `shows_castling` decides.
    fn shows_en_passant(&self, motif: Motif) -> bool {
        let shown = match motif {
            Motif::EnPassant => self.legal,
            Motif::EnPassantOpensRank => self.opens_rank(),
            Motif::EnPassantOpensLine => self.opens_line(),
            Motif::EnPassantParries => self.parries(),
            Motif::EnPassantUncovers => self.uncovers(),
            Motif::EnPassantMates => self.mates(),
            other => return self.shows_castling(other),
        };
        shown && self.is_en_passant()
    }

    // Returns whether the move shows the motif, one of castling or one that `shows_of_kings` decides.
    fn shows_castling(&self, motif: Motif) -> bool {
        let shown = match motif {
            Motif::Castles => self.legal,
            Motif::CastlingChecks => self.checks(),
            Motif::CastlingMates => self.mates(),
            Motif::CastlingFromCheck => self.was_in_check,
            Motif::CastlingAcross => self.castles_across(),
            Motif::CastlingInto => self.castles_into(),
            Motif::CastlingParalysed => self.castles_with_paralysed_rook(),
            other => return self.shows_of_kings(other),
        };
        shown && self.castling().is_some()
    }

    // Returns whether the move shows the motif, one of kings or one that `shows_hurdle` decides.
    fn shows_of_kings(&self, motif: Motif) -> bool {
        match motif {
            Motif::StepsAlong => self.steps_along(),
            Motif::FlightOpened => self.opens_flight(),
            Motif::FlightCovered => self.covers_flight(),
            Motif::FlightBeyond => self.bars_flight_after(),
            Motif::FlightUnmasked => self.unmasks_flight(),
            Motif::KinglessMover => self.goes_without(self.man.colour),
            Motif::KinglessEnemy => self.goes_without(self.man.colour.other()),
            other => self.shows_hurdle(other),
        }
    }

    // Returns whether the move shows the motif, one of hurdles or one that `shows_rebirth` decides.
    fn shows_hurdle(&self, motif: Motif) -> bool {
        match motif {
            Motif::HurdleArrives => self.checks_over(true),
            Motif::HurdleLeaves => self.checks_over(false),
            Motif::OwnHurdleArrives => self.is_exposed_over(true),
            Motif::OwnHurdleLeaves => self.is_exposed_over(false),
            other => self.shows_rebirth(other),
        }
    }

    // Returns whether the move shows the motif, one of rebirth or one that `shows_paralysis` decides.
    fn shows_rebirth(&self, motif: Motif) -> bool {
        match motif {
            Motif::RebirthExposes => self.is_exposed_by_rebirth(),
            Motif::RebirthSaves => self.is_saved_by_rebirth(),
            Motif::RebirthParries => self.is_parried_by_rebirth(),
            Motif::RebirthParriesPromoted => self.is_promotion_parried(),
            Motif::RebirthChecks => self.checks_by_rebirth(),
            Motif::RebirthMatesOver => self.mates_over_reborn(),
            Motif::RebirthChecksPromoted => self.checks_over_by_promotion(),
            Motif::RebirthMates => self.mates_by_rebirth(),
            Motif::RebirthParriesMate => self.is_mate_answered_by_rebirth(),
            other => self.shows_paralysis(other),
        }
    }

    // Returns whether the move shows the motif, which is one of paralysis.
    fn shows_paralysis(&self, motif: Motif) -> bool {
        match motif {
            Motif::FreesEnemy => self.frees_enemy(),
            Motif::FreesChecker => self.frees_checker(),
            Motif::ParalysesChecker => self.paralyses_checker(),
            Motif::ParalysisMates => self.mates_by_paralysis(),
            Motif::ParalysisSaves => self.is_saved_by_paralysis(),
            _ => false,
        }
    }

    // Returns the square of the colour's king before the move, if there is one.
    fn king(&self, colour: Colour) -> Option<Square> {
        king_square(self.before, colour)
    }

    // Returns whether the move is illegal because it exposes a king that wasn't in check.
    fn leaves_king_in_check(&self) -> bool {
        !self.was_in_check && self.exposing != 0
    }

    // Returns whether a man of this kind exposes its king, which wasn't in check.
    fn is_pinned(&self, kind: Kind) -> bool {
        self.man.kind == kind && self.leaves_king_in_check()
    }

    // Returns whether the move exposes its king, which wasn't in check, to a man of this kind.
    fn is_pinned_by(&self, kind: Kind) -> bool {
        self.leaves_king_in_check() && self.exposing & self.after.of_kind(kind) != 0
    }

    // Returns whether the move parries a check.
    fn parries(&self) -> bool {
        self.was_in_check && self.legal
    }

    // Returns whether the move of a man of this kind parries a check.
    fn parries_by(&self, kind: Kind) -> bool {
        self.man.kind == kind && self.parries()
    }

    // Returns whether a promotion parries a check.
    fn parries_by_promotion(&self) -> bool {
        self.m.promo.is_some() && self.parries()
    }

    // Returns whether the move is legal and gives check.
    fn checks(&self) -> bool {
        self.legal && self.checkers != 0
    }

    // Returns whether the move is legal and two men or more give check.
    fn checks_twice(&self) -> bool {
        self.legal && self.checkers.count_ones() > 1
    }

    // Returns whether the move is legal and mates.
    fn mates(&self) -> bool {
        self.checks() && self.after.is_mate(self.rule)
    }

    // Returns whether the other side wasn't in check before the move.
    fn gave_no_check(&self) -> bool {
        !self.before.is_in_check(self.rule, self.man.colour.other())
    }

    // Returns whether the move is legal and a man that didn't move gives check, which it didn't give before.
    fn uncovers(&self) -> bool {
        self.legal && self.gave_no_check() && self.checkers & self.stood != 0
    }

    // Returns whether the move of a man of this kind uncovers a check.
    fn uncovers_by(&self, kind: Kind) -> bool {
        self.man.kind == kind && self.uncovers()
    }

    // Returns whether the move of a man of this kind uncovers a check and mates.
    fn uncovers_mate(&self, kind: Kind) -> bool {
        self.uncovers_by(kind) && self.mates()
    }

    // Returns whether the move uncovers a check that a man of this kind gives.
    fn is_uncovered_by(&self, kind: Kind) -> bool {
        self.uncovers() && self.checkers & self.stood & self.after.of_kind(kind) != 0
    }

    // Returns whether the move, not the king's, is illegal and was made in double check.
    fn is_in_double_check(&self) -> bool {
        self.man.kind != Kind::King
            && checkers(self.before, self.rule, self.man.colour).count_ones() > 1
            && !self.legal
    }

    // Returns whether the move promotes to this kind and the promoted man gives check.
    fn promotes_with_check(&self, kind: Kind) -> bool {
        self.legal && self.m.promo == Some(kind) && self.checkers & bit(self.m.to) != 0
    }

    // Returns whether the move promotes to this kind, the promoted man gives check, and it is mate.
    fn promotes_with_mate(&self, kind: Kind) -> bool {
        self.promotes_with_check(kind) && self.mates()
    }

    // Returns whether a pawn mates, doesn't promote, and gives check itself.
    fn pawn_mates(&self) -> bool {
        self.man.kind == Kind::Pawn
            && self.m.promo.is_none()
            && self.mates()
            && self.checkers & bit(self.m.to) != 0
    }

    // Returns whether the move goes this many ranks along its file.
    fn goes_ahead(&self, ranks: u8) -> bool {
        self.m.from.file() == self.m.to.file()
            && self.m.from.rank().abs_diff(self.m.to.rank()) == ranks
    }

    // Returns whether a pawn mates by a move of this many ranks along its file.
    fn mates_ahead(&self, ranks: u8) -> bool {
        self.goes_ahead(ranks) && self.pawn_mates()
    }

    // Returns whether a pawn mates by a capture, not en passant.
    fn mates_by_capture(&self) -> bool {
        !self.before.is_empty(self.m.to) && self.pawn_mates()
    }

    // Returns whether the move is legal and the colour has no king.
    fn goes_without(&self, colour: Colour) -> bool {
        self.legal && self.king(colour).is_none()
    }

    // Returns whether the king, in check, goes to a square that is attacked only because it leaves its own.
    fn steps_along(&self) -> bool {
        self.was_in_check
            && self.man.kind == Kind::King
            && !self.legal
            && !self
                .before
                .is_attacked(self.rule, self.m.to, self.man.colour.other())
    }

    // Returns whether the move gives check, and all legal replies are the king's, to squares that were
    // attacked before the move.
    fn opens_flight(&self) -> bool {
        if !self.checks() || self.after.is_mate(self.rule) {
            return false;
        }
        let answers = self.after.moves_but_for_check(self.rule);
        for answer in answers.as_slice() {
            if !self.flees(*answer) && self.after.is_legal(self.rule, *answer) {
                return false;
            }
        }
        true
    }

    // Returns whether the reply is the king's, to a square that was attacked before the move.
    fn flees(&self, answer: Move) -> bool {
        self.after.has(answer.from, self.after.turn, Kind::King)
            && self
                .before
                .is_attacked(self.rule, answer.to, self.man.colour)
    }

    // Returns a bit for each square next to the other king without a man of its side after the move.
    fn refuges(&self) -> u64 {
        match self.king(self.man.colour.other()) {
            Some(king) => beside(king) & !self.after.of_colour(self.man.colour.other()),
            None => 0,
        }
    }

    // Returns a bit for each refuge that the mover didn't attack before the move.
    fn fresh_refuges(&self) -> u64 {
        self.refuges() & !self.before.attacked(self.rule, self.man.colour)
    }

    // Returns whether the move mates, with a square next to the king that wasn't attacked before it.
    fn covers_flight(&self) -> bool {
        self.mates() && self.fresh_refuges() != 0
    }

    // Returns whether the move mates, with a free square next to the king that is attacked only once the king
    // is there.
    fn bars_flight_after(&self) -> bool {
        self.mates() && self.refuges() & !self.after.attacked(self.rule, self.man.colour) != 0
    }

    // Returns whether one of the mover's men that didn't move attacks a refuge that none attacked before.
    fn unmasks_flight(&self) -> bool {
        if !self.mates() {
            return false;
        }
        let refuges = self.fresh_refuges();
        for number in 0..64u8 {
            let square = Square::numbered(number);
            if refuges & bit(square) != 0 && self.stood_attackers(square) != 0 {
                return true;
            }
        }
        false
    }

    // Returns a bit for each of the mover's men that didn't move and attacks the square after the move.
    fn stood_attackers(&self, square: Square) -> u64 {
        self.stood & self.after.attackers(self.rule, square, self.man.colour)
    }

    // Returns whether the move is a capture en passant.
    fn is_en_passant(&self) -> bool {
        self.man.kind == Kind::Pawn
            && self.before.is_empty(self.m.to)
            && self.m.from.file() != self.m.to.file()
    }

    // Returns whether an enemy attacks the mover's king along the rank that the move left.
    fn is_rank_open(&self) -> bool {
        match self.king(self.man.colour) {
            Some(king) => {
                king.rank() == self.m.from.rank() && self.exposing & rank_of(king) != 0
            }
            None => false,
        }
    }

    // Returns whether the move exposes its king along the rank that it left.
    fn opens_rank(&self) -> bool {
        self.leaves_king_in_check() && self.is_rank_open()
    }

    // Returns whether the move exposes its king along another line than the rank that it left.
    fn opens_line(&self) -> bool {
        self.leaves_king_in_check() && !self.is_rank_open()
    }

    // Returns the rook's square and the square that the king crosses, if the move is castling.
    fn castling(&self) -> Option<(Square, Square)> {
        if self.man.kind != Kind::King {
            return None;
        }
        self.before.castling(self.man, self.m)
    }

    // Returns whether the move is castling across an attacked square.
    fn is_crossing_attacked(&self) -> bool {
        match self.castling() {
            Some((_, crossed)) => self
                .before
                .with_king_on(self.man, self.m.from, crossed)
                .is_in_check(self.rule, self.man.colour),
            None => false,
        }
    }

    // Returns whether the move is castling, not out of check, across an attacked square.
    fn castles_across(&self) -> bool {
        !self.was_in_check && self.is_crossing_attacked()
    }

    // Returns whether the king arrives in check, and crosses no attacked square if the move is castling.
    fn castles_into(&self) -> bool {
        self.leaves_king_in_check() && !self.is_crossing_attacked()
    }

    // Returns whether the move is castling with a paralysed rook.
    fn castles_with_paralysed_rook(&self) -> bool {
        match self.castling() {
            Some((rook, _)) => self.before.is_paralysed(self.rule, rook),
            None => false,
        }
    }

    // Returns whether a grasshopper that didn't move, and didn't reach the king of this colour before,
    // attacks it now although the king didn't move: over the man that arrived (`arrives`), or not over it.
    fn gets_hurdle(&self, attackers: u64, colour: Colour, arrives: bool) -> bool {
        let Some(king) = king_square(&self.after, colour) else {
            return false;
        };
        let hoppers = attackers & self.stood & self.after.of_kind(Kind::Grasshopper);
        let again = hoppers & !self.before.reachers(king);
        let over = self.lifted().reachers(king);
        king != self.m.to && again & (if arrives { !over } else { over }) != 0
    }

    // Returns the position after the move without the man that arrived.
    fn lifted(&self) -> Plain {
        let mut lifted = self.after;
        lifted.men[self.m.to.index() as usize] = None;
        lifted
    }

    // Returns whether the move is legal and lets a grasshopper give check: over the man that arrived (`arrives`),
    // or not over it.
    fn checks_over(&self, arrives: bool) -> bool {
        self.legal && self.gets_hurdle(self.checkers, self.man.colour.other(), arrives)
    }

    // Returns whether the move exposes its king to a grasshopper: over the man that arrived (`arrives`), or not
    // over it.
    fn is_exposed_over(&self, arrives: bool) -> bool {
        self.leaves_king_in_check() && self.gets_hurdle(self.exposing, self.man.colour, arrives)
    }

    // Returns the position after the move as if no man were reborn.
    fn unborn(&self) -> Plain {
        self.before.after(Rule::Orthodox, self.m)
    }

    // Returns whether the colour would be in check if no man were reborn.
    fn is_unborn_check(&self, colour: Colour) -> bool {
        self.unborn().is_in_check(self.rule, colour)
    }

    // Returns whether the mover's king is attacked after the move only because a man was reborn.
    fn is_exposed_by_rebirth(&self) -> bool {
        self.exposing != 0 && !self.is_unborn_check(self.man.colour)
    }

    // Returns whether the move is legal only because a man was reborn.
    fn is_saved_by_rebirth(&self) -> bool {
        self.legal && self.is_unborn_check(self.man.colour)
    }

    // Returns whether the move is legal and gives no check only because a man was reborn.
    fn is_parried_by_rebirth(&self) -> bool {
        self.legal && self.checkers == 0 && self.is_unborn_check(self.man.colour.other())
    }

    // Returns whether the move is a promotion that gives no check only because a man was reborn.
    fn is_promotion_parried(&self) -> bool {
        self.m.promo.is_some() && self.is_parried_by_rebirth()
    }

    // Returns whether the move gives check only because a man was reborn.
    fn checks_by_rebirth(&self) -> bool {
        self.checks() && !self.is_unborn_check(self.man.colour.other())
    }

    // Returns whether the move mates, and gives check only because a man was reborn.
    fn mates_over_reborn(&self) -> bool {
        self.checks_by_rebirth() && self.mates()
    }

    // Returns whether a promotion gives check over a reborn man, and the mover had no grasshopper before.
    fn checks_over_by_promotion(&self) -> bool {
        self.m.promo.is_some() && !self.had_grasshopper() && self.checks_by_rebirth()
    }

    // Returns whether the mover had a grasshopper before the move.
    fn had_grasshopper(&self) -> bool {
        self.before.of_kind(Kind::Grasshopper) & self.before.of_colour(self.man.colour) != 0
    }

    // Returns whether the move mates only because a man was reborn.
    fn mates_by_rebirth(&self) -> bool {
        self.mates() && !self.unborn().is_mate(self.rule)
    }

    // Returns whether the move is legal and would mate if no man were reborn.
    fn is_mate_answered_by_rebirth(&self) -> bool {
        self.legal && !self.mates() && self.unborn().is_mate(self.rule)
    }

    // Returns whether the move exposes its king to a man that was paralysed.
    fn frees_enemy(&self) -> bool {
        self.leaves_king_in_check() && self.was_paralysed(self.exposing, self.man.colour)
    }

    // Returns whether the move is legal and a man that was paralysed gives check.
    fn frees_checker(&self) -> bool {
        self.legal && self.was_paralysed(self.checkers, self.man.colour.other())
    }

    // Returns whether one of these men, which didn't move, reached the king of this colour before but was
    // paralysed.
    fn was_paralysed(&self, attackers: u64, colour: Colour) -> bool {
        match self.king(colour) {
            Some(king) => {
                let freed = attackers & self.stood & self.before.paralysed(self.rule);
                freed != 0 && freed & self.before.reachers(king) != 0
            }
            None => false,
        }
    }

    // Returns whether the move parries a check by paralysing a man that gave it.
    fn paralyses_checker(&self) -> bool {
        let checkers = checkers(self.before, self.rule, self.man.colour);
        self.parries() && checkers & self.stood & self.after.paralysed(self.rule) != 0
    }

    // Returns whether the move mates only because men are paralysed.
    fn mates_by_paralysis(&self) -> bool {
        self.mates() && !self.after.is_mate(Rule::Orthodox)
    }

    // Returns whether the move is legal and would mate if no man were paralysed.
    fn is_saved_by_paralysis(&self) -> bool {
        self.legal && !self.mates() && self.after.is_mate(Rule::Orthodox)
    }
}
