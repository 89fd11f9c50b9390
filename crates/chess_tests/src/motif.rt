//! The motifs of moves. Tests count them to see that a family of positions holds what it is made for.
use chess_core::Kind;

// What a move may show.
#[derive(Clone, Copy)]
pub(crate) enum Motif {
    // The move of a man of this kind is illegal: it exposes its king, which wasn't in check.
    Exposes(Kind),
    // The move is illegal: a man of this kind would check its king.
    ExposedTo(Kind),
    // A man of this kind moves, and another man that didn't move gives check.
    Uncovers(Kind),
    // A man of this kind that didn't move gives check.
    UncoveredBy(Kind),
    // Two men give check.
    DoubleCheck,
    // The move, not the king's, is illegal because two men give check.
    InDoubleCheck,
    // The move mates.
    Mates,
    // An en passant capture mates.
    EnPassantMates,
    // Castling mates.
    CastlingMates,
    // A promotion to this kind mates, and the promoted man gives check.
    PromotionMates(Kind),
    // A pawn's single step mates, and the pawn gives check.
    StepMates,
    // A pawn's double step mates, and the pawn gives check.
    DoubleStepMates,
    // A pawn's capture, not en passant, mates, and the pawn gives check.
    CaptureMates,
    // The move of a man of this kind mates, and another man that didn't move gives check.
    UncoversMate(Kind),
    // The move of a man of this kind parries a check.
    Parries(Kind),
    // An en passant capture is legal.
    EnPassant,
    // An en passant capture is illegal because it opens the rank of king and both pawns.
    EnPassantOpensRank,
    // An en passant capture is illegal because it opens another line.
    EnPassantOpensLine,
    // An en passant capture parries a check.
    EnPassantParries,
    // An en passant capture uncovers a check.
    EnPassantUncovers,
    // Castling is legal.
    Castles,
    // Castling gives check.
    CastlingChecks,
    // Castling is illegal because the king is in check.
    CastlingFromCheck,
    // Castling is illegal because the square that the king crosses is attacked.
    CastlingAcross,
    // Castling is illegal because the arrival is attacked.
    CastlingInto,
    // Castling is illegal because the rook is paralysed.
    CastlingParalysed,
    // A promotion to this kind gives check.
    PromotionChecks(Kind),
    // A promotion parries a check.
    PromotionParries,
    // The king, in check, may not go to a square that is attacked only because the king leaves its own.
    StepsAlong,
    // Check, and all legal replies are the king's, to squares that were attacked before the move.
    FlightOpened,
    // Mate, with a square next to the king that wasn't attacked before the move.
    FlightCovered,
    // Mate, with a free square next to the king that is attacked only once the king is there.
    FlightBeyond,
    // Mate, with a free square next to the king that wasn't attacked before the move, and now is by a man
    // that didn't move.
    FlightUnmasked,
    // The mover has no king.
    KinglessMover,
    // The other side has no king.
    KinglessEnemy,
    // An arriving man is the hurdle over which a grasshopper gives check.
    HurdleArrives,
    // A man that leaves or disappears lets a grasshopper give check.
    HurdleLeaves,
    // A move is illegal: its man would be the hurdle over which its king is in check.
    OwnHurdleArrives,
    // A move is illegal: a grasshopper would give check over another man.
    OwnHurdleLeaves,
    // A capture is illegal because of the reborn man: it gives check, or its absence opens a line.
    RebirthExposes,
    // A capture is legal because the reborn man blocks a line to the mover's king.
    RebirthSaves,
    // A capture gives no check because the reborn man blocks the line.
    RebirthParries,
    // A capture with promotion gives no check because the reborn man blocks the line.
    RebirthParriesPromoted,
    // A capture gives check because the reborn man is a grasshopper's hurdle.
    RebirthChecks,
    // A capture mates because the reborn man is a grasshopper's hurdle.
    RebirthMatesOver,
    // A capture with promotion to the mover's first grasshopper gives check over the reborn man.
    RebirthChecksPromoted,
    // A capture mates because the reborn man takes a flight or guards nothing.
    RebirthMates,
    // A capture would mate if the reborn man weren't on the board.
    RebirthParriesMate,
    // A move is illegal because it frees a paralysed enemy, which gives check.
    FreesEnemy,
    // A man that was paralysed gives check.
    FreesChecker,
    // The move paralyses the checker.
    ParalysesChecker,
    // Mate because men are paralysed.
    ParalysisMates,
    // No mate because men are paralysed.
    ParalysisSaves,
}
