//! A plain solver, for comparison: it follows the definitions, by recursion over copied positions, with no
//! frames and no cutoffs.
ghost use Rattle.std.specs.Prelude.{◌≡◌, ◌+◌, ◌≤◌};
ghost use Rattle.chess_core.specs.WellFormed.{IsWellFormed};

use crate::row::{add_event, half_moves};
use arrayvec::ArrayVec;
use chess_core::{Board, Diagram, Kind, Man, Move, Square};
use chess_rules::{Moves, Rules, has_legal_move, in_check, play};
use pop_events::{Event, Mark, Phase, Shown, Side};
use pop_input::Problem;
use pop_stipulation::{Form, Goal};

/// The text of a phase: its first `limit` solutions, and their number.
#[derive(Drop)]
struct PhaseText {
    text: ArrayVec<u8, 4096>,
    half: u32,
    limit: u32,
    count: u32,
    over: bool,
}

impl PhaseText {
    /// Begins a solution, or notes that there are too many.
    fn begin(&mut self) {
        if self.count == self.limit {
            self.over = true;
        } else {
            self.count = self.count.saturating_add(1);
        }
    }

    /// Adds a move of a tree.
    fn node(&mut self, depth: u32, shown: Shown) {
        if depth == 0 {
            self.begin();
        }
        if !self.over {
            let half = self.half.saturating_add(depth);
            add_event(&Event::Node { depth, half, shown }, &mut self.text);
        }
    }

    /// Adds a line of help play.
    fn line(&mut self, path: &[Shown]) {
        self.begin();
        if !self.over {
            let mut moves = ArrayVec::new();
            for shown in path {
                let _fits = moves.try_push(*shown);
            }
            add_event(
                &Event::Line {
                    half: self.half,
                    moves,
                },
                &mut self.text,
            );
        }
    }
}

/// Returns the man that was reborn, and its square: a man of the captured kind, not on the arrival, where
/// no man of its kind and colour was before.
fn reborn(before: &Board, after: &Board, captured: Man, arrival: Square) -> Option<(Man, Square)> {
    for number in 0..64u8 {
        let square = Square::numbered(number);
        if square != arrival
            && after.man_at(square) == Some(captured)
            && before.man_at(square) != Some(captured)
        {
            return Some((captured, square));
        }
    }
    None
}

/// Returns the side to which the king castles: it goes more than one file.
fn castling(man: Man, by: Move) -> Option<Side> {
    if man.kind != Kind::King || by.from.file().abs_diff(by.to.file()) < 2 {
        None
    } else if by.from.file() < by.to.file() {
        Some(Side::H)
    } else {
        Some(Side::A)
    }
}

/// Returns the square of the man that a move captures, if any.
fn captured_on(before: &Board, man: Man, by: Move) -> Option<Square> {
    if before.man_at(by.to).is_some() {
        Some(by.to)
    } else if man.kind == Kind::Pawn && by.from.file() != by.to.file() {
        Square::new(by.to.file(), by.from.rank())
    } else {
        None
    }
}

/// Returns a move as it is shown, from the positions before and after it.
fn shown<R: Rules>(goal: Goal, before: &Board, after: &Board, by: Move) -> Shown
    requires { IsWellFormed after.now }
{
    let Some(man) = before.man_at(by.from) else {
        return Shown::default();
    };
    let square = captured_on(before, man, by);
    let captured = match square {
        Some(square) => before.man_at(square),
        None => None,
    };
    let rebirth = match captured {
        Some(captured) => reborn(before, after, captured, by.to),
        None => None,
    };
    let checked = in_check::<R>(after, after.turn());
    let mark = match (checked, can_move::<R>(after), goal) {
        (true, false, _) => Mark::Mate,
        (true, true, _) => Mark::Check,
        (false, false, Goal::Stalemate) => Mark::Stalemate,
        _ => Mark::Plain,
    };
    Shown {
        man,
        from: by.from,
        to: by.to,
        capture: captured.is_some(),
        ep: captured.is_some() && before.man_at(by.to).is_none(),
        promo: by.promo,
        castling: castling(man, by),
        rebirth,
        mark,
    }
}

/// Returns whether the side to move is mated or stalemated, whichever is the goal.
pub(crate) fn is_goal_reached<R: Rules>(goal: Goal, board: &Board) -> bool
    requires { IsWellFormed board.now }
{
    in_check::<R>(board, board.turn()) == (goal == Goal::Mate) && !can_move::<R>(board)
}

/// Returns whether the side to move has a legal move.
pub(crate) fn can_move<R: Rules>(board: &Board) -> bool
    requires { IsWellFormed board.now }
{
    let mut here = *board;
    has_legal_move::<R>(&mut here)
}

/// Returns whether the goal is reached, or the other side reaches it within `moves` further moves against
/// every defence.
#[tactic(auto, using(chess_rules::proofs::LegalMoves::may_be_made))]
fn is_lost<R: Rules>(goal: Goal, board: &Board, moves: u8) -> bool
    requires { IsWellFormed board.now }
{
    if is_goal_reached::<R>(goal, board) {
        return true;
    }
    if moves == 0 || !can_move::<R>(board) {
        return false;
    }
    let mut here = *board;
    let mut defences = Moves::<R>::start();
    let mut every = true;
    while let Some(defence) = defences.next(&mut here) {
        let mut there = here;
        let _undo = play::<R>(&mut there, defence);
        let mut answers = Moves::<R>::start();
        let mut some = false;
        while let Some(answer) = answers.next(&mut there) {
            let mut after = there;
            let _undo = play::<R>(&mut after, answer);
            some = is_lost::<R>(goal, &after, moves - 1) || some;
        }
        every = every && some;
    }
    every
}

/// Returns whether the side to move forces the other side to reach the goal within `moves` moves.
#[tactic(auto, using(chess_rules::proofs::LegalMoves::may_be_made))]
fn self_wins<R: Rules>(goal: Goal, board: &Board, moves: u8) -> bool
    requires { IsWellFormed board.now }
{
    if moves == 0 {
        return false;
    }
    let mut here = *board;
    let mut tries = Moves::<R>::start();
    let mut some = false;
    while let Some(by) = tries.next(&mut here) {
        let mut there = here;
        let _undo = play::<R>(&mut there, by);
        let mut defences = Moves::<R>::start();
        let mut every = can_move::<R>(&there);
        while let Some(defence) = defences.next(&mut there) {
            let mut after = there;
            let _undo = play::<R>(&mut after, defence);
            every = (is_goal_reached::<R>(goal, &after) || self_wins::<R>(goal, &after, moves - 1))
                && every;
        }
        some = some || every;
    }
    some
}

/// Returns whether White, after a move to this position, still wins within `moves` moves, which include
/// that move.
#[tactic(auto, using(chess_rules::proofs::LegalMoves::may_be_made))]
fn keeps<R: Rules>(goal: Goal, selfmate: bool, board: &Board, moves: u8) -> bool
    requires { IsWellFormed board.now }
{
    let further = moves.saturating_sub(1);
    if !selfmate {
        return is_lost::<R>(goal, board, further);
    }
    let mut here = *board;
    let mut defences = Moves::<R>::start();
    let mut every = can_move::<R>(board);
    while let Some(defence) = defences.next(&mut here) {
        let mut after = here;
        let _undo = play::<R>(&mut after, defence);
        every = (is_goal_reached::<R>(goal, &after) || self_wins::<R>(goal, &after, further))
            && every;
    }
    every
}

/// Returns whether White, to move, wins within `moves` moves.
#[tactic(auto, using(chess_rules::proofs::LegalMoves::may_be_made))]
fn wins<R: Rules>(goal: Goal, selfmate: bool, board: &Board, moves: u8) -> bool
    requires { IsWellFormed board.now }
{
    if moves == 0 {
        return false;
    }
    if selfmate {
        return self_wins::<R>(goal, board, moves);
    }
    let mut here = *board;
    let mut tries = Moves::<R>::start();
    let mut some = false;
    while let Some(by) = tries.next(&mut here) {
        let mut after = here;
        let _undo = play::<R>(&mut after, by);
        some = is_lost::<R>(goal, &after, moves - 1) || some;
    }
    some
}

/// Returns the smallest number of moves, up to `most`, within which White, to move, wins.
fn least<R: Rules>(goal: Goal, selfmate: bool, board: &Board, most: u8) -> u8
    requires { IsWellFormed board.now }
    ensures { result ≤ most }
{
    for moves in 0..most {
        if wins::<R>(goal, selfmate, board, moves) {
            return moves;
        }
    }
    most
}

/// A battle: its goal, whether it is a selfmate, and its number of moves.
#[derive(Clone, Copy)]
struct Battle {
    goal: Goal,
    selfmate: bool,
    moves: u8,
}

/// Adds White's moves that win within `moves` moves and, down to `left` further moves by White, the
/// defences below each with the shortest continuations.
#[cycle(tree)]
#[tactic(auto, using(chess_rules::proofs::LegalMoves::may_be_made))]
fn white<R: Rules>(
    reported: &mut PhaseText,
    battle: Battle,
    board: &Board,
    moves: u8,
    depth: u32,
    left: u8,
)
    requires { IsWellFormed board.now }
{
    let mut here = *board;
    let mut tries = Moves::<R>::start();
    while let Some(by) = tries.next(&mut here) {
        let mut there = here;
        let _undo = play::<R>(&mut there, by);
        if keeps::<R>(battle.goal, battle.selfmate, &there, moves) {
            reported.node(depth, shown::<R>(battle.goal, &here, &there, by));
            if left > 0 && !is_goal_reached::<R>(battle.goal, &there) {
                black::<R>(reported, battle, &there, depth.saturating_add(1), left);
            }
        }
    }
}

/// Adds the defences, with the shortest continuations.
#[cycle(tree)]
#[tactic(auto, using(chess_rules::proofs::LegalMoves::may_be_made))]
fn black<R: Rules>(reported: &mut PhaseText, battle: Battle, board: &Board, depth: u32, left: u8)
    requires well_formed { IsWellFormed board.now }
    requires some { 1 ≤ left }
{
    let mut here = *board;
    let mut defences = Moves::<R>::start();
    while let Some(defence) = defences.next(&mut here) {
        let mut there = here;
        let _undo = play::<R>(&mut there, defence);
        reported.node(depth, shown::<R>(battle.goal, &here, &there, defence));
        if !is_goal_reached::<R>(battle.goal, &there) {
            let moves = least::<R>(battle.goal, battle.selfmate, &there, battle.moves);
            white::<R>(
                reported,
                battle,
                &there,
                moves,
                depth.saturating_add(1),
                left - 1,
            );
        }
    }
}

/// Adds set play: the first moves by Black after which White still wins, with the shortest continuations.
#[tactic(auto, using(chess_rules::proofs::LegalMoves::may_be_made))]
fn set<R: Rules>(reported: &mut PhaseText, battle: Battle, board: &Board, left: u8)
    requires { IsWellFormed board.now }
{
    let mut here = *board;
    let mut moves = Moves::<R>::start();
    while let Some(by) = moves.next(&mut here) {
        let mut there = here;
        let _undo = play::<R>(&mut there, by);
        let mates = is_goal_reached::<R>(battle.goal, &there);
        let further = battle.moves.saturating_sub(1);
        if battle.selfmate && mates || wins::<R>(battle.goal, battle.selfmate, &there, further) {
            reported.node(0, shown::<R>(battle.goal, &here, &there, by));
            if !mates {
                let moves = least::<R>(battle.goal, battle.selfmate, &there, battle.moves);
                white::<R>(reported, battle, &there, moves, 1, left);
            }
        }
    }
}

/// Adds the lines of `left` further half-moves that reach the goal.
#[tactic(auto, using(chess_rules::proofs::LegalMoves::may_be_made))]
fn help<R: Rules>(
    reported: &mut PhaseText,
    goal: Goal,
    board: &Board,
    left: usize,
    path: [Shown; 32],
    len: usize,
)
    requires well_formed { IsWellFormed board.now }
    requires room { len + left ≤ 32 }
{
    if left == 0 {
        if is_goal_reached::<R>(goal, board) {
            reported.line(&path[..len]);
        }
        return;
    }
    let mut here = *board;
    let mut moves = Moves::<R>::start();
    while let Some(by) = moves.next(&mut here) {
        let mut there = here;
        let _undo = play::<R>(&mut there, by);
        let mut longer = path;
        longer[len] = shown::<R>(goal, &here, &there, by);
        help::<R>(reported, goal, &there, left - 1, longer, len + 1);
    }
}

/// Adds a phase from its first position.
fn phase<R: Rules>(
    reported: &mut PhaseText,
    problem: &Problem,
    board: &Board,
    in_set: bool,
    half_moves: usize,
)
    requires well_formed { IsWellFormed board.now }
    requires few { half_moves ≤ 32 }
{
    let stipulation = problem.stipulation();
    let battle = Battle {
        goal: stipulation.goal,
        selfmate: stipulation.form == Form::SelfMate,
        moves: stipulation.n,
    };
    let left = if problem.variation() {
        stipulation.n
    } else {
        0
    };
    if half_moves == 0 {
        return;
    }
    match stipulation.form {
        Form::Help | Form::HelpHalf => {
            help::<R>(
                reported,
                stipulation.goal,
                board,
                half_moves,
                [Shown::default(); 32],
                0,
            );
        }
        Form::Direct | Form::SelfMate if in_set => set::<R>(reported, battle, board, left),
        Form::Direct | Form::SelfMate => {
            white::<R>(reported, battle, board, stipulation.n, 0, left);
        }
    }
}

/// Returns the first position of a phase: set play gives the move to the other side and clears the en
/// passant square.
pub(crate) fn first_diagram(problem: &Problem, in_set: bool) -> Diagram {
    let mut diagram = problem.diagram();
    if in_set {
        diagram.turn = diagram.turn.other();
        diagram.crossed = None;
    }
    diagram
}

/// Searches a phase and adds the text of its events, unless its diagram isn't well formed.
fn add_phase<R: Rules>(reported: &mut PhaseText, problem: &Problem, in_set: bool) {
    let diagram = first_diagram(problem, in_set);
    if !diagram.is_well_formed() {
        return;
    }
    let board = Board::of(&diagram);
    let name = if in_set { Phase::Set } else { Phase::Play };
    add_event(&Event::Phase(name), &mut reported.text);
    if in_set && in_check::<R>(&board, board.turn().other()) {
        add_event(&Event::Impossible, &mut reported.text);
        return;
    }
    let half_moves = half_moves(problem);
    let half = if problem.stipulation().form == Form::HelpHalf {
        2
    } else {
        1
    };
    reported.half = if in_set { half + 1 } else { half };
    reported.count = 0;
    reported.over = false;
    let left = if in_set {
        half_moves.saturating_sub(1)
    } else {
        half_moves
    };
    phase::<R>(reported, problem, &board, in_set, left);
    let stopped = reported.count == reported.limit;
    add_event(
        &Event::Total {
            count: reported.count,
            stopped,
        },
        &mut reported.text,
    );
}

/// Returns the text of all events of a problem.
pub(crate) fn solve<R: Rules>(problem: &Problem) -> ArrayVec<u8, 4096> {
    let mut reported = PhaseText {
        text: ArrayVec::new(),
        half: 1,
        limit: problem.max_solutions(),
        count: 0,
        over: false,
    };
    if problem.set_play() {
        add_phase::<R>(&mut reported, problem, true);
    }
    add_phase::<R>(&mut reported, problem, false);
    reported.text
}
