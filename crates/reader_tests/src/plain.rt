//! A plain reader: one pass over the words of a whole input, with all its state in variables.
use crate::plain_words::{Token, is_short, last_line, tokens, without_leading, without_trailing};
use crate::summary::{CORNERS, Expected, Summary, digest};
use arrayvec::ArrayVec;
use chess_attacks::{Circe, Madrasi, Orthodox, in_check};
use chess_core::{Board, Colour, Diagram, Kind, Man, Square};
use pop_input::FaultKind;

/// More items than any input of these tests has.
pub(crate) const ITEMS: usize = 64;

// The value that an option expects.
#[derive(Clone, Copy, PartialEq, Eq)]
enum Await {
    Nothing,
    Limit,
    Square,
    Squares,
    MoreSquares,
}

// The section to which the next word belongs.
#[derive(Clone, Copy, PartialEq, Eq)]
enum Open {
    Nothing,
    Pieces,
    Stipulation,
    Condition,
    Options,
}

// The state of a problem.
#[derive(Clone, Copy)]
struct Known {
    begun: bool,
    open: Open,
    wait: Await,
    colour: u8,
    men: [u8; 64],
    stated: bool,
    form: u8,
    sign: u8,
    n: u8,
    condition: u8,
    options: [bool; 3],
    limit: u32,
    crossed: u8,
    castling_forbidden: [bool; 6],
    title: u64,
    author: u64,
    fault: Option<FaultKind>,
    line: u64,
}

fn nothing_known(begun: bool) -> Known {
    Known {
        begun,
        open: Open::Nothing,
        wait: Await::Nothing,
        colour: 0,
        men: [0; 64],
        stated: false,
        form: 0,
        sign: 0,
        n: 0,
        condition: 0,
        options: [false; 3],
        limit: 4_000_000_000,
        crossed: 64,
        castling_forbidden: [false; 6],
        title: digest(b""),
        author: digest(b""),
        fault: None,
        line: 0,
    }
}

// Returns the squares of a word that is squares and nothing else.
fn squares_named(word: &[u8]) -> Option<ArrayVec<u8, 80>> {
    if word.is_empty() {
        return None;
    }
    let mut squares = ArrayVec::new();
    for pair in word.chunks(2) {
        let [file, rank] = pair else {
            return None;
        };
        let file = file.to_ascii_lowercase();
        if file < b'a' || file > b'h' || *rank < b'1' || *rank > b'8' {
            return None;
        }
        let _ = squares.try_push((*rank - b'1') * 8 + (file - b'a'));
    }
    Some(squares)
}

fn has_digit(word: &[u8]) -> bool {
    for byte in word {
        if byte.is_ascii_digit() {
            return true;
        }
    }
    false
}

// Returns the number of a word of digits, saturated, or `None` for another word.
fn number_of(word: &[u8]) -> Option<u64> {
    let mut value = 0u64;
    for byte in word {
        if !byte.is_ascii_digit() {
            return None;
        }
        value = value
            .saturating_mul(10)
            .saturating_add((*byte - b'0') as u64);
    }
    Some(value)
}

// Returns the form, the goal's sign and the number of moves of a stipulation: nothing, `s` or `h`, then `#` or `=`,
// then 1 to 16; or `h`, `#` or `=`, 0 to 15 and `.5`.
fn stipulation_of(word: &[u8]) -> Option<(u8, u8, u8)> {
    let (form, rest) = match word {
        [b's' | b'S', rest @ ..] => (1, rest),
        [b'h' | b'H', rest @ ..] => (2, rest),
        _ => (0, word),
    };
    let (sign, number, half) = match rest {
        [sign @ (b'#' | b'='), number @ .., b'.', b'5'] if form == 2 => (*sign, number, true),
        [sign @ (b'#' | b'='), number @ ..] => (*sign, number, false),
        _ => return None,
    };
    let n = match number {
        [n @ b'0'..=b'9'] => *n - b'0',
        [b'1', n @ b'0'..=b'6'] => 10 + (*n - b'0'),
        _ => return None,
    };
    if half {
        return if n <= 15 { Some((3, sign, n)) } else { None };
    }
    if n == 0 { None } else { Some((form, sign, n)) }
}

const COMMANDS: [&[u8]; 7] = [
    b"beginproblem",
    b"pieces",
    b"stipulation",
    b"condition",
    b"option",
    b"nextproblem",
    b"endproblem",
];

fn is_command(word: &[u8]) -> bool {
    for name in &COMMANDS {
        if is_short(name, word, 3) {
            return true;
        }
    }
    false
}

// Reads a word, and returns its fault.
fn read(known: &mut Known, word: &[u8]) -> Option<FaultKind> {
    if word.len() > 160 {
        return Some(FaultKind::WordTooLong);
    }
    if !known.begun {
        known.begun = is_short(b"beginproblem", word, 3);
        return if known.begun {
            None
        } else {
            Some(FaultKind::BeginProblemMissing)
        };
    }
    match known.wait {
        Await::Nothing => read_plain(known, word),
        Await::Limit => read_limit(known, word),
        Await::Square => read_crossed(known, word),
        Await::Squares => read_barred(known, word),
        Await::MoreSquares => read_more_barred(known, word),
    }
}

fn read_limit(known: &mut Known, word: &[u8]) -> Option<FaultKind> {
    known.wait = Await::Nothing;
    match number_of(word) {
        Some(value) if value >= 1 && value <= 4_000_000_000 => {
            known.limit = value as u32;
            None
        }
        _ => Some(FaultKind::BadLimit),
    }
}

// Returns the square of a word that is one square.
fn square_of(word: &[u8]) -> Option<u8> {
    match squares_named(word)?.as_slice() {
        [square] => Some(*square),
        _ => None,
    }
}

fn read_crossed(known: &mut Known, word: &[u8]) -> Option<FaultKind> {
    known.wait = Await::Nothing;
    match square_of(word) {
        Some(square) => {
            known.crossed = square;
            None
        }
        None => Some(FaultKind::SquareMissing),
    }
}

fn read_barred(known: &mut Known, word: &[u8]) -> Option<FaultKind> {
    match squares_named(word) {
        Some(squares) => bar(known, squares.as_slice()),
        None => Some(FaultKind::SquareMissing),
    }
}

fn read_more_barred(known: &mut Known, word: &[u8]) -> Option<FaultKind> {
    match squares_named(word) {
        Some(squares) => bar(known, squares.as_slice()),
        None => {
            known.wait = Await::Nothing;
            read_plain(known, word)
        }
    }
}

fn bar(known: &mut Known, squares: &[u8]) -> Option<FaultKind> {
    known.wait = Await::MoreSquares;
    for square in squares {
        if !bar_one(known, *square) {
            return Some(FaultKind::NoneCastlesThere);
        }
    }
    None
}

// Forbids castling from a square. Returns whether it is a castling square.
fn bar_one(known: &mut Known, square: u8) -> bool {
    for place in 0..6usize {
        if CORNERS[place] == square {
            known.castling_forbidden[place] = true;
            return true;
        }
    }
    false
}

// Reads a word that no option expects.
fn read_plain(known: &mut Known, word: &[u8]) -> Option<FaultKind> {
    if is_command(word) {
        return open_section(known, word);
    }
    match known.open {
        Open::Nothing => Some(FaultKind::WordMisplaced),
        Open::Pieces => read_men(known, word),
        Open::Stipulation => read_stipulation(known, word),
        Open::Condition => read_condition(known, word),
        Open::Options => read_option(known, word),
    }
}

const SECTIONS: [(&[u8], Open); 4] = [
    (b"pieces", Open::Pieces),
    (b"stipulation", Open::Stipulation),
    (b"condition", Open::Condition),
    (b"option", Open::Options),
];

fn open_section(known: &mut Known, word: &[u8]) -> Option<FaultKind> {
    known.colour = 0;
    if is_short(b"beginproblem", word, 3) {
        return Some(FaultKind::WordMisplaced);
    }
    for (name, section) in &SECTIONS {
        if is_short(name, word, 3) {
            known.open = *section;
        }
    }
    None
}

fn read_stipulation(known: &mut Known, word: &[u8]) -> Option<FaultKind> {
    if known.stated {
        let has_sign = word.contains(&b'#') || word.contains(&b'=');
        return Some(if has_sign {
            FaultKind::SecondStipulation
        } else {
            FaultKind::WordMisplaced
        });
    }
    let Some((form, sign, n)) = stipulation_of(word) else {
        return Some(FaultKind::BadStipulation);
    };
    known.stated = true;
    known.form = form;
    known.sign = sign;
    known.n = n;
    None
}

fn read_condition(known: &mut Known, word: &[u8]) -> Option<FaultKind> {
    let condition = if is_short(b"circe", word, 3) {
        1
    } else if is_short(b"madrasi", word, 3) {
        2
    } else {
        return Some(FaultKind::WordMisplaced);
    };
    if known.condition != 0 {
        return Some(FaultKind::SecondCondition);
    }
    known.condition = condition;
    None
}

const FLAGS: [&[u8]; 3] = [b"setplay", b"variation", b"noboard"];

const EXPECTING: [(&[u8], Await); 3] = [
    (b"maxsolutions", Await::Limit),
    (b"enpassant", Await::Square),
    (b"nocastling", Await::Squares),
];

fn read_option(known: &mut Known, word: &[u8]) -> Option<FaultKind> {
    for place in 0..3usize {
        if is_short(FLAGS[place], word, 3) {
            known.options[place] = true;
            return None;
        }
    }
    for (name, wait) in &EXPECTING {
        if is_short(name, word, 3) {
            known.wait = *wait;
            return None;
        }
    }
    Some(FaultKind::WordMisplaced)
}

fn read_men(known: &mut Known, word: &[u8]) -> Option<FaultKind> {
    if is_short(b"white", word, 1) {
        known.colour = b'w';
        return None;
    }
    if is_short(b"black", word, 1) {
        known.colour = b'b';
        return None;
    }
    let [letter, following @ ..] = word else {
        return Some(FaultKind::WordMisplaced);
    };
    let letter = letter.to_ascii_uppercase();
    if !b"KQRBSPGN".contains(&letter) {
        return Some(FaultKind::WordMisplaced);
    }
    read_squares(known, word, letter, squares_named(following))
}

// Puts men on the squares after a letter, if the word has squares.
fn read_squares(
    known: &mut Known,
    word: &[u8],
    letter: u8,
    squares: Option<ArrayVec<u8, 80>>,
) -> Option<FaultKind> {
    if squares.is_none() && word.len() >= 3 && !has_digit(word) {
        return Some(FaultKind::WordMisplaced);
    }
    if known.colour == 0 {
        return Some(FaultKind::ColourMissing);
    }
    let Some(squares) = squares else {
        return Some(FaultKind::SquareMissing);
    };
    for square in squares.as_slice() {
        let fault = put_man(known, letter, *square);
        if fault.is_some() {
            return fault;
        }
    }
    None
}

// Puts a man of the last colour on a square.
fn put_man(known: &mut Known, letter: u8, square: u8) -> Option<FaultKind> {
    let place = (square & 63) as usize;
    let man = if known.colour == b'w' {
        letter
    } else {
        letter.to_ascii_lowercase()
    };
    if known.men[place] != 0 {
        return Some(FaultKind::SquareTaken);
    }
    if letter == b'P' && (place < 8 || place >= 56) {
        return Some(FaultKind::PawnOnOuterRank);
    }
    if letter == b'K' && known.men.contains(&man) {
        return Some(FaultKind::SecondKing);
    }
    known.men[place] = man;
    None
}

// Returns the man of a letter, a small one for Black.
fn man_of(letter: u8) -> Option<Man> {
    let colour = if letter.is_ascii_uppercase() {
        Colour::White
    } else {
        Colour::Black
    };
    let kind = match letter.to_ascii_uppercase() {
        b'K' => Kind::King,
        b'Q' => Kind::Queen,
        b'R' => Kind::Rook,
        b'B' => Kind::Bishop,
        b'S' => Kind::Knight,
        b'P' => Kind::Pawn,
        b'G' => Kind::Grasshopper,
        b'N' => Kind::Nightrider,
        _ => return None,
    };
    Some(Man { colour, kind })
}

// Returns whether the side that isn't to move is in check.
fn checked(known: &Known) -> bool {
    let mut diagram = Diagram::new();
    for number in 0..64u8 {
        if let Some(man) = man_of(known.men[number as usize]) {
            let _ = diagram.put(Square::numbered(number), man);
        }
    }
    if !diagram.is_well_formed() {
        return false;
    }
    let board = Board::of(&diagram);
    let colour = if known.form == 2 {
        Colour::White
    } else {
        Colour::Black
    };
    match known.condition {
        1 => in_check::<Circe>(&board, colour),
        2 => in_check::<Madrasi>(&board, colour),
        _ => in_check::<Orthodox>(&board, colour),
    }
}

// Returns whether a pawn can have just passed over the en passant square.
fn was_passed(known: &Known) -> bool {
    let place = known.crossed as usize;
    let black_starts = known.form == 2;
    if black_starts {
        place >= 16
            && place < 24
            && known.men[place] == 0
            && known.men[place - 8] == 0
            && known.men[place + 8] == b'P'
    } else {
        place >= 40
            && place < 48
            && known.men[place] == 0
            && known.men[place + 8] == 0
            && known.men[place - 8] == b'p'
    }
}

// Returns a faulty item.
fn reported(fault: FaultKind, line: u64) -> Expected {
    Expected::Faulty(fault.number(), line)
}

// Returns the first fault that the whole block shows, if its words had none.
fn fault_at_end(known: &Known) -> Option<FaultKind> {
    if !known.stated {
        return Some(FaultKind::StipulationMissing);
    }
    if known.men == [0; 64] {
        return Some(FaultKind::NoMen);
    }
    if known.crossed < 64 && !was_passed(known) {
        return Some(FaultKind::EnPassantImpossible);
    }
    let king = if known.form == 1 { b'K' } else { b'k' };
    if known.sign == b'#' && !known.men.contains(&king) {
        return Some(FaultKind::KingMissing);
    }
    if checked(known) {
        return Some(FaultKind::WaitingSideInCheck);
    }
    None
}

// Returns the castling rights: the men that castle are on their squares, and castling isn't forbidden there.
fn unmoved(known: &Known) -> [bool; 6] {
    let home = [b'R', b'K', b'R', b'r', b'k', b'r'];
    let mut unmoved = [false; 6];
    for place in 0..6usize {
        unmoved[place] = !known.castling_forbidden[place]
            && known.men[(CORNERS[place] & 63) as usize] == home[place];
    }
    unmoved
}

// Returns the item of a block that a word in this line closes.
fn closed(known: &Known, line: u64) -> Expected {
    if let Some(fault) = known.fault {
        return reported(fault, known.line);
    }
    if let Some(fault) = fault_at_end(known) {
        return reported(fault, line);
    }
    Expected::Sound(Summary {
        men: known.men,
        black_starts: known.form == 2,
        unmoved: unmoved(known),
        crossed: known.crossed,
        form: known.form,
        sign: known.sign,
        n: known.n,
        condition: known.condition,
        options: known.options,
        limit: known.limit,
        title: known.title,
        author: known.author,
    })
}

// Reads a text line.
fn note(known: &mut Known, token: &Token<'_>, rest: &[u8]) {
    let text = without_leading(rest);
    let (kept, _) = text.split_at(text.len().min(200));
    let value = digest(without_trailing(kept));
    if known.begun && is_short(b"title", token.text, 3) {
        known.title = value;
    } else if known.begun && is_short(b"author", token.text, 3) {
        known.author = value;
    }
}

/// Returns the items of an input, whose source ends cleanly or fails at its end.
pub(crate) fn items(input: &[u8], failed: bool) -> ArrayVec<Expected, ITEMS> {
    let mut items = ArrayVec::new();
    let mut known = nothing_known(false);
    let mut first = true;
    for token in tokens(input, failed).as_slice() {
        if let Some(rest) = token.rest {
            note(&mut known, token, rest);
            continue;
        }
        if known.fault.is_none() {
            known.fault = read(&mut known, token.text);
            known.line = token.line;
        }
        let ends = is_short(b"endproblem", token.text, 3);
        if ends || is_short(b"nextproblem", token.text, 3) {
            let _ = items.try_push(closed(&known, token.line));
            if ends {
                return items;
            }
            known = nothing_known(true);
            first = false;
        }
    }
    let line = last_line(input);
    if let Some(fault) = known.fault {
        let _ = items.try_push(reported(fault, known.line));
    }
    if failed {
        let _ = items.try_push(reported(FaultKind::DeviceFailed, line));
    } else if known.fault.is_none() {
        let fault = if first && !known.begun {
            FaultKind::BeginProblemMissing
        } else {
            FaultKind::EndProblemMissing
        };
        let _ = items.try_push(reported(fault, line));
    }
    items
}
