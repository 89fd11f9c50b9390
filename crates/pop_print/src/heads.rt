//! The text of a sound problem's head.
ghost use Rattle.std.specs.Prelude.{[], ◌++◌, ◌+◌, ◌<◌, ◌||◌, ◌≡◌, ◌≤◌, if◌then◌else◌, length};
ghost use Rattle.chess_core.specs.Position.{man_on};
ghost use Rattle.pop_text.specs.Bytes.{Writes, count_after, greatest_count};
ghost use Rattle.pop_print.specs.Heads.{board_text, cell_of as letter_on, checked_text, condition_text as text_of_condition, form_text as text_of_form, goal_text as text_of_goal, half_text as text_of_half, head_text, item_line, labelled_text, names_text, rank_text, stipulation_line, stipulation_text};

use crate::line::{LONGEST, LineBuffer};
use chess_core::{Colour, Diagram, Man, Square};
use pop_input::{Condition, Problem};
use pop_stipulation::{Form, Goal, Stipulation};
use pop_text::{LONGEST_TEXT, Sink, SinkFault, Text};

// The most bytes of the line with an item's number.
pub(crate) const LONGEST_ITEM_LINE: usize = 29;

// The most bytes of the lines of title and author: two labels, two texts, two line ends.
const LONGEST_NAMES: usize = 15 + 2 * (LONGEST_TEXT + 1);

// The bytes of a rank's line.
const RANK_LENGTH: usize = 11;

// The bytes of the board: eight ranks, and the line of the files.
const BOARD_LENGTH: usize = 9 * RANK_LENGTH;

// The most bytes of a stipulation.
const LONGEST_STIPULATION: usize = 24;

// The most bytes of the stipulation's line: a condition and the line end follow.
const LONGEST_STIPULATION_LINE: usize = LONGEST_STIPULATION + 9;

// The most bytes of a head (own).
const LONGEST_HEAD: usize = 600;

// The most bytes of the head of a problem that is only tested (own).
const LONGEST_CHECKED_HEAD: usize = 700;

/// Writes the head of a sound item: its number, its title and author if there are any, the board unless the problem or
/// `no_board` leaves it out, and the stipulation with the condition. Passes the head to the sink in one piece.
///
/// # Errors
///
/// `SinkFault` if the sink fails: a beginning of the head is then written.
pub fn print_head<W: Sink>(
    sink: &mut W,
    number: u64,
    problem: &Problem,
    no_board: bool,
) -> Result<(), SinkFault>
    requires { W.failures sink.old < greatest_count }
    ensures bytes { Writes (W.taken sink.old) (W.taken sink.new)
        (head_text number problem.now no_board) result }
    ensures counted { W.failures sink.new ≡ count_after result (W.failures sink.old) }
{
    let mut lines = LineBuffer::<LONGEST>::new();
    lines.add_head(number, problem, no_board);
    lines.put(sink)
}

/// Writes a sound item that is only tested: its head, the line `sound`, and an empty line. Passes the text to the sink
/// in one piece.
///
/// # Errors
///
/// `SinkFault` if the sink fails: a beginning of the text is then written.
pub fn print_checked<W: Sink>(
    sink: &mut W,
    number: u64,
    problem: &Problem,
    no_board: bool,
) -> Result<(), SinkFault>
    requires { W.failures sink.old < greatest_count }
    ensures bytes { Writes (W.taken sink.old) (W.taken sink.new)
        (checked_text number problem.now no_board) result }
    ensures counted { W.failures sink.new ≡ count_after result (W.failures sink.old) }
{
    let mut lines = LineBuffer::<LONGEST>::new();
    lines.add_checked(number, problem, no_board);
    lines.put(sink)
}

impl<const N: usize> LineBuffer<N> {
    // Adds the head: the lines from the item's number to the stipulation.
    #[tactic(auto, unfolding(crate::specs::Heads::head_text))]
    fn add_head(&mut self, number: u64, problem: &Problem, no_board: bool)
        requires { length self.old + LONGEST_HEAD ≤ N }
        ensures text { self.new ≡ self.old ++ head_text number problem.now no_board }
        ensures short { length self.new ≤ length self.old + LONGEST_HEAD }
    {
        self.add_item_line(number);
        self.add_names(problem);
        self.add_board_unless(is_left_out(no_board, problem), problem.setup());
        self.add_stipulation_line(problem);
    }

    // Adds the head, the line `sound` and an empty line.
    fn add_checked(&mut self, number: u64, problem: &Problem, no_board: bool)
        requires { length self.old + LONGEST_CHECKED_HEAD ≤ N }
        ensures { self.new ≡ self.old ++ checked_text number problem.now no_board }
    {
        self.add_head(number, problem, no_board);
        self.add(b"sound\n");
        self.add(b"\n");
    }

    // Adds the line `problem` with the number of the item.
    #[tactic(auto, unfolding(crate::specs::Heads::item_line))]
    pub(crate) fn add_item_line(&mut self, number: u64)
        requires { length self.old + LONGEST_ITEM_LINE ≤ N }
        ensures text { self.new ≡ self.old ++ item_line number }
        ensures short { length self.new ≤ length self.old + LONGEST_ITEM_LINE }
    {
        self.add(b"problem ");
        self.add_number(number);
        self.add(b"\n");
    }

    // Adds the lines of the title and the author.
    #[tactic(auto, unfolding(crate::specs::Heads::names_text))]
    fn add_names(&mut self, problem: &Problem)
        requires { length self.old + LONGEST_NAMES ≤ N }
        ensures text { self.new ≡ self.old ++ names_text problem.now }
        ensures short { length self.new ≤ length self.old + LONGEST_NAMES }
    {
        self.add_labelled(b"title: ", problem.title());
        self.add_labelled(b"author: ", problem.author());
    }

    // Adds a line with the stipulation and, if there is one, the condition.
    #[tactic(auto, unfolding(crate::specs::Heads::stipulation_line))]
    fn add_stipulation_line(&mut self, problem: &Problem)
        requires { length self.old + LONGEST_STIPULATION_LINE ≤ N }
        ensures text { self.new ≡ self.old ++ stipulation_line problem.now }
        ensures short { length self.new ≤ length self.old + LONGEST_STIPULATION_LINE }
    {
        self.add_stipulation(problem.stipulation());
        self.add(condition_text(problem.condition()));
        self.add(b"\n");
    }

    // Adds a label and its text, or nothing if the text is empty.
    fn add_labelled(&mut self, label: &[u8], text: &Text)
        requires { length self.old + length label.now + LONGEST_TEXT + 1 ≤ N }
        ensures text { self.new ≡ self.old ++ labelled_text label.now text.now }
        ensures short { length self.new ≤ length self.old + length label.now + LONGEST_TEXT + 1 }
    {
        let bytes = text.bytes();
        if !bytes.is_empty() {
            self.add(label);
            self.add(bytes);
            self.add(b"\n");
        }
    }

    // Adds the board, or nothing if it is left out.
    fn add_board_unless(&mut self, left_out: bool, diagram: &Diagram)
        requires { length self.old + BOARD_LENGTH ≤ N }
        ensures text { self.new ≡ self.old
            ++ (if left_out then [] else board_text diagram.now.men) }
        ensures short { length self.new ≤ length self.old + BOARD_LENGTH }
    {
        if !left_out {
            self.add_board(diagram);
        }
    }

    // Adds the board, rank 8 first, and the line of the files.
    fn add_board(&mut self, diagram: &Diagram)
        requires { length self.old + BOARD_LENGTH ≤ N }
        ensures text { self.new ≡ self.old ++ board_text diagram.now.men }
        ensures short { length self.new ≤ length self.old + BOARD_LENGTH }
    {
        self.add_rank(diagram, 7);
        self.add_rank(diagram, 6);
        self.add_rank(diagram, 5);
        self.add_rank(diagram, 4);
        self.add_rank(diagram, 3);
        self.add_rank(diagram, 2);
        self.add_rank(diagram, 1);
        self.add_rank(diagram, 0);
        self.add(b"  abcdefgh\n");
    }

    // Adds the line of a rank of the board. `rank` is counted from 0.
    fn add_rank(&mut self, diagram: &Diagram, rank: u8)
        requires room { length self.old + RANK_LENGTH ≤ N }
        requires rank { rank < 8 }
        ensures text { self.new ≡ self.old ++ rank_text diagram.now.men rank }
        ensures short { length self.new ≤ length self.old + RANK_LENGTH }
    {
        self.add(&rank_line(diagram, rank));
    }

    // Adds the stipulation as it is written in a problem, such as `#2`.
    fn add_stipulation(&mut self, stipulation: Stipulation)
        requires { length self.old + LONGEST_STIPULATION ≤ N }
        ensures text { self.new ≡ self.old ++ stipulation_text stipulation }
        ensures short { length self.new ≤ length self.old + LONGEST_STIPULATION }
    {
        self.add(form_text(stipulation.form));
        self.add(goal_text(stipulation.goal));
        self.add_number(u64::from(stipulation.n));
        self.add(half_text(stipulation.form));
    }
}

// Returns what comes before the goal's sign.
fn form_text(form: Form) -> &'static [u8]
    ensures text { result.now ≡ text_of_form form }
    ensures short { length result.now ≤ 1 }
{
    match form {
        Form::Direct => b"",
        Form::SelfMate => b"s",
        Form::Help | Form::HelpHalf => b"h",
    }
}

// Returns the goal's sign.
fn goal_text(goal: Goal) -> &'static [u8]
    ensures text { result.now ≡ text_of_goal goal }
    ensures short { length result.now ≤ 1 }
{
    match goal {
        Goal::Mate => b"#",
        Goal::Stalemate => b"=",
    }
}

// Returns what comes after the number of moves.
fn half_text(form: Form) -> &'static [u8]
    ensures text { result.now ≡ text_of_half form }
    ensures short { length result.now ≤ 2 }
{
    match form {
        Form::Direct | Form::SelfMate | Form::Help => b"",
        Form::HelpHalf => b".5",
    }
}

// Returns the condition's name after a blank, or nothing if there is none.
fn condition_text(condition: Option<Condition>) -> &'static [u8]
    ensures text { result.now ≡ text_of_condition condition }
    ensures short { length result.now ≤ 8 }
{
    match condition {
        None => b"",
        Some(Condition::Circe) => b" Circe",
        Some(Condition::Madrasi) => b" Madrasi",
    }
}

// Returns whether the board is left out, by the setting or by the problem's option NoBoard.
fn is_left_out(no_board: bool, problem: &Problem) -> bool
    ensures { result ≡ no_board || problem.now.no_board }
{
    no_board || problem.no_board()
}

// Returns the rank's digit and its eight squares, as a line. `rank` is counted from 0.
#[tactic(auto, unfolding(crate::specs::Heads::rank_text))]
fn rank_line(diagram: &Diagram, rank: u8) -> [u8; RANK_LENGTH]
    requires { rank < 8 }
    ensures { result ≡ rank_text diagram.now.men rank }
{
    let first = 8 * rank;
    [
        b'1' + rank,
        b' ',
        cell(diagram, first),
        cell(diagram, first + 1),
        cell(diagram, first + 2),
        cell(diagram, first + 3),
        cell(diagram, first + 4),
        cell(diagram, first + 5),
        cell(diagram, first + 6),
        cell(diagram, first + 7),
        b'\n',
    ]
}

// Returns the character of a square on the board: the letter of its man, or a point. `number` is the square's.
fn cell(diagram: &Diagram, number: u8) -> u8
    requires { number < 64 }
    ensures { result ≡ letter_on (man_on diagram.now.men number) }
{
    match diagram.man_at(Square::numbered(number)) {
        Some(man) => coloured_letter(man),
        None => b'.',
    }
}

// Returns the letter of a man, a capital one for White, a small one for Black.
fn coloured_letter(man: Man) -> u8
    ensures { result ≡ letter_on (Some man) }
{
    match man.colour {
        Colour::White => man.kind.letter(),
        Colour::Black => man.kind.letter().to_ascii_lowercase(),
    }
}
