//! Random texts: words drawn from lists, with blanks and line ends between them.
ghost use Rattle.std.specs.Prelude.{◌<◌};

use arrayvec::ArrayVec;

/// More bytes than any of these texts has.
pub(crate) const BYTES: usize = 4096;

const WORDS: [&str; 24] = [
    "BeginProblem",
    "nex",
    "EndProblem",
    "Pieces",
    "sti",
    "Condition",
    "opt",
    "White",
    "b",
    "Kg9",
    "K",
    "Kgx",
    "Protocol",
    "a2",
    "b2",
    "#1",
    "Circe",
    "max",
    "4000000001",
    "EnPassant",
    "noc",
    "e1",
    "Foo",
    "Ti",
];

const TEXTS: [&str; 6] = [
    "Title  a title \n",
    "author NextProblem \r\n",
    "Remark EndProblem\n",
    "ORIGIN\n",
    "tit\n",
    "rem",
];

const PIECES: [&str; 13] = [
    "Pieces White Kg6h1",
    "Pieces White Kg6 Ra1 Black Kg8",
    "pieces w Ke1 Ra1h1 b Ke8 Ra8h8",
    "PIE White Kg6 Ba1b3 Pe5 Black Kh8 Pd5",
    "Pieces White Kg6 Rh1 Black Kh8",
    "Pieces White Kg6 Rh1 Black Kh8 Ra1",
    "Pieces White Kg6 Ra1",
    "Pieces Black kh8",
    "Pieces White Kg6 Pa8",
    "Pieces white Kg6 Gc3 Nf3 black Kg8 pa7b7",
    "Pieces",
    "Pieces White Kg6 Black Kg8 Rg6",
    "Pieces White Kg6 Ra1 Pieces Kg8",
];

const STIPULATIONS: [&str; 20] = [
    "Stipulation #1",
    "sti #8",
    "Stipulation s#1",
    "stip H#1",
    "Stipulation h#0.5",
    "Stipulation #0",
    "Stipulation #1 #1",
    "Stipulation #1 foo",
    "Stipulation",
    "Stipulation h#8.5",
    "Stipulation h#16.5",
    "Stipulation =1",
    "sti S=16",
    "Stipulation h=15.5",
    "Stipulation =17",
    "Stipulation s=01",
    "Stipulation #1 =1",
    "Stipulation h#16",
    "Stipulation #2",
    "Stipulation h#3",
];

const CONDITIONS: [&str; 6] = [
    "",
    "",
    "Condition Circe",
    "con MAD",
    "Condition Circe Condition mad",
    "Condition foo",
];

const OPTIONS: [&str; 12] = [
    "",
    "",
    "Option EnPassant d6",
    "option enp e3 enp d6 SetPlay",
    "Option NoCastling a1h1 e8",
    "Option NoCastling a2",
    "Option max 0",
    "Option MaxSolutions 007 SetPlay Variation nob",
    "opt var Foo",
    "Option noc h1 b2",
    "Option EnPassant e3",
    "Option MaxSolutions 4000000000 max 5 noc h8 var a8",
];

// Returns the next number of a pseudorandom sequence.
fn drawn(seed: u64) -> u64 {
    seed.wrapping_mul(6_364_136_223_846_793_005)
        .wrapping_add(1_442_695_040_888_963_407)
}

// Returns a number below `count`.
fn choice(seed: u64, count: u64) -> usize
    requires { 0 < count }
    ensures { result < count }
{
    ((seed >> 33) % count) as usize
}

// Adds a word of `length` letters.
fn put_long(text: &mut ArrayVec<u8, BYTES>, length: u64) {
    for _letter in 0..length {
        let _ = text.try_push(b'x');
    }
}

fn put_gap(text: &mut ArrayVec<u8, BYTES>, seed: u64) {
    let gap: &[u8] = match choice(seed, 8) {
        0 => b"\n",
        1 => b"\r\n",
        2 => b"\t",
        3 => b" \n\n ",
        _ => b" ",
    };
    let _ = text.try_extend_from_slice(gap);
}

// Adds one of the four sections, 0 to 3.
fn put_section(text: &mut ArrayVec<u8, BYTES>, section: usize, seed: u64) {
    let words: &str = match section {
        0 => PIECES[choice(seed, 13)],
        1 => STIPULATIONS[choice(seed, 20)],
        2 => CONDITIONS[choice(seed, 6)],
        _ => OPTIONS[choice(seed, 12)],
    };
    let _ = text.try_extend_from_slice(words.as_bytes());
}

// Adds nothing, or sometimes a misplaced word, a text line or a long word.
fn put_stray(text: &mut ArrayVec<u8, BYTES>, seed: u64) {
    let drawn = drawn(seed);
    match choice(seed, 32) {
        0 => put_long(text, 159 + drawn % 4),
        1 | 2 => {
            let _ = text.try_extend_from_slice(TEXTS[choice(drawn, 6)].as_bytes());
        }
        3 => {
            let _ = text.try_extend_from_slice(WORDS[choice(drawn, 24)].as_bytes());
        }
        _ => {}
    }
}

/// Returns the text of four problems that belongs to this number.
pub(crate) fn text(number: u64) -> ArrayVec<u8, BYTES> {
    let mut text = ArrayVec::new();
    let mut seed = drawn(number);
    if choice(seed, 16) > 0 {
        let _ = text.try_extend_from_slice(b"BeginProblem");
    }
    for problem in 0..4u64 {
        seed = drawn(seed);
        let turned = choice(seed, 4);
        for section in 0..4usize {
            seed = drawn(seed);
            put_gap(&mut text, seed);
            seed = drawn(seed);
            put_stray(&mut text, seed);
            put_gap(&mut text, seed);
            seed = drawn(seed);
            put_section(&mut text, (section + turned) % 4, seed);
        }
        let end: &str = if problem == 3 {
            " EndProblem"
        } else {
            "\nNextProblem"
        };
        let _ = text.try_extend_from_slice(end.as_bytes());
    }
    text
}
