//! Generated help problems: few men on pseudorandom squares, the same on each run.
ghost use Rattle.std.specs.Prelude.{◌<◌};

use crate::row::posed;
use arrayvec::ArrayVec;
use pop_input::Problem;

/// Stipulations, with the letters of White's men, of Black's and of fairy men; few enough men that plain
/// counts are quick.
const SHAPES: [(&str, &str, &str, &str); 12] = [
    ("h#0.5", "QR", "S", "N"),
    ("h#1", "QR", "P", ""),
    ("h#1", "RBP", "R", "N"),
    ("h#1.5", "QS", "P", ""),
    ("h#1.5", "RR", "S", "G"),
    ("h#1.5", "QBP", "R", ""),
    ("h#2", "Q", "P", ""),
    ("h#2", "RP", "", "N"),
    ("h#2.5", "Q", "", ""),
    ("h#2.5", "R", "", "G"),
    ("h=1.5", "RB", "P", ""),
    ("h=2", "Q", "P", ""),
];

/// Black's king is at the edge, and White's mostly near it, so that many of the problems have solutions.
const WHITE_KINGS: [&str; 8] = [
    " Kf6", " Kg6", " Kf7", " Kg5", " Kf8", " Kf5", " Kd6", " Ke1",
];

const BLACK_KINGS: [&str; 8] = [
    " Kh8", " Kh8", " Kg8", " Kg8", " Kh7", " Kh6", " Kh5", " Ke8",
];

const CONDITIONS: [&str; 8] = [
    "",
    "",
    "",
    " Condition Circe",
    " Condition Circe",
    " Condition Circe",
    " Condition Madrasi",
    " Condition Madrasi",
];

/// The text of a problem under construction, and the generator's state.
#[derive(Drop)]
struct Draft {
    text: ArrayVec<u8, 256>,
    seed: u64,
}

impl Draft {
    fn put(&mut self, words: &str) {
        let _fits = self.text.try_extend_from_slice(words.as_bytes());
    }

    /// Returns a number below `count`, by a linear congruential generator (Knuth, MMIX).
    fn draw(&mut self, count: u64) -> u64
        requires { 0 < count }
        ensures { result < count }
    {
        self.seed = self
            .seed
            .wrapping_mul(6_364_136_223_846_793_005)
            .wrapping_add(1_442_695_040_888_963_407);
        (self.seed >> 33) % count
    }

    /// Puts a man of each letter on a drawn square.
    fn put_men(&mut self, letters: &str) {
        for letter in letters.as_bytes() {
            let file = self.draw(8) as u8;
            let rank = self.draw(8) as u8;
            for byte in &[b' ', *letter, b'a' + file, b'1' + rank] {
                let _fits = self.text.try_push(*byte);
            }
        }
    }

    /// Puts one of these words.
    fn put_one(&mut self, words: &[&str; 8]) {
        let at = self.draw(8) as usize;
        self.put(words[at]);
    }

    fn put_number(&mut self, number: u32) {
        let mut unit = 1_000_000u32;
        while unit > 0 {
            if number >= unit {
                let _fits = self.text.try_push(b'0' + (number / unit % 10) as u8);
            }
            unit /= 10;
        }
    }
}

/// Returns the problem with this number, with or without set play and a limit of solutions; `None` if it
/// isn't sound.
pub(crate) fn made(number: u64, set_play: bool, limit: Option<u32>) -> Option<Problem> {
    let mut draft = Draft {
        text: ArrayVec::new(),
        seed: number,
    };
    let _early = draft.draw(1);
    let (stipulation, white, black, fairy) = SHAPES[draft.draw(12) as usize];
    draft.put(" White");
    draft.put_one(&WHITE_KINGS);
    draft.put_men(white);
    draft.put_men(fairy);
    draft.put(" Black");
    draft.put_one(&BLACK_KINGS);
    draft.put_men(black);
    draft.put_one(&CONDITIONS);
    if set_play {
        draft.put(" Option SetPlay");
    }
    if let Some(limit) = limit {
        draft.put(" Option MaxSolutions ");
        draft.put_number(limit);
    }
    posed(draft.text.as_slice(), stipulation, "")
}
