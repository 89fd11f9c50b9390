//! Sixteen moves and more. Written from `tests/rows/longest.txt`.
use crate::row::Row;

pub(crate) const ROWS: [Row; 1] = [Row {
    name: "one_key_in_sixteen_moves",
    input: b"BeginProblem\nPieces White Kc7 Rb2 Black Ka8\nStipulation #16\nOption MaxSolutions 1\nEndProblem\n",
    events: b"play\n1.Rb2-b1\nsolutions: 1, stopped\n",
    opened: None,
}];
