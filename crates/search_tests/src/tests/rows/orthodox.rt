//! Orthodox men in one move: castling, en passant, promotion. Written from `tests/rows/orthodox.txt`.
use crate::row::Row;

pub(crate) const ROWS: [Row; 10] = [
    Row {
        name: "mate_in_one",
        input: b"BeginProblem\nPieces White Kg6 Ra1 Black Kg8\nStipulation #1\nEndProblem\n",
        events: b"play\n1.Ra1-a8#\nsolutions: 1\n",
        opened: None,
    },
    Row {
        name: "two_keys",
        input: b"BeginProblem\nPieces White Kg6 Ra1b1 Black Kg8\nStipulation #1\nEndProblem\n",
        events: b"play\n1.Ra1-a8#\n1.Rb1-b8#\nsolutions: 2\n",
        opened: None,
    },
    Row {
        name: "knight_mates",
        input: b"BeginProblem\nPieces White Kh6 Se5 Black Kh8 Rg8\nStipulation #1\nEndProblem\n",
        events: b"play\n1.Se5-f7#\nsolutions: 1\n",
        opened: None,
    },
    Row {
        name: "castling_mates",
        input: b"BeginProblem\nPieces White Ke1 Rh1 Re8 Rg8 Black Kf3\nStipulation #1\nEndProblem\n",
        events: b"play\n1.0-0#\n1.Rh1-f1#\nsolutions: 2\n",
        opened: None,
    },
    Row {
        name: "castling_forbidden",
        input: b"BeginProblem\nPieces White Ke1 Rh1 Re8 Rg8 Black Kf3\nStipulation #1\nOption NoCastling h1\nEndProblem\n",
        events: b"play\n1.Rh1-f1#\nsolutions: 1\n",
        opened: None,
    },
    Row {
        name: "en_passant_mates",
        input: b"BeginProblem\nPieces White Kg6 Ba1 Bb3 Pe5 Black Kh8 Pd5\nStipulation #1\nOption EnPassant d6\nEndProblem\n",
        events: b"play\n1.e5*d6 ep.#\nsolutions: 1\n",
        opened: None,
    },
    Row {
        name: "en_passant_not_given",
        input: b"BeginProblem\nPieces White Kg6 Ba1 Bb3 Pe5 Black Kh8 Pd5\nStipulation #1\nEndProblem\n",
        events: b"play\nsolutions: 0\n",
        opened: None,
    },
    Row {
        name: "two_promotions",
        input: b"BeginProblem\nPieces White Kg6 Pf7 Black Kh8\nStipulation #1\nEndProblem\n",
        events: b"play\n1.f7-f8=Q#\n1.f7-f8=R#\nsolutions: 2\n",
        opened: None,
    },
    Row {
        name: "the_same_without_madrasi",
        input: b"BeginProblem\nPieces White Kg6 Ra1 Black Kg8 Rh1\nStipulation #1\nEndProblem\n",
        events: b"play\n1.Ra1-a8#\nsolutions: 1\n",
        opened: None,
    },
    Row {
        name: "no_nightrider_to_promote_to",
        input: b"BeginProblem\nPieces White Kf2 Pe7 Black Kh2 Bh1 Ph3\nStipulation #1\nEndProblem\n",
        events: b"play\nsolutions: 0\n",
        opened: None,
    },
];
