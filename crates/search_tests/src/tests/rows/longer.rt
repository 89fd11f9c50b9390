//! More moves than one. Written from `tests/rows/longer.txt`.
use crate::row::Row;

pub(crate) const ROWS: [Row; 11] = [
    Row {
        name: "mate_in_two_with_variations",
        input: b"BeginProblem\nPieces White Kc7 Rb2 Black Ka8\nStipulation #2\nOption Variation\nEndProblem\n",
        events: b"play\n1.Rb2-b1\n  1...Ka8-a7\n    2.Rb1-a1#\n1.Rb2-a2#\n1.Rb2-c2\n  1...Ka8-a7\n    2.Rc2-a2#\n1.Rb2-d2\n  1...Ka8-a7\n    2.Rd2-a2#\n1.Rb2-e2\n  1...Ka8-a7\n    2.Re2-a2#\n1.Rb2-f2\n  1...Ka8-a7\n    2.Rf2-a2#\n1.Rb2-g2\n  1...Ka8-a7\n    2.Rg2-a2#\n1.Rb2-h2\n  1...Ka8-a7\n    2.Rh2-a2#\n1.Rb2-b3\n  1...Ka8-a7\n    2.Rb3-a3#\n1.Rb2-b4\n  1...Ka8-a7\n    2.Rb4-a4#\n1.Rb2-b5\n  1...Ka8-a7\n    2.Rb5-a5#\nsolutions: 11\n",
        opened: Some((30, 156)),
    },
    Row {
        name: "mate_in_two_first_two_keys",
        input: b"BeginProblem\nPieces White Kc7 Rb2 Black Ka8\nStipulation #2\nOption Variation MaxSolutions 2\nEndProblem\n",
        events: b"play\n1.Rb2-b1\n  1...Ka8-a7\n    2.Rb1-a1#\n1.Rb2-a2#\nsolutions: 2, stopped\n",
        opened: None,
    },
    Row {
        name: "set_play_and_play_stopped",
        input: b"BeginProblem\nPieces White Kc7 Rb2 Black Ka8\nStipulation #2\nOption SetPlay MaxSolutions 1\nEndProblem\n",
        events: b"set\n1...Ka8-a7\n  2.Rb2-a2#\nsolutions: 1, stopped\nplay\n1.Rb2-b1\nsolutions: 1, stopped\n",
        opened: None,
    },
    Row {
        name: "shortest_continuation",
        input: b"BeginProblem\nPieces White Kc7 Rb2 Black Ka8\nStipulation #3\nOption Variation MaxSolutions 1\nEndProblem\n",
        events: b"play\n1.Rb2-b1\n  1...Ka8-a7\n    2.Rb1-a1#\nsolutions: 1, stopped\n",
        opened: None,
    },
    Row {
        name: "help_mate_with_set_play",
        input: b"BeginProblem\nPieces White Kg6 Ra1 Black Kh8\nStipulation h#1\nOption SetPlay\nEndProblem\n",
        events: b"set\n1...Ra1-a8#\nsolutions: 1\nplay\n1.Kh8-g8 Ra1-a8#\nsolutions: 1\n",
        opened: None,
    },
    Row {
        name: "help_mate_in_one_and_a_half",
        input: b"BeginProblem\nPieces White Kg6 Ra1 Black Kh8\nStipulation h#1.5\nOption MaxSolutions 1\nEndProblem\n",
        events: b"play\n1...Ra1-b1 2.Kh8-g8 Rb1-b8#\nsolutions: 1, stopped\n",
        opened: None,
    },
    Row {
        name: "help_mate_in_two",
        input: b"BeginProblem\nPieces White Kg6 Ra1 Black Kh8\nStipulation h#2\nOption MaxSolutions 1\nEndProblem\n",
        events: b"play\n1.Kh8-g8 Ra1-b1 2.Kg8-h8 Rb1-b8#\nsolutions: 1, stopped\n",
        opened: None,
    },
    Row {
        name: "half_move_with_set_play",
        input: b"BeginProblem\nPieces White Kg6 Ra1 Black Kg8\nStipulation h#0.5\nOption SetPlay\nEndProblem\n",
        events: b"set\nsolutions: 0\nplay\n1...Ra1-a8#\nsolutions: 1\n",
        opened: None,
    },
    Row {
        name: "selfmate_with_variations",
        input: b"BeginProblem\nPieces White Ka1 Re8 Ph6 Black Kh8 Bg8 Ph7 Pa2a3b3\nStipulation s#1\nOption Variation\nEndProblem\n",
        events: b"play\n1.Re8-a8\n  1...b3-b2#\n1.Re8-c8\n  1...b3-b2#\n1.Re8-d8\n  1...b3-b2#\n1.Re8-f8\n  1...b3-b2#\nsolutions: 4\n",
        opened: None,
    },
    Row {
        name: "selfmate_with_set_play",
        input: b"BeginProblem\nPieces White Ka1 Re8 Ph6 Black Kh8 Bg8 Ph7 Pa2a3b3\nStipulation s#1\nOption SetPlay\nEndProblem\n",
        events: b"set\n1...b3-b2#\nsolutions: 1\nplay\n1.Re8-a8\n1.Re8-c8\n1.Re8-d8\n1.Re8-f8\nsolutions: 4\n",
        opened: None,
    },
    Row {
        name: "game_array",
        input: b"BeginProblem\nPieces White Ke1 Qd1 Ra1h1 Bc1f1 Sb1g1 Pa2b2c2d2e2f2g2h2 Black Ke8 Qd8 Ra8h8 Bc8f8 Sb8g8 Pa7b7c7d7e7f7g7h7\nStipulation h#1.5\nEndProblem\n",
        events: b"play\nsolutions: 0\n",
        opened: Some((421, 421)),
    },
];
