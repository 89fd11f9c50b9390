//! Stalemate as a goal, in positions small enough to be worked out by hand. Either king may be missing. Written from `tests/rows/stalemate.txt`.
use crate::row::Row;

pub(crate) const ROWS: [Row; 23] = [
    Row {
        name: "stalemate_in_one",
        input: b"BeginProblem\nPieces White Kc7 Rb2 Black Ka8\nStipulation =1\nEndProblem\n",
        events: b"play\n1.Rb2-b7=\nsolutions: 1\n",
        opened: None,
    },
    Row {
        name: "help_stalemate",
        input: b"BeginProblem\nPieces White Ke6 Pf7 Black Kg7\nStipulation h=1\nEndProblem\n",
        events: b"play\n1.Kg7-f8 Ke6-f6=\nsolutions: 1\n",
        opened: None,
    },
    Row {
        name: "selfstalemate_with_variation",
        input: b"BeginProblem\nPieces White Ka1 Re8 Ph6 Black Kh8 Bg8 Ph7 Pa2a3b3\nStipulation s=1\nOption Variation\nEndProblem\n",
        events: b"play\n1.Re8*g8+\n  1...Kh8*g8=\nsolutions: 1\n",
        opened: None,
    },
    Row {
        name: "stalemate_without_kings",
        input: b"BeginProblem\nPieces White Kg6 Ra1\nStipulation =1\nOption MaxSolutions 1\nEndProblem\n",
        events: b"play\n1.Ra1-b1=\nsolutions: 1, stopped\n",
        opened: None,
    },
    Row {
        name: "pawn_stopped_or_captured",
        input: b"BeginProblem\nPieces White Ra5 Black Pa7\nStipulation =1\nEndProblem\n",
        events: b"play\n1.Ra5-a6=\n1.Ra5*a7=\nsolutions: 2\n",
        opened: None,
    },
    Row {
        name: "mate_is_no_stalemate",
        input: b"BeginProblem\nPieces White Kc7 Rb2 Black Ka8\nStipulation #1\nEndProblem\n",
        events: b"play\n1.Rb2-a2#\nsolutions: 1\n",
        opened: None,
    },
    Row {
        name: "stalemate_in_two_moves_at_most",
        input: b"BeginProblem\nPieces White Kc7 Rb2 Black Ka8\nStipulation =2\nOption Variation\nEndProblem\n",
        events: b"play\n1.Rb2-b7=\nsolutions: 1\n",
        opened: None,
    },
    Row {
        name: "no_stalemate_in_one",
        input: b"BeginProblem\nPieces White Kg6 Ra1 Black Kg8\nStipulation =1\nEndProblem\n",
        events: b"play\nsolutions: 0\n",
        opened: None,
    },
    Row {
        name: "pawns_meet_with_set_play",
        input: b"BeginProblem\nPieces White Pa2 Black Pa6\nStipulation =2\nOption SetPlay Variation\nEndProblem\n",
        events: b"set\n1...a6-a5\n  2.a2-a4=\nsolutions: 1\nplay\n1.a2-a3\n  1...a6-a5\n    2.a3-a4=\nsolutions: 1\n",
        opened: None,
    },
    Row {
        name: "pawns_meet_in_sixteen_moves",
        input: b"BeginProblem\nPieces White Pa2 Black Pa6\nStipulation =16\nEndProblem\n",
        events: b"play\n1.a2-a3\nsolutions: 1\n",
        opened: None,
    },
    Row {
        name: "selfstalemate_by_a_pawn",
        input: b"BeginProblem\nPieces White Pa5 Black Kh8 Pa7\nStipulation s=1\nOption Variation\nEndProblem\n",
        events: b"play\n1.a5-a6\n  1...Kh8-g7=\n  1...Kh8-h7=\n  1...Kh8-g8=\nsolutions: 1\n",
        opened: None,
    },
    Row {
        name: "no_reply_to_selfstalemate",
        input: b"BeginProblem\nPieces White Pa5 Black Pa7\nStipulation s=1\nEndProblem\n",
        events: b"play\nsolutions: 0\n",
        opened: None,
    },
    Row {
        name: "help_stalemate_with_set_play",
        input: b"BeginProblem\nPieces White Pb2 Black Pb6\nStipulation h=1.5\nOption SetPlay\nEndProblem\n",
        events: b"set\n2.b6-b5 b2-b4=\nsolutions: 1\nplay\n1...b2-b3 2.b6-b5 b3-b4=\nsolutions: 1\n",
        opened: None,
    },
    Row {
        name: "no_help_stalemate_in_sixteen_moves",
        input: b"BeginProblem\nPieces White Pb2 Black Pb6\nStipulation h=16\nEndProblem\n",
        events: b"play\nsolutions: 0\n",
        opened: None,
    },
    Row {
        name: "stalemate_by_paralysis",
        input: b"BeginProblem\nPieces White Kf7 Ra1 Pg6 Black Kh8 Rb8\nStipulation =1\nCondition Madrasi\nEndProblem\n",
        events: b"play\n1.Ra1-b1=\n1.Ra1-a8=\nsolutions: 2\n",
        opened: None,
    },
    Row {
        name: "no_stalemate_without_madrasi",
        input: b"BeginProblem\nPieces White Kf7 Ra1 Pg6 Black Kh8 Rb8\nStipulation =1\nEndProblem\n",
        events: b"play\nsolutions: 0\n",
        opened: None,
    },
    Row {
        name: "stalemate_by_a_capture",
        input: b"BeginProblem\nPieces White Kc7 Rb2 Black Ka8 Sb7\nStipulation =1\nEndProblem\n",
        events: b"play\n1.Rb2*b7=\nsolutions: 1\n",
        opened: None,
    },
    Row {
        name: "no_stalemate_with_rebirth",
        input: b"BeginProblem\nPieces White Kc7 Rb2 Black Ka8 Sb7\nStipulation =1\nCondition Circe\nEndProblem\n",
        events: b"play\nsolutions: 0\n",
        opened: None,
    },
    Row {
        name: "en_passant_is_a_move",
        input: b"BeginProblem\nPieces White Pc2d2e3 Black Pe4\nStipulation =1\nEndProblem\n",
        events: b"play\n1.c2-c3=\n1.c2-c4=\nsolutions: 2\n",
        opened: None,
    },
    Row {
        name: "help_stalemate_with_promotion",
        input: b"BeginProblem\nPieces White Kf5 Pf6 Black Kg8\nStipulation h=1.5\nEndProblem\n",
        events: b"play\n1...Kf5-g6 2.Kg8-h8 f6-f7=\n1...f6-f7+ 2.Kg8-h7 f7-f8=Q=\n1...f6-f7+ 2.Kg8-f8 Kf5-f6=\n1...f6-f7+ 2.Kg8-h8 Kf5-g6=\nsolutions: 4\n",
        opened: None,
    },
    Row {
        name: "castling_stalemates",
        input: b"BeginProblem\nPieces White Ke1 Ra1 Pa2a3b3 Black Kc3\nStipulation =1\nEndProblem\n",
        events: b"play\n1.0-0-0=\nsolutions: 1\n",
        opened: None,
    },
    Row {
        name: "paralysed_rook_cannot_castle",
        input: b"BeginProblem\nPieces White Ke6 Ra1 Ba5 Sg6 Black Ke8 Rh8\nStipulation =1\nCondition Madrasi\nEndProblem\n",
        events: b"play\n1.Ra1-h1=\nsolutions: 1\n",
        opened: None,
    },
    Row {
        name: "rook_moves_without_madrasi",
        input: b"BeginProblem\nPieces White Ke6 Ra1 Ba5 Sg6 Black Ke8 Rh8\nStipulation =1\nEndProblem\n",
        events: b"play\nsolutions: 0\n",
        opened: None,
    },
];
