//! Orthodox men in one move: castling, en passant, promotion. Written from `tests/rows/orthodox.txt`.
use crate::report::Row;
use pop_run::Status;

// The row `mate_in_one`, also for other tests.
pub(crate) const MATE_IN_ONE_INPUT: &[u8] =
    b"BeginProblem\nPieces White Kg6 Ra1 Black Kg8\nStipulation #1\nEndProblem\n";

pub(crate) const MATE_IN_ONE_REPORT: &[u8] =
    b"problem 1\n8 ......k.\n7 ........\n6 ......K.\n5 ........\n4 ........\n3 ........\n2 ........\n1 R.......\n  abcdefgh\n#1\nplay\n1.Ra1-a8#\nsolutions: 1\n\n";

pub(crate) const ROWS: [Row; 10] = [
    Row {
        name: "mate_in_one",
        input: MATE_IN_ONE_INPUT,
        check: false,
        no_board: false,
        report: MATE_IN_ONE_REPORT,
        status: Status::Sound,
    },
    Row {
        name: "two_keys",
        input: b"BeginProblem\nPieces White Kg6 Ra1b1 Black Kg8\nStipulation #1\nEndProblem\n",
        check: false,
        no_board: false,
        report: b"problem 1\n8 ......k.\n7 ........\n6 ......K.\n5 ........\n4 ........\n3 ........\n2 ........\n1 RR......\n  abcdefgh\n#1\nplay\n1.Ra1-a8#\n1.Rb1-b8#\nsolutions: 2\n\n",
        status: Status::Sound,
    },
    Row {
        name: "knight_mates",
        input: b"BeginProblem\nPieces White Kh6 Se5 Black Kh8 Rg8\nStipulation #1\nEndProblem\n",
        check: false,
        no_board: false,
        report: b"problem 1\n8 ......rk\n7 ........\n6 .......K\n5 ....S...\n4 ........\n3 ........\n2 ........\n1 ........\n  abcdefgh\n#1\nplay\n1.Se5-f7#\nsolutions: 1\n\n",
        status: Status::Sound,
    },
    Row {
        name: "castling_mates",
        input: b"BeginProblem\nPieces White Ke1 Rh1 Re8 Rg8 Black Kf3\nStipulation #1\nEndProblem\n",
        check: false,
        no_board: false,
        report: b"problem 1\n8 ....R.R.\n7 ........\n6 ........\n5 ........\n4 ........\n3 .....k..\n2 ........\n1 ....K..R\n  abcdefgh\n#1\nplay\n1.0-0#\n1.Rh1-f1#\nsolutions: 2\n\n",
        status: Status::Sound,
    },
    Row {
        name: "castling_forbidden",
        input: b"BeginProblem\nPieces White Ke1 Rh1 Re8 Rg8 Black Kf3\nStipulation #1\nOption NoCastling h1\nEndProblem\n",
        check: false,
        no_board: false,
        report: b"problem 1\n8 ....R.R.\n7 ........\n6 ........\n5 ........\n4 ........\n3 .....k..\n2 ........\n1 ....K..R\n  abcdefgh\n#1\nplay\n1.Rh1-f1#\nsolutions: 1\n\n",
        status: Status::Sound,
    },
    Row {
        name: "en_passant_mates",
        input: b"BeginProblem\nPieces White Kg6 Ba1 Bb3 Pe5 Black Kh8 Pd5\nStipulation #1\nOption EnPassant d6\nEndProblem\n",
        check: false,
        no_board: false,
        report: b"problem 1\n8 .......k\n7 ........\n6 ......K.\n5 ...pP...\n4 ........\n3 .B......\n2 ........\n1 B.......\n  abcdefgh\n#1\nplay\n1.e5*d6 ep.#\nsolutions: 1\n\n",
        status: Status::Sound,
    },
    Row {
        name: "en_passant_not_given",
        input: b"BeginProblem\nPieces White Kg6 Ba1 Bb3 Pe5 Black Kh8 Pd5\nStipulation #1\nEndProblem\n",
        check: false,
        no_board: false,
        report: b"problem 1\n8 .......k\n7 ........\n6 ......K.\n5 ...pP...\n4 ........\n3 .B......\n2 ........\n1 B.......\n  abcdefgh\n#1\nplay\nsolutions: 0\n\n",
        status: Status::Sound,
    },
    Row {
        name: "two_promotions",
        input: b"BeginProblem\nPieces White Kg6 Pf7 Black Kh8\nStipulation #1\nEndProblem\n",
        check: false,
        no_board: false,
        report: b"problem 1\n8 .......k\n7 .....P..\n6 ......K.\n5 ........\n4 ........\n3 ........\n2 ........\n1 ........\n  abcdefgh\n#1\nplay\n1.f7-f8=Q#\n1.f7-f8=R#\nsolutions: 2\n\n",
        status: Status::Sound,
    },
    Row {
        name: "the_same_without_madrasi",
        input: b"BeginProblem\nPieces White Kg6 Ra1 Black Kg8 Rh1\nStipulation #1\nEndProblem\n",
        check: false,
        no_board: false,
        report: b"problem 1\n8 ......k.\n7 ........\n6 ......K.\n5 ........\n4 ........\n3 ........\n2 ........\n1 R......r\n  abcdefgh\n#1\nplay\n1.Ra1-a8#\nsolutions: 1\n\n",
        status: Status::Sound,
    },
    Row {
        name: "no_nightrider_to_promote_to",
        input: b"BeginProblem\nPieces White Kf2 Pe7 Black Kh2 Bh1 Ph3\nStipulation #1\nEndProblem\n",
        check: false,
        no_board: false,
        report: b"problem 1\n8 ........\n7 ....P...\n6 ........\n5 ........\n4 ........\n3 .......p\n2 .....K.k\n1 .......b\n  abcdefgh\n#1\nplay\nsolutions: 0\n\n",
        status: Status::Sound,
    },
];
