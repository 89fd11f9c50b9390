//! Circe, Madrasi, grasshopper and nightrider. Written from `tests/rows/fairy.txt`.
use crate::report::Row;
use pop_run::Status;

pub(crate) const ROWS: [Row; 9] = [
    Row {
        name: "circe_rebirth_square_is_taken",
        input: b"BeginProblem\nPieces White Kg6 Ra1 Black Kg8 Ra8\nStipulation #1\nCondition Circe\nEndProblem\n",
        check: false,
        no_board: false,
        report: b"problem 1\n8 r.....k.\n7 ........\n6 ......K.\n5 ........\n4 ........\n3 ........\n2 ........\n1 R.......\n  abcdefgh\n#1 Circe\nplay\n1.Ra1*a8#\nsolutions: 1\n\n",
        status: Status::Sound,
    },
    Row {
        name: "circe_rebirth_stops_the_mate",
        input: b"BeginProblem\nPieces White Kg6 Ra1 Black Kg8 Ba8\nStipulation #1\nCondition Circe\nEndProblem\n",
        check: false,
        no_board: false,
        report: b"problem 1\n8 b.....k.\n7 ........\n6 ......K.\n5 ........\n4 ........\n3 ........\n2 ........\n1 R.......\n  abcdefgh\n#1 Circe\nplay\nsolutions: 0\n\n",
        status: Status::Sound,
    },
    Row {
        name: "en_passant_with_rebirth",
        input: b"BeginProblem\nPieces White Kg6 Ba1 Bb3 Pe5 Black Kh8 Pd5\nStipulation #1\nCondition Circe\nOption EnPassant d6\nEndProblem\n",
        check: false,
        no_board: false,
        report: b"problem 1\n8 .......k\n7 ........\n6 ......K.\n5 ...pP...\n4 ........\n3 .B......\n2 ........\n1 B.......\n  abcdefgh\n#1 Circe\nplay\n1.e5*d6 ep.[+bPd7]#\nsolutions: 1\n\n",
        status: Status::Sound,
    },
    Row {
        name: "madrasi_paralysed_rook",
        input: b"BeginProblem\nPieces White Kg6 Ra1 Black Kg8 Rh1\nStipulation #1\nCondition Madrasi\nEndProblem\n",
        check: false,
        no_board: false,
        report: b"problem 1\n8 ......k.\n7 ........\n6 ......K.\n5 ........\n4 ........\n3 ........\n2 ........\n1 R......r\n  abcdefgh\n#1 Madrasi\nplay\nsolutions: 0\n\n",
        status: Status::Sound,
    },
    Row {
        name: "no_check_under_madrasi",
        input: b"BeginProblem\nPieces White Kg6 Rh1 Black Kh8 Ra1\nStipulation #1\nCondition Madrasi\nEndProblem\n",
        check: false,
        no_board: false,
        report: b"problem 1\n8 .......k\n7 ........\n6 ......K.\n5 ........\n4 ........\n3 ........\n2 ........\n1 r......R\n  abcdefgh\n#1 Madrasi\nplay\nsolutions: 0\n\n",
        status: Status::Sound,
    },
    Row {
        name: "grasshopper_mates",
        input: b"BeginProblem\nPieces White Kf6 Bb3 Pg5 Ge3 Black Kh8 Ph7\nStipulation #1\nEndProblem\n",
        check: false,
        no_board: false,
        report: b"problem 1\n8 .......k\n7 .......p\n6 .....K..\n5 ......P.\n4 ........\n3 .B..G...\n2 ........\n1 ........\n  abcdefgh\n#1\nplay\n1.Ge3-h6#\nsolutions: 1\n\n",
        status: Status::Sound,
    },
    Row {
        name: "nightrider_mates",
        input: b"BeginProblem\nPieces White Kg6 Bb3 Na3 Black Kh8\nStipulation #1\nEndProblem\n",
        check: false,
        no_board: false,
        report: b"problem 1\n8 .......k\n7 ........\n6 ......K.\n5 ........\n4 ........\n3 NB......\n2 ........\n1 ........\n  abcdefgh\n#1\nplay\n1.Na3-b5#\nsolutions: 1\n\n",
        status: Status::Sound,
    },
    Row {
        name: "promotion_to_nightrider",
        input: b"BeginProblem\nPieces White Kf2 Pe7 Black Kh2 Bh1 Ph3 Na8\nStipulation #1\nEndProblem\n",
        check: false,
        no_board: false,
        report: b"problem 1\n8 n.......\n7 ....P...\n6 ........\n5 ........\n4 ........\n3 .......p\n2 .....K.k\n1 .......b\n  abcdefgh\n#1\nplay\n1.e7-e8=N#\nsolutions: 1\n\n",
        status: Status::Sound,
    },
    Row {
        name: "grasshopper_forbids_castling",
        input: b"BeginProblem\nPieces White Ke1 Rh1 Re8 Rg8 Black Kf3 Gd1\nStipulation #1\nEndProblem\n",
        check: false,
        no_board: false,
        report: b"problem 1\n8 ....R.R.\n7 ........\n6 ........\n5 ........\n4 ........\n3 .....k..\n2 ........\n1 ...gK..R\n  abcdefgh\n#1\nplay\nsolutions: 0\n\n",
        status: Status::Sound,
    },
];
