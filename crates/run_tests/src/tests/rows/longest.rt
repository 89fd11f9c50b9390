//! Sixteen moves and more. Written from `tests/rows/longest.txt`.
use crate::report::Row;
use pop_run::Status;

pub(crate) const ROWS: [Row; 7] = [
    Row {
        name: "one_key_in_sixteen_moves",
        input: b"BeginProblem\nPieces White Kc7 Rb2 Black Ka8\nStipulation #16\nOption MaxSolutions 1\nEndProblem\n",
        check: false,
        no_board: false,
        report: b"problem 1\n8 k.......\n7 ..K.....\n6 ........\n5 ........\n4 ........\n3 ........\n2 .R......\n1 ........\n  abcdefgh\n#16\nplay\n1.Rb2-b1\nsolutions: 1, stopped\n\n",
        status: Status::Sound,
    },
    Row {
        name: "eight_and_a_half_moves_checked",
        input: b"BeginProblem\nPieces White Kg6 Ra1 Black Kg8\nStipulation h#8.5\nEndProblem\n",
        check: true,
        no_board: false,
        report: b"problem 1\n8 ......k.\n7 ........\n6 ......K.\n5 ........\n4 ........\n3 ........\n2 ........\n1 R.......\n  abcdefgh\nh#8.5\nsound\n\n",
        status: Status::Sound,
    },
    Row {
        name: "fifteen_and_a_half_moves_checked",
        input: b"BeginProblem\nPieces White Kg6 Ra1 Black Kg8\nStipulation h#15.5\nEndProblem\n",
        check: true,
        no_board: false,
        report: b"problem 1\n8 ......k.\n7 ........\n6 ......K.\n5 ........\n4 ........\n3 ........\n2 ........\n1 R.......\n  abcdefgh\nh#15.5\nsound\n\n",
        status: Status::Sound,
    },
    Row {
        name: "sixteen_moves_checked",
        input: b"BeginProblem\nPieces White Kg6 Ra1 Black Kg8\nStipulation h#16\nEndProblem\n",
        check: true,
        no_board: false,
        report: b"problem 1\n8 ......k.\n7 ........\n6 ......K.\n5 ........\n4 ........\n3 ........\n2 ........\n1 R.......\n  abcdefgh\nh#16\nsound\n\n",
        status: Status::Sound,
    },
    Row {
        name: "seventeen_moves",
        input: b"BeginProblem\nPieces White Kg6 Ra1 Black Kg8\nStipulation #17\nEndProblem\n",
        check: false,
        no_board: false,
        report: b"problem 1\nline 3: fault 8: bad stipulation\n\n",
        status: Status::Faulty,
    },
    Row {
        name: "sixteen_and_a_half_moves",
        input: b"BeginProblem\nPieces White Kg6 Ra1 Black Kg8\nStipulation h#16.5\nEndProblem\n",
        check: false,
        no_board: false,
        report: b"problem 1\nline 3: fault 8: bad stipulation\n\n",
        status: Status::Faulty,
    },
    Row {
        name: "stalemate_in_seventeen",
        input: b"BeginProblem\nPieces White Kg6 Ra1 Black Kg8\nStipulation =17\nEndProblem\n",
        check: false,
        no_board: false,
        report: b"problem 1\nline 3: fault 8: bad stipulation\n\n",
        status: Status::Faulty,
    },
];
