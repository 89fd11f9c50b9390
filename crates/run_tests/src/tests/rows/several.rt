//! Several problems, and words as long as they may be. Written from `tests/rows/several.txt`.
use crate::report::Row;
use pop_run::Status;

// The row `three_problems`, also for other tests.
pub(crate) const THREE_PROBLEMS_INPUT: &[u8] =
    b"BeginProblem\nPieces White Kg6 Rg6 Black Kg8\nRemark not yet NextProblem here\nStipulation #1\nNextProblem\nPieces White Kg6 Ra1 Black Kg8\nStipulation #1\nNextProblem\nPieces White K\n";

pub(crate) const THREE_PROBLEMS_REPORT: &[u8] =
    b"problem 1\nline 2: fault 5: square given twice\n\nproblem 2\n8 ......k.\n7 ........\n6 ......K.\n5 ........\n4 ........\n3 ........\n2 ........\n1 R.......\n  abcdefgh\n#1\nplay\n1.Ra1-a8#\nsolutions: 1\n\nproblem 3\nline 9: fault 14: square expected\n\n";

pub(crate) const ROWS: [Row; 6] = [
    Row {
        name: "en_passant_impossible_then_sound",
        input: b"BeginProblem\nPieces White Kg6 Ba1 Bb3 Pe5 Black Kh8\nStipulation #1\nOption EnPassant d6\nNextProblem\nPieces White Kg6 Ra1 Black Kg8\nStipulation #1\nEndProblem\n",
        check: false,
        no_board: false,
        report: b"problem 1\nline 5: fault 15: en passant not possible there\n\nproblem 2\n8 ......k.\n7 ........\n6 ......K.\n5 ........\n4 ........\n3 ........\n2 ........\n1 R.......\n  abcdefgh\n#1\nplay\n1.Ra1-a8#\nsolutions: 1\n\n",
        status: Status::Faulty,
    },
    Row {
        name: "three_problems",
        input: THREE_PROBLEMS_INPUT,
        check: false,
        no_board: false,
        report: THREE_PROBLEMS_REPORT,
        status: Status::Faulty,
    },
    Row {
        name: "three_problems_without_last_line_end",
        input: b"BeginProblem\nPieces White Kg6 Rg6 Black Kg8\nRemark not yet NextProblem here\nStipulation #1\nNextProblem\nPieces White Kg6 Ra1 Black Kg8\nStipulation #1\nNextProblem\nPieces White K",
        check: false,
        no_board: false,
        report: b"problem 1\nline 2: fault 5: square given twice\n\nproblem 2\n8 ......k.\n7 ........\n6 ......K.\n5 ........\n4 ........\n3 ........\n2 ........\n1 R.......\n  abcdefgh\n#1\nplay\n1.Ra1-a8#\nsolutions: 1\n\nproblem 3\nline 9: fault 14: square expected\n\n",
        status: Status::Faulty,
    },
    Row {
        name: "long_word_is_skipped",
        input: b"BeginProblem\nPieces White Pa8\nxxxxxxxxxxxxxxxxxxxxxxxxxxxxxxxxxxxxxxxxxxxxxxxxxxxxxxxxxxxxxxxxxxxxxxxxxxxxxxxxxxxxxxxxxxxxxxxxxxxxxxxxxxxxxxxxxxxxxxxxxxxxxxxxxxxxxxxxxxxxxxxxxxxxxxxxxxxxxxxxx\nNextProblem\nPieces White Kg6 Ra1 Black Kg8\nStipulation #1\nEndProblem\n",
        check: false,
        no_board: false,
        report: b"problem 1\nline 2: fault 6: pawn on rank 1 or 8\n\nproblem 2\n8 ......k.\n7 ........\n6 ......K.\n5 ........\n4 ........\n3 ........\n2 ........\n1 R.......\n  abcdefgh\n#1\nplay\n1.Ra1-a8#\nsolutions: 1\n\n",
        status: Status::Faulty,
    },
    Row {
        name: "word_of_160_bytes",
        input: b"BeginProblem\nxxxxxxxxxxxxxxxxxxxxxxxxxxxxxxxxxxxxxxxxxxxxxxxxxxxxxxxxxxxxxxxxxxxxxxxxxxxxxxxxxxxxxxxxxxxxxxxxxxxxxxxxxxxxxxxxxxxxxxxxxxxxxxxxxxxxxxxxxxxxxxxxxxxxxxxxxxxxxxxx\nEndProblem\n",
        check: false,
        no_board: false,
        report: b"problem 1\nline 2: fault 2: unknown or misplaced word\n\n",
        status: Status::Faulty,
    },
    Row {
        name: "word_of_161_bytes",
        input: b"BeginProblem\nxxxxxxxxxxxxxxxxxxxxxxxxxxxxxxxxxxxxxxxxxxxxxxxxxxxxxxxxxxxxxxxxxxxxxxxxxxxxxxxxxxxxxxxxxxxxxxxxxxxxxxxxxxxxxxxxxxxxxxxxxxxxxxxxxxxxxxxxxxxxxxxxxxxxxxxxxxxxxxxxx\nEndProblem\n",
        check: false,
        no_board: false,
        report: b"problem 1\nline 2: fault 3: word too long\n\n",
        status: Status::Faulty,
    },
];
