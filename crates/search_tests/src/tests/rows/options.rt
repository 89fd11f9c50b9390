//! Options, title and author, ways to write words and lines, and the options of the program. Written from `tests/rows/options.txt`.
use crate::row::Row;

pub(crate) const ROWS: [Row; 10] = [
    Row {
        name: "set_play_not_possible",
        input: b"BeginProblem\nPieces White Kg6 Ra1 Black Kg8 Ra6\nStipulation #1\nOption SetPlay\nEndProblem\n",
        events: b"set\nnot possible\nplay\nsolutions: 0\n",
        opened: None,
    },
    Row {
        name: "title_and_author",
        input: b"BeginProblem\nTitle   A first mate  \nAuthor N. N.\nPieces White Kg6 Ra1 Black Kg8\nStipulation #1\nOption NoBoard\nEndProblem\n",
        events: b"play\n1.Ra1-a8#\nsolutions: 1\n",
        opened: None,
    },
    Row {
        name: "limit_of_one",
        input: b"BeginProblem\nPieces White Kg6 Ra1b1 Black Kg8\nStipulation #1\nOption MaxSolutions 1\nEndProblem\n",
        events: b"play\n1.Ra1-a8#\nsolutions: 1, stopped\n",
        opened: None,
    },
    Row {
        name: "limit_reached_exactly",
        input: b"BeginProblem\nPieces White Kg6 Ra1 Black Kg8\nStipulation #1\nOption MaxSolutions 1\nEndProblem\n",
        events: b"play\n1.Ra1-a8#\nsolutions: 1, stopped\n",
        opened: None,
    },
    Row {
        name: "limit_with_zeros",
        input: b"BeginProblem\nPieces White Kg6 Ra1 Black Kg8\nStipulation #1\nOption MaxSolutions 007\nEndProblem\n",
        events: b"play\n1.Ra1-a8#\nsolutions: 1\n",
        opened: None,
    },
    Row {
        name: "short_words",
        input: b"Beg\nPie W Kg6 Ra1 B Kg8\nSti #1\nEnd\n",
        events: b"play\n1.Ra1-a8#\nsolutions: 1\n",
        opened: None,
    },
    Row {
        name: "case_and_lines",
        input: b"bEGINpROBLEM pieces WHITE kG6 ra1\tblack KG8\r\nstipulation\n#1 endproblem",
        events: b"play\n1.Ra1-a8#\nsolutions: 1\n",
        opened: None,
    },
    Row {
        name: "carriage_returns",
        input: b"BeginProblem\r\nPieces White Kg6 Ra1 Black Kg8\r\nStipulation #1\r\nEndProblem\r\n",
        events: b"play\n1.Ra1-a8#\nsolutions: 1\n",
        opened: None,
    },
    Row {
        name: "carriage_returns_and_title",
        input: b"BeginProblem\r\nTitle   A first mate  \r\nAuthor N. N.\r\nPieces White Kg6 Ra1 Black Kg8\r\nStipulation #1\r\nOption NoBoard\r\nEndProblem\r\n",
        events: b"play\n1.Ra1-a8#\nsolutions: 1\n",
        opened: None,
    },
    Row {
        name: "no_board_at_all",
        input: b"BeginProblem\nPieces White Kg6 Ra1 Black Kg8\nStipulation #1\nEndProblem\n",
        events: b"play\n1.Ra1-a8#\nsolutions: 1\n",
        opened: None,
    },
];
