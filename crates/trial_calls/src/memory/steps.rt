//! The calls of a client's session.

use pattern_cells::Cell;

/// A call.
#[derive(Drop)]
pub enum Act {
    Join,
    /// The command of these lines.
    Command(&'static [&'static [u8]]),
    /// The opening of this text.
    Open(&'static [u8]),
    /// The opening of what was saved last.
    OpenSaved,
    Leave,
}

/// What is left behind it.
#[derive(Drop)]
pub enum Left {
    Told,
    /// An edit was drawn of what was opened, or refused.
    Drawn,
    Refused,
    /// This is written to a file.
    Text(&'static [u8]),
    /// The state of the board is.
    State,
    Leave,
}

/// A call of a session, and what comes before and of it.
#[derive(Drop)]
pub struct Step {
    pub call: &'static str,
    /// Which cells another seat draws before it, each in an edit of its own.
    pub draws: &'static [Cell],
    /// How many edits the board hands out at most.
    pub most: usize,
    pub act: Act,
    pub left: Left,
    /// What it prints where edits are told, and where cells that look different are.
    pub edits: &'static [u8],
    pub cells: &'static [u8],
}

/// A call that prints nothing and leaves nothing, for steps to begin with.
const SILENT: Step = Step {
    call: "leave",
    draws: &[],
    most: 1024,
    act: Act::Leave,
    left: Left::Told,
    edits: b"",
    cells: b"",
};

/// The board once it has eleven edits.
const BOARD: &[u8] = b"#CXRLE Pos=0,0 Gen=0\nx = 10, y = 10, rule = /2/3\nA4$4.2A3$7.B2$9.A!\n";

pub static STEPS: [Step; 23] = [
    Step {
        call: "Client::join",
        draws: &cells![(9, 9, 1)],
        act: Act::Join,
        edits: b"joined 1 /2/3\nedit 1 2 cells 9 9 1\n",
        cells: b"joined 1 /2/3\nnow 9 9 1\n",
        ..SILENT
    },
    Step {
        call: "cells",
        act: Act::Command(&[b"cells 0 0 1 1 0 1"]),
        edits: b"drawn 2 1\n",
        cells: b"drawn 2 1\nnow 0 0 1 1 0 1\n",
        ..SILENT
    },
    Step {
        call: "clear",
        act: Act::Command(&[b"clear 1 0 1 1"]),
        edits: b"drawn 3 1\n",
        cells: b"drawn 3 1\nnow 1 0 0\n",
        ..SILENT
    },
    Step {
        call: "pattern",
        act: Act::Command(&[b"pattern p", b"x = 2, y = 1", b"A.!", b"end"]),
        edits: b"pattern p 2 1 1 0 0 0\n",
        cells: b"pattern p 2 1 1 0 0 0\n",
        ..SILENT
    },
    Step {
        call: "turn",
        act: Act::Command(&[b"turn p t left"]),
        edits: b"pattern t 1 2 1 0 0 0\n",
        cells: b"pattern t 1 2 1 0 0 0\n",
        ..SILENT
    },
    Step {
        call: "turn of no pattern",
        act: Act::Command(&[b"turn q t left"]),
        edits: b"refused 38 NoPattern\n",
        cells: b"refused 38 NoPattern\n",
        ..SILENT
    },
    Step {
        call: "copy",
        draws: &cells![(5, 4, 2)],
        act: Act::Command(&[b"copy p 4 4"]),
        edits: b"edit 4 2 cells 5 4 2\ndrawn 5 1\n",
        cells: b"now 5 4 2\ndrawn 5 1\nnow 4 4 1 5 4 0\n",
        ..SILENT
    },
    Step {
        call: "or",
        act: Act::Command(&[b"or p 5 4"]),
        edits: b"drawn 6 1\n",
        cells: b"drawn 6 1\nnow 5 4 1\n",
        ..SILENT
    },
    Step {
        call: "or of no pattern",
        act: Act::Command(&[b"or q 5 4"]),
        edits: b"refused 38 NoPattern\n",
        cells: b"refused 38 NoPattern\n",
        ..SILENT
    },
    Step {
        call: "cells outside of the plane",
        act: Act::Command(&[b"cells 1073741824 0 1"]),
        edits: b"refused 10 OutOfPlane\n",
        cells: b"refused 10 OutOfPlane\n",
        ..SILENT
    },
    Step {
        call: "show",
        act: Act::Command(&[b"show 5 4"]),
        edits: b"cell 1 6 1\n",
        cells: b"cell 1 6 1\n",
        ..SILENT
    },
    Step {
        call: "poll of edits",
        draws: &cells![(9, 9, 2), (8, 8, 1)],
        act: Act::Command(&[b"poll"]),
        edits: b"edit 7 2 cells 9 9 2\nedit 8 2 cells 8 8 1\nedits 4\n",
        cells: b"now 8 8 1 9 9 2\nedits 4\n",
        ..SILENT
    },
    Step {
        call: "wait",
        draws: &cells![(8, 8, 0)],
        act: Act::Command(&[b"wait 1 10000"]),
        edits: b"edit 9 2 cells 8 8 0\nedits 1\n",
        cells: b"now 8 8 0\nedits 1\n",
        ..SILENT
    },
    Step {
        call: "wait that is late",
        act: Act::Command(&[b"wait 1 0"]),
        edits: b"late 0\n",
        cells: b"late 0\n",
        ..SILENT
    },
    Step {
        call: "poll of a plane",
        draws: &cells![(9, 9, 1), (7, 7, 2)],
        most: 1,
        act: Act::Command(&[b"poll"]),
        edits: b"whole\n",
        cells: b"whole\nnow 7 7 2 9 9 1\n",
        ..SILENT
    },
    Step {
        call: "export",
        act: Act::Command(&[b"export 0"]),
        edits: BOARD,
        cells: BOARD,
        ..SILENT
    },
    Step {
        call: "export to a file",
        act: Act::Command(&[b"export 0 board.rle"]),
        left: Left::Text(BOARD),
        ..SILENT
    },
    Step {
        call: "save",
        act: Act::Command(&[b"save board.state"]),
        left: Left::State,
        ..SILENT
    },
    Step {
        call: "open of an RLE text",
        act: Act::Open(b"#CXRLE Pos=-3,0\nx = 2, y = 1\nAB!"),
        left: Left::Drawn,
        edits: b"drawn 12 1\n",
        cells: b"drawn 12 1\nnow -3 0 1 -2 0 2\n",
        ..SILENT
    },
    Step {
        call: "open of a state",
        draws: &cells![(0, 0, 2)],
        act: Act::OpenSaved,
        left: Left::Drawn,
        edits: b"edit 13 2 cells 0 0 2\ndrawn 14 1\n",
        cells: b"now 0 0 2\ndrawn 14 1\nnow 0 0 1\n",
        ..SILENT
    },
    Step {
        call: "open of another text",
        act: Act::Open(b"hello"),
        left: Left::Refused,
        edits: b"refused 4 Header\n",
        cells: b"refused 4 Header\n",
        ..SILENT
    },
    Step {
        call: "bye",
        act: Act::Command(&[b"bye"]),
        left: Left::Leave,
        ..SILENT
    },
    SILENT,
];
