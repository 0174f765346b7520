//! How many cells an RLE text tells, also where they are more than a pattern may have.

/// In which part of an RLE text a byte stands.
#[derive(Clone, Copy, Debug, PartialEq, Eq)]
enum Part {
    /// At the beginning of a line in front of the header, or behind its blanks.
    Front,
    Comment,
    Header,
    Runs,
    /// Behind the end mark.
    End,
}

impl Part {
    /// The part of the next byte.
    fn behind(self, byte: u8) -> Part {
        match (self, byte) {
            (Part::Front, b'#') => Part::Comment,
            (Part::Front, b'\n' | b'\r' | b' ' | b'\t') | (Part::Comment, b'\n') => Part::Front,
            (Part::Front, _) => Part::Header,
            (Part::Header, b'\n') => Part::Runs,
            (Part::Runs, b'!') => Part::End,
            _ => self,
        }
    }
}

/// The cells that are not dead so far, and the count of the run that begins, 0 where it tells none.
#[derive(Clone, Copy, Debug)]
struct Counted {
    cells: u64,
    run: u64,
}

impl Counted {
    /// The same behind one more byte of the runs.
    fn behind(self, byte: u8) -> Counted {
        match byte {
            b'0'..=b'9' => Counted {
                run: (self.run.saturating_mul(10)).saturating_add(u64::from(byte & 15)),
                ..self
            },
            b'o' | b'A'..=b'X' => Counted {
                cells: self.cells.saturating_add(self.run.max(1)),
                run: 0,
            },
            b'b' | b'.' | b'$' => Counted { run: 0, ..self },
            _ => self,
        }
    }
}

/// How many cells that are not dead the runs of an RLE text tell, at most 2^64 - 1.
pub(crate) fn cells_told(text: &[u8]) -> u64 {
    let mut part = Part::Front;
    let mut counted = Counted { cells: 0, run: 0 };
    for byte in text {
        if part == Part::Runs {
            counted = counted.behind(*byte);
        }
        part = part.behind(*byte);
    }
    counted.cells
}
