//! Scripts by chance.

use crate::chance::Chance;
use std::alloc::{AllocError, Global};

/// Lines with which a script begins.
static HEADS: [&str; 5] = [
    "rule 23/3/2\nreplicas 2\n",
    "# two\n\nrule 5433/2/004\r\nreplicas 002\r\n",
    "\trule /2/3 \n#\nreplicas 64\n",
    "rule 012345678/12345678/256\nreplicas 0\n",
    " rule  //2\n replicas\t1\n",
];

/// Commands, blocks, and lines that are skipped.
static LINES: [&str; 24] = [
    "cells 1 0 0 1",
    "cells 002 -3 -0 255 5 6 0",
    "cells 4294967295 -2147483648 2147483647 1",
    "clear 1 -4 -4 9 4294967295",
    "pattern g\nx = 3, y = 3\nbo$2bo$3o!\nend",
    "pattern ABCdefghij012345\n#C\n\nbz!\n end\nend",
    "pattern h\nend",
    "turn g g2 left",
    "turn nothing h mirror",
    "copy 1 g -1 7",
    "or 2 nothing 8 -2",
    "state 1",
    "delta 2 0 1",
    "deliver 1 2",
    "show 1 0 0",
    "same 1 2",
    "dump 1",
    "export 1 536870913",
    "# a remark",
    "",
    " \t ",
    "#",
    "\tstate\t 00004294967295 ",
    "export 0 0",
];

/// Lines with a fault.
static FAULTY: [&str; 14] = [
    "cells 1 0 0",
    "cells 1 0 0 256",
    "clear 1 0 0 -1 2",
    "pattern my-gun",
    "pattern abcdefghijklmnopq",
    "turn g h",
    "turn g h up",
    "end",
    "state 4294967296",
    "rule 23/3/2",
    "replicas 2",
    "show 1 2147483648 0",
    "state 1 # all",
    "show 1 - 0",
];

/// A script, in some cases with a faulty line.
pub fn script(alloc: Global, chance: &mut Chance) -> Result<Vec<u8>, AllocError> {
    let mut script = Vec::new(alloc);
    script.extend_from_slice(chance.one_of(&HEADS, "").as_bytes())?;
    for _ in 0..chance.below(10) {
        let line = if chance.is_one_in(30) {
            chance.one_of(&FAULTY, "")
        } else {
            chance.one_of(&LINES, "")
        };
        script.extend_from_slice(line.as_bytes())?;
        script.extend_from_slice(chance.one_of(&["\n", "\n", "\n", "\r\n"], "\n").as_bytes())?;
    }
    Ok(script)
}
