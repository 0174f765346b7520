//! Files that are refused, each with the byte that is told; and bytes of any kind.

use crate::told::cells_of;
use cell_files::{CellFormat, comment_lines, file_bounds, file_rule, read_cells};
use rand_core::{Rng, SeedableRng};
use rand_pcg::Pcg32;
use std::alloc::AllocError;

/// Files, and why they are refused.
static REFUSED: [(&str, &str); 14] = [
    ("#MCell\n#L A!", "Tag 11"),
    ("#MCell\n#L AkA", "Tag 11"),
    ("#MCell\n#L Aa A", "2 1 at 0 0 gen 0, 0 0 1, 1 0 25"),
    ("#MCell\n#L a", "Tag 11"),
    ("#MCell\n#L a\n#D A", "Tag 16"),
    ("#MCell\n#L A\n#L .0A", "Count 16"),
    ("#MCell\n#L 4294967297.", "Count 10"),
    ("#MCell\n#L 99999999999999999999999A", "Count 10"),
    ("#MCell\n#L 4294967296$", "Count 10"),
    ("#MCell\n#L 2jP", "State 10"),
    ("#MCell\n#L 1048577A", "TooMany"),
    ("!\n.3O", "Tag 3"),
    ("!\n.O O", "Tag 4"),
    ("[M2]\n", "Header"),
];

#[test]
fn files_are_refused(rt: HostRuntime) -> Result<(), AllocError> {
    for (file, want) in REFUSED {
        assert_eq!(rt; cells_of(rt.alloc(), file.as_bytes())?.as_str(), want);
    }
    Ok(())
}

/// What the bytes of hostile files are drawn from.
const BYTES: &[u8] = b"#MCell\n#L .$AXaj09\r!O* \tBOARDWRUP:x=y,";

/// The beginnings of hostile files.
static FRONTS: [&str; 4] = ["#MCell\n#L ", "!\n", "x = 1, y = 1, rule = B3/S23:", ""];

#[test]
fn any_bytes_are_read_or_refused(rt: HostRuntime) -> Result<(), AllocError> {
    let alloc = rt.alloc();
    let mut chance = Pcg32::seed_from_u64(93);
    let mut refused = 0u32;
    for round in 0..2000usize {
        let mut file = FRONTS[round % 4].as_bytes().to_vec(alloc)?;
        for _ in 0..chance.next_u32() % 64 {
            file.push(BYTES[chance.next_u32() as usize % BYTES.len()])?;
        }
        match read_cells(alloc, &file) {
            Ok(pattern) => assert!(rt; pattern.cells().len() <= 1 << 20),
            Err(fault) => {
                refused = refused.saturating_add(1);
                assert!(rt; fault.place().is_none_or(|place| place <= file.len() as u64));
            }
        }
        let _rule = file_rule(&file);
        let _bounds = file_bounds(alloc, &file)?;
        let _comments = comment_lines(alloc, CellFormat::of(&file), &file)?;
    }
    assert!(rt; 100 < refused && refused < 2000);
    Ok(())
}
