//! Macrocells that are refused, however hostile, and bytes of any kind.

use crate::told::converted;
use rand_core::{Rng, SeedableRng};
use rand_pcg::Pcg32;
use std::alloc::{AllocError, Global};

/// A macrocell of one cell in each corner of its root's quarters, so many levels up: each line names the one before
/// four times.
fn full(alloc: Global, rule: &str, level: u32) -> Result<String, AllocError> {
    let mut text = format!(in alloc; "[M2]\n#R {rule}\n1 1 1 1 1\n")?;
    for k in 2..level.saturating_add(1) {
        let number = k - 1;
        let line = format!(in alloc; "{k} {number} {number} {number} {number}\n")?;
        text.push_str(line.as_str())?;
    }
    Ok(text)
}

/// What a full square is converted to, by its first bytes.
fn full_converted(
    alloc: Global,
    level: u32,
    generation: Option<u32>,
) -> Result<String, AllocError> {
    converted(
        alloc,
        full(alloc, "/2/3", level)?.as_bytes(),
        generation,
        "",
    )
}

/// 2^60 cells in 30 lines, and 2^126 in 63: counted, and never listed.
#[test]
fn many_cells_are_refused_at_once(rt: HostRuntime) -> Result<(), AllocError> {
    let alloc = rt.alloc();
    let want = "refused 23 TooManyCells";
    assert_eq!(rt; full_converted(alloc, 30, None)?.as_str(), want);
    assert_eq!(rt; full_converted(alloc, 63, Some(1))?.as_str(), want);
    assert_eq!(rt; full_converted(alloc, 13, None)?.as_str(), want);
    Ok(())
}

/// Texts, and why they are refused.
static REFUSED: [(&str, &str); 9] = [
    ("[M2]\n#R /2/3\n1 0 0 a 0", "refused 5 Tag 19"),
    ("[M2]\n#R /2/3\n1 0 0 0", "refused 5 Tag 20"),
    ("[M2]\n#R /2/3\n.*o$", "refused 5 Tag 15"),
    ("[M2]\n#R /2/3\n........*$", "refused 5 Tag 21"),
    ("[M2]\n#R /2/3\n1 0 0 256 0", "refused 7 State 19"),
    ("[M2]\n#R /2/3\n64 0 0 0 0", "refused 44 Square 13"),
    ("[M2]\n1 0 0 0 1\n3 1 0 0 0\n", "refused 44 Square 17"),
    ("[M2]\n*$\n1 0 0 0 1\n", "refused 44 Square 8"),
    ("[M2]\n4 4294967296 0 0 0", "refused 44 Square 7"),
];

#[test]
fn macrocells_are_refused(rt: HostRuntime) -> Result<(), AllocError> {
    for (file, want) in REFUSED {
        assert_eq!(rt;
            converted(rt.alloc(), file.as_bytes(), None, "")?.as_str(),
            want
        );
    }
    Ok(())
}

/// One cell 2^32 columns to the left: it has no coordinates of 32 bits.
#[test]
fn a_cell_outside_the_plane_is_refused(rt: HostRuntime) -> Result<(), AllocError> {
    let alloc = rt.alloc();
    let mut text = "[M2]\n#R /2/3\n1 1 0 0 0\n".to_string(alloc)?;
    for k in 2..34u32 {
        let line = format!(in alloc; "{k} {} 0 0 0\n", k - 1)?;
        text.push_str(line.as_str())?;
    }
    assert_eq!(rt;
        converted(alloc, text.as_bytes(), None, "")?.as_str(),
        "refused 10 OutOfPlane"
    );
    Ok(())
}

/// What the bytes of hostile macrocells are drawn from.
const BYTES: &[u8] = b"1234 00\n#RG/3.*$$\r[M]";

#[test]
fn any_bytes_behind_the_first_line_are_converted_or_refused(
    rt: HostRuntime,
) -> Result<(), AllocError> {
    let alloc = rt.alloc();
    let mut chance = Pcg32::seed_from_u64(44);
    let mut refused = 0u32;
    for _ in 0..2000u32 {
        let mut file = b"[M2]\n#R /2/3\n".to_vec(alloc)?;
        for _ in 0..chance.next_u32() % 48 {
            file.push(BYTES[chance.next_u32() as usize % BYTES.len()])?;
        }
        let told = converted(alloc, &file, None, "")?;
        if told.starts_with("refused") {
            refused = refused.saturating_add(1);
        }
    }
    assert!(rt; 100 < refused && refused < 2000);
    Ok(())
}
