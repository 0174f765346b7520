//! Files of the system.

use crate::bodies::{are_first, begin, commit, front, listed, opened, part, records, ten};
use kept_devices::Reopen;
use kept_file::{OpenFault, open};
use kept_log::{FindFault, reopen};
use std::alloc::{AllocError, Global};
use std::io::{ErrorKind, Write};
use std::os::unix::fs::symlink;
use std::test::Fail;
use std::{env, fs, io};

/// How many names are tried for a folder.
const NAMES: u32 = 10_000;

/// A new folder for one test.
fn folder(rt: HostRuntime) -> Result<String, Fail> {
    let alloc = rt.alloc();
    let temporary = env::temp_dir(&rt)?.into_string();
    for number in 0..NAMES {
        let name = format!(in alloc; "{}/kept_tests_{number}", temporary.as_str())?;
        match fs::create_dir(&rt, name.as_str()) {
            Ok(()) => return Ok(name),
            Err(error) if error.kind() == ErrorKind::AlreadyExists => {}
            Err(error) => return Err(Fail::from(error)),
        }
    }
    Err(Fail::new("no folder"))
}

/// The name of a file in a folder.
fn within(alloc: Global, folder: &str, name: &str) -> Result<String, AllocError> {
    format!(in alloc; "{folder}/{name}")
}

fn add(rt: HostRuntime, path: &str, bytes: &[u8]) -> io::Result<()> {
    let mut file = fs::OpenOptions::new().append(true).open(&rt, path)?;
    file.write_all(bytes)
}

#[test]
fn made_and_found_again(rt: HostRuntime) -> Result<(), Fail> {
    let alloc = rt.alloc();
    let folder = folder(rt)?;
    let path = within(alloc, folder.as_str(), "board")?;
    let bodies = ten(alloc)?;
    let reopened = opened(alloc, open(&rt, alloc, path.as_str())?)?;
    assert!(rt; reopened.head.is_none() && reopened.lost == 0);
    let mut log = reopened.log;
    begin(alloc, &mut log)?;
    commit(alloc, &mut log, part(&bodies, 1, 4))?;
    commit(alloc, &mut log, part(&bodies, 4, 10))?;
    drop(log);
    let text = records(alloc, &bodies)?;
    assert!(rt; fs::read(&rt, path.as_str())?.as_slice() == text.as_slice());
    add(rt, path.as_str(), front(&text, 30))?;
    let reopened = opened(alloc, open(&rt, alloc, path.as_str())?)?;
    assert_eq!(rt; reopened.lost, 30);
    let got = listed(alloc, &reopened.head, &reopened.bodies)?;
    assert!(rt; got.len() == 10 && are_first(&got, &bodies));
    assert_eq!(rt; fs::metadata(&rt, path.as_str())?.len(), text.len() as u64);
    drop(reopened);
    fs::remove_dir_all(&rt, folder.as_str())?;
    Ok(())
}

#[test]
fn a_second_opener_is_refused(rt: HostRuntime) -> Result<(), Fail> {
    let alloc = rt.alloc();
    let folder = folder(rt)?;
    let path = within(alloc, folder.as_str(), "board")?;
    let first = open(&rt, alloc, path.as_str())?;
    assert_eq!(rt;
        open(&rt, alloc, path.as_str()).err(),
        Some(OpenFault::Busy)
    );
    let mut log = opened(alloc, first)?.log;
    begin(alloc, &mut log)?;
    // also once another file has its place
    assert_eq!(rt;
        open(&rt, alloc, path.as_str()).err(),
        Some(OpenFault::Busy)
    );
    drop(log);
    assert!(rt; open(&rt, alloc, path.as_str()).is_ok());
    fs::remove_dir_all(&rt, folder.as_str())?;
    Ok(())
}

#[test]
fn what_is_no_regular_file(rt: HostRuntime) -> Result<(), Fail> {
    let alloc = rt.alloc();
    let folder = folder(rt)?;
    assert_eq!(rt;
        open(&rt, alloc, "/dev/full").err(),
        Some(OpenFault::NoFile)
    );
    assert_eq!(rt;
        open(&rt, alloc, folder.as_str()).err(),
        Some(OpenFault::NoFile)
    );
    let missing = within(alloc, folder.as_str(), "none/board")?;
    assert_eq!(rt;
        open(&rt, alloc, missing.as_str()).err(),
        Some(OpenFault::Refused(ErrorKind::NotFound))
    );
    let path = within(alloc, folder.as_str(), "pattern.rle")?;
    fs::write(&rt, path.as_str(), "x = 3, y = 3")?;
    match reopen(alloc, open(&rt, alloc, path.as_str())?) {
        Ok(_) => return Err(Fail::new("no record is there")),
        Err((fault, _keep)) => assert_eq!(rt; fault, FindFault::NoRecord),
    }
    assert!(rt; fs::read(&rt, path.as_str())?.as_slice() == b"x = 3, y = 3".as_slice());
    fs::remove_dir_all(&rt, folder.as_str())?;
    Ok(())
}

#[test]
fn one_in_doubt_is_replaced(rt: HostRuntime) -> Result<(), Fail> {
    let alloc = rt.alloc();
    let folder = folder(rt)?;
    let path = within(alloc, folder.as_str(), "board")?;
    let mark = within(alloc, folder.as_str(), "board.unsynced")?;
    let new = within(alloc, folder.as_str(), "board.new")?;
    let bodies = ten(alloc)?;
    let text = records(alloc, &bodies)?;
    fs::write(&rt, path.as_str(), text.as_slice())?;
    fs::write(&rt, mark.as_str(), "")?;
    // one that was left by a process that was killed
    fs::write(&rt, new.as_str(), "some")?;
    let keep = open(&rt, alloc, path.as_str())?;
    assert!(rt; keep.is_doubtful());
    let reopened = opened(alloc, keep)?;
    assert!(rt; !reopened.log.keep.is_doubtful() && reopened.bodies.len() == 9);
    assert!(rt; !fs::exists(&rt, mark.as_str())? && !fs::exists(&rt, new.as_str())?);
    assert!(rt; fs::read(&rt, path.as_str())?.as_slice() == text.as_slice());
    drop(reopened);
    fs::remove_dir_all(&rt, folder.as_str())?;
    Ok(())
}

#[test]
fn a_link_stays_one(rt: HostRuntime) -> Result<(), Fail> {
    let alloc = rt.alloc();
    let folder = folder(rt)?;
    let path = within(alloc, folder.as_str(), "board")?;
    let link = within(alloc, folder.as_str(), "link")?;
    fs::write(&rt, path.as_str(), "")?;
    symlink(&rt, path.as_str(), link.as_str())?;
    let mut log = opened(alloc, open(&rt, alloc, link.as_str())?)?.log;
    begin(alloc, &mut log)?;
    drop(log);
    assert!(rt; fs::symlink_metadata(&rt, link.as_str())?.is_symlink());
    assert_eq!(rt; fs::metadata(&rt, path.as_str())?.len(), 36);
    fs::remove_dir_all(&rt, folder.as_str())?;
    Ok(())
}
