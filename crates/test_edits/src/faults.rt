//! What is said of faults.

use genedit_io::RunFault;
use std::alloc::{AllocError, Global};

/// A fault's text, and its status.
fn told(alloc: Global, fault: RunFault) -> Result<String, AllocError> {
    format!(in alloc; "{fault}: {}", fault.exit_status())
}

#[test]
fn refusals_have_names(rt: HostRuntime) -> Result<(), AllocError> {
    let alloc = rt.alloc();
    let mut names = String::new(alloc);
    for number in [
        0, 1, 2, 3, 4, 5, 6, 7, 8, 9, 10, 11, 12, 13, 16, 24, 26, 27, 38, 99,
    ] {
        names = format!(in alloc;
            "{names}{}\n",
            told(alloc, RunFault::Refused(number, None))?
        )?;
    }
    assert_eq!(rt;
        names.as_str(),
        "refused 0 ?: 2\nrefused 1 Slashes: 2\nrefused 2 Digit: 2\nrefused 3 States: 2\n\
        refused 4 Header: 2\nrefused 5 Tag: 2\nrefused 6 Count: 2\nrefused 7 State: 2\n\
        refused 8 TooMany: 2\nrefused 9 Nothing: 2\nrefused 10 OutOfPlane: 2\n\
        refused 11 StateRange: 2\nrefused 12 ?: 2\nrefused 13 StoreFull: 2\n\
        refused 16 OtherRule: 2\nrefused 24 ClockFull: 2\nrefused 26 NoReplica: 2\n\
        refused 27 NoMessage: 2\nrefused 38 NoPattern: 2\nrefused 99 ?: 2\n"
    );
    Ok(())
}

#[test]
fn faults_have_texts_and_statuses(rt: HostRuntime) -> Result<(), AllocError> {
    let alloc = rt.alloc();
    let faults = [
        RunFault::Script(7),
        RunFault::Refused(2, Some(3)),
        RunFault::Read,
        RunFault::Turns,
        RunFault::Write,
        RunFault::Memory,
        RunFault::StoreFull,
    ];
    let mut texts = String::new(alloc);
    for fault in faults {
        texts = format!(in alloc; "{texts}{}\n", told(alloc, fault)?)?;
    }
    assert_eq!(rt;
        texts.as_str(),
        "script fault at line 7: 2\nrefused 2 Digit 3: 2\nread fault: 3\nread fault: 3\n\
        write fault: 4\nout of memory: 5\nstore full: 5\n"
    );
    Ok(())
}

#[test]
fn a_want_becomes_a_fault(rt: HostRuntime) {
    assert_eq!(rt; RunFault::from(AllocError), RunFault::Memory);
}
