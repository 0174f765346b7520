//! How the lines of both dialects are written.

use command_words::Dialect;
use std::alloc::{AllocError, Global};

static SCRIPT: [&str; 18] = [
    "rule S/B/C",
    "replicas N",
    "cells R x y state ..",
    "clear R x y w h",
    "pattern NAME",
    "end",
    "turn NAME NEW left|right|half|mirror|flip",
    "copy R NAME x y",
    "or R NAME x y",
    "state R",
    "delta R FROM COUNT",
    "deliver M R",
    "show R x y",
    "same A B",
    "dump M",
    "export R G",
    "cut R x y w h G",
    "count R [G]",
];

static CLIENT: [&str; 27] = [
    "cells x y state ..",
    "clear x y w h",
    "pattern NAME",
    "end",
    "turn NAME NEW left|right|half|mirror|flip",
    "copy NAME x y",
    "or NAME x y",
    "undo",
    "redo",
    "show x y",
    "count [G]",
    "period MOST [G]",
    "export G [FILE]",
    "export! G FILE",
    "cut x y w h G [FILE]",
    "cut! x y w h G FILE",
    "poll",
    "wait N [MS]",
    "sleep MS",
    "save FILE",
    "save! FILE",
    "open FILE",
    "help",
    "?",
    "bye",
    "quit",
    "exit",
];

/// How many of a dialect's forms are just these.
fn alike(alloc: Global, dialect: Dialect, forms: &[&str]) -> Result<usize, AllocError> {
    let mut alike = 0usize;
    for (keyword, form) in dialect.keywords().iter().zip(forms) {
        if keyword.form(alloc, dialect)?.as_str() == *form {
            alike = alike.saturating_add(1);
        }
    }
    Ok(alike)
}

#[test]
fn forms_of_scripts(rt: HostRuntime) -> Result<(), AllocError> {
    assert_eq!(rt; Dialect::Script.keywords().len(), 18);
    assert_eq!(rt; alike(rt.alloc(), Dialect::Script, &SCRIPT)?, 18);
    Ok(())
}

#[test]
fn forms_of_clients(rt: HostRuntime) -> Result<(), AllocError> {
    assert_eq!(rt; Dialect::Client.keywords().len(), 27);
    assert_eq!(rt; alike(rt.alloc(), Dialect::Client, &CLIENT)?, 27);
    Ok(())
}
