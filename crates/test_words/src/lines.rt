//! Lines, and what their words spell.

use command_words::{Argument, Dialect, Keyword, cells_in, is_film_name, read_line};
use std::alloc::AllocError;

/// A line, and whether a script and a client have it.
struct Row {
    line: &'static [u8],
    in_script: bool,
    in_client: bool,
}

static ROWS: [Row; 14] = [
    Row {
        line: b"show 1 0 -1",
        in_script: true,
        in_client: false,
    },
    Row {
        line: b"show 0 -1",
        in_script: false,
        in_client: true,
    },
    Row {
        line: b"export 4 2",
        in_script: true,
        in_client: false,
    },
    Row {
        line: b"export 4 a.rle",
        in_script: false,
        in_client: true,
    },
    Row {
        line: b"export 4..9/2 a%.rle",
        in_script: false,
        in_client: true,
    },
    Row {
        line: b"export 1 4..9",
        in_script: false,
        in_client: true,
    },
    Row {
        line: b"export! 4 a.rle",
        in_script: false,
        in_client: true,
    },
    Row {
        line: b" \tpattern  Glider7 ",
        in_script: true,
        in_client: true,
    },
    Row {
        line: b"rule 23/3/2",
        in_script: true,
        in_client: false,
    },
    Row {
        line: b"save \"my board\" ",
        in_script: false,
        in_client: true,
    },
    Row {
        line: b"save \"my board",
        in_script: false,
        in_client: false,
    },
    Row {
        line: b"?",
        in_script: false,
        in_client: true,
    },
    Row {
        line: b"bye now",
        in_script: false,
        in_client: false,
    },
    Row {
        line: b"",
        in_script: false,
        in_client: false,
    },
];

#[test]
fn lines_of_both_dialects(rt: HostRuntime) {
    for row in &ROWS {
        assert_eq!(rt;
            read_line(Dialect::Script, row.line).is_some(),
            row.in_script
        );
        assert_eq!(rt;
            read_line(Dialect::Client, row.line).is_some(),
            row.in_client
        );
    }
}

#[test]
fn what_a_line_spells(rt: HostRuntime) {
    match read_line(Dialect::Script, b"clear 2 -3 4 5 6") {
        Some(spelled) => {
            assert_eq!(rt; spelled.keyword, Keyword::Clear);
            assert_eq!(rt; spelled.replica, 2);
            assert_eq!(rt; spelled.x, -3);
            assert_eq!(rt; spelled.height, 6);
        }
        None => assert!(rt; false),
    }
}

/// The third word of a line.
fn third_word(dialect: Dialect, line: &[u8]) -> Option<&[u8]> {
    let (_, rest) = dialect.split_word(line)?;
    let (_, rest) = dialect.split_word(rest)?;
    let (word, _) = dialect.split_word(rest)?;
    Some(word)
}

#[test]
fn words_in_quotes(rt: HostRuntime) {
    let line = b" export 5 \"x  y.rle\" ".as_slice();
    let quoted = third_word(Dialect::Client, line);
    assert!(rt; quoted == Some(b"\"x  y.rle\"".as_slice()));
    let parted = third_word(Dialect::Script, line);
    assert!(rt; parted == Some(b"\"x".as_slice()));
}

#[test]
fn files_of_lines(rt: HostRuntime) {
    let file_of = |line| read_line(Dialect::Client, line).and_then(|spelled| spelled.file);
    assert!(rt; file_of(b"save \"my board\"".as_slice()) == Some(b"my board".as_slice()));
    assert!(rt; file_of(b"open -".as_slice()) == Some(b"-".as_slice()));
    assert!(rt; file_of(b"save -".as_slice()).is_none());
}

#[test]
fn names_of_films(rt: HostRuntime) {
    assert!(rt; is_film_name(b"a%.rle"));
    assert!(rt; !is_film_name(b"a.rle"));
    assert!(rt; !is_film_name(b"%%"));
}

#[test]
fn cells_of_a_line(rt: HostRuntime) -> Result<(), AllocError> {
    match read_line(Dialect::Client, b"cells 0 -1 2 3 4 5") {
        Some(spelled) => {
            let cells = cells_in(rt.alloc(), spelled.behind)?;
            assert!(rt; cells.is_some_and(|cells| cells.len() == 2));
        }
        None => assert!(rt; false),
    }
    Ok(())
}

#[test]
fn what_arguments_take(rt: HostRuntime) {
    assert!(rt; Argument::Replicas.fits(b"64") && !Argument::Replicas.fits(b"65"));
    assert!(rt; Argument::File.fits(b"a/b.rle") && !Argument::Name.fits(b"a/b"));
    assert!(rt; Argument::File.fits(b"44") && !Argument::NewFile.fits(b"44"));
    assert!(rt; Argument::NewFile.fits(b"4.rle") && Argument::NewFile.fits(b"-4"));
    assert!(rt; Argument::NewFile.fits(b"\"44\"") && !Argument::Width.fits(b"\"44\""));
    assert_eq!(rt; Argument::Width.range(), "0 to 4294967295");
    assert_eq!(rt; Argument::Edits.name(), "the number of awaited edits");
}
