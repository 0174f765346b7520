//! Words for a server: what they ask for, and what is said where they are refused.

use genedit_words::{Ending, ServeTask, Task, WebTask, asked};
use std::alloc::{AllocError, AllocGlobal, Global};

/// Words for a server of two sessions, and what they ask of it beside a rule or a file.
struct Row {
    words: &'static str,
    port: Option<u16>,
    web: Option<(Option<&'static str>, u16)>,
    url: Option<&'static str>,
    until_idle: Option<u16>,
}

static SERVERS: [Row; 9] = [
    Row {
        words: "--rule /2/3 --port 7020",
        port: Some(7020),
        web: None,
        url: None,
        until_idle: None,
    },
    Row {
        words: "--rule /2/3 --web 7080",
        port: None,
        web: Some((None, 7080)),
        url: None,
        until_idle: None,
    },
    Row {
        words: "--keep my.board --web=0 --port=0",
        port: Some(0),
        web: Some((None, 0)),
        url: None,
        until_idle: None,
    },
    Row {
        words: "--rule B3/S23 --web 192.168.1.7:7080 --url https://draw.example.org",
        port: None,
        web: Some((Some("192.168.1.7"), 7080)),
        url: Some("https://draw.example.org"),
        until_idle: None,
    },
    Row {
        words: "--url= --rule /2/3 --web localhost:0",
        port: None,
        web: Some((Some("localhost"), 0)),
        url: Some(""),
        until_idle: None,
    },
    Row {
        words: "--rule /2/3 --web ::1:65535 --until-idle 1",
        port: None,
        web: Some((Some("::1"), 65535)),
        url: None,
        until_idle: Some(1),
    },
    Row {
        words: "--rule /2/3 --web [::1]:007080",
        port: None,
        web: Some((Some("[::1]"), 7080)),
        url: None,
        until_idle: None,
    },
    Row {
        words: "--rule /2/3 --web schön:7080",
        port: None,
        web: Some((Some("schön"), 7080)),
        url: None,
        until_idle: None,
    },
    Row {
        words: "--until-idle=1440 --rule /2/3 --port 65535",
        port: Some(65535),
        web: None,
        url: None,
        until_idle: Some(1440),
    },
];

/// Words that spell no web port.
static NO_WEB_PORTS: [&str; 9] = [
    "",
    "65536",
    "localhost",
    "localhost:",
    ":7080",
    "localhost:65536",
    "localhost:+7080",
    "localhost:7080:",
    "-1",
];

/// Words that lack something, and what is said of it.
static LACKING: [(&str, &str); 6] = [
    (
        "--rule /2/3",
        "the following required arguments were not provided: --port <P>; as --port 7020",
    ),
    (
        "--port 0",
        "the following required arguments were not provided: --rule <TEXT>; as --rule 23/3/2",
    ),
    (
        "--web 0",
        "the following required arguments were not provided: --rule <TEXT>; as --rule 23/3/2",
    ),
    (
        "--first 1",
        "the following required arguments were not provided: --rule <TEXT> --port <P>; as --rule 23/3/2 --port 7020",
    ),
    (
        "--rule /2/3 --port 0 --url https://draw.example.org",
        "the following required arguments were not provided: --web <[ADDRESS:]Q>; as --web 7080",
    ),
    (
        "--url https://draw.example.org",
        "the following required arguments were not provided: --rule <TEXT> --port <P> --web <[ADDRESS:]Q>; as --rule 23/3/2 --port 7020 --web 7080",
    ),
];

/// Words that are no command line.
static WRONG: [&str; 8] = [
    "--rule /2/3 --port 65536",
    "--rule /2/3 --port 0 --until-idle 0",
    "--rule /2/3 --port 0 --until-idle 1441",
    "--rule /2/3 --port 0 --until-idle x",
    "--rule /2/3 --port 0 --until-idle",
    "--rule /2/3 --web 1 --web 2",
    "--rule /2/3 --web",
    "--rule /2/3 --web 1 --url",
];

/// The words of a command line, which blanks part.
fn parted(alloc: Global, line: &str) -> Result<Vec<String>, AllocError> {
    let mut words = Vec::new(alloc);
    for word in line.split(' ') {
        words.push(String::from_str(alloc, word)?)?;
    }
    Ok(words)
}

/// A command line for a server of two sessions.
fn line_of(alloc: Global, words: &str) -> Result<Vec<String>, AllocError> {
    let line = format!(in alloc; "genedit serve --sessions 2 {words}")?;
    parted(alloc, line.as_str())
}

/// Whether words ask for the server of a row.
fn asks_for(alloc: Global, words: &[String], row: &Row) -> bool {
    match &asked(alloc, words) {
        Ok(Task::Serve(server)) => is_server(server, row),
        _ => false,
    }
}

fn is_server(server: &ServeTask<'_>, row: &Row) -> bool {
    server.sessions == 2
        && server.port == row.port
        && server.until_idle == row.until_idle
        && is_web(server.web, row)
}

/// What `clap` says of words that are no command line.
fn told_by_clap(alloc: Global, ending: &Ending<'_>) -> Result<Option<String>, AllocError> {
    match ending {
        Ending::Words(error) => Ok(Some(error.to_string(alloc)?)),
        _ => Ok(None),
    }
}

fn is_web(web: Option<WebTask<'_>>, row: &Row) -> bool {
    match (web, row.web) {
        (Some(web), Some((address, port))) => {
            web.address == address && web.port == port && web.url == row.url
        }
        (None, None) => true,
        _ => false,
    }
}

#[test]
fn servers(rt: HostRuntime) -> Result<(), AllocError> {
    for row in &SERVERS {
        let words = line_of(rt.alloc(), row.words)?;
        assert!(rt; asks_for(rt.alloc(), &words, row));
    }
    Ok(())
}

#[test]
fn no_web_ports(rt: HostRuntime) -> Result<(), AllocError> {
    for text in NO_WEB_PORTS {
        assert!(rt; is_no_web_port(&rt, rt.alloc(), text)?);
    }
    Ok(())
}

/// Whether a word is refused as no web port, with status 2.
fn is_no_web_port(
    rt: &(impl AllocGlobal + Print + Eprint),
    alloc: Global,
    text: &str,
) -> Result<bool, AllocError> {
    let line = format!(in alloc; "--rule /2/3 --web={text}")?;
    let words = line_of(alloc, line.as_str())?;
    match asked(alloc, &words) {
        Err(Ending::Web(web)) => Ok(web.text == text && Ending::Web(web).tell(rt) == 2),
        _ => Ok(false),
    }
}

#[test]
fn no_web_port_told(rt: HostRuntime) -> Result<(), AllocError> {
    let words = line_of(rt.alloc(), "--rule /2/3 --web x")?;
    match asked(rt.alloc(), &words) {
        Err(Ending::Web(web)) => {
            let told = web.to_string(rt.alloc())?;
            assert!(rt;
                told.as_str()
                    == "invalid value 'x' for '--web <[ADDRESS:]Q>': a port is 0 to 65535, as --web 0 or --web 192.168.1.7:7080"
            );
        }
        _ => assert!(rt; false),
    }
    Ok(())
}

#[test]
fn rule_looked_at_first(rt: HostRuntime) -> Result<(), AllocError> {
    let words = line_of(rt.alloc(), "--rule life? --web x")?;
    assert!(rt; matches!(asked(rt.alloc(), &words), Err(Ending::Rule(_))));
    Ok(())
}

#[test]
fn what_servers_lack(rt: HostRuntime) -> Result<(), AllocError> {
    for (lacking, text) in LACKING {
        let words = line_of(rt.alloc(), lacking)?;
        match asked(rt.alloc(), &words) {
            Err(Ending::Lacking(needs)) => {
                let told = needs.to_string(rt.alloc())?;
                assert!(rt; told.as_str() == text);
                assert_eq!(rt; Ending::Lacking(needs).tell(&rt), 2);
            }
            _ => assert!(rt; false),
        }
    }
    Ok(())
}

#[test]
fn wrong_words(rt: HostRuntime) -> Result<(), AllocError> {
    for wrong in WRONG {
        let words = line_of(rt.alloc(), wrong)?;
        match asked(rt.alloc(), &words) {
            Err(ending) => {
                assert!(rt; told_by_clap(rt.alloc(), &ending)?.is_some());
                assert_eq!(rt; ending.tell(&rt), 2);
            }
            Ok(_) => assert!(rt; false),
        }
    }
    Ok(())
}

/// What `clap` says is missing where a server has no number of sessions either.
#[test]
fn all_that_is_missing(rt: HostRuntime) -> Result<(), AllocError> {
    let words = parted(
        rt.alloc(),
        "genedit serve --rule /2/3 --port 0 --url https://draw.example.org",
    )?;
    match asked(rt.alloc(), &words) {
        Err(ending) => match told_by_clap(rt.alloc(), &ending)? {
            Some(told) => {
                assert!(rt; told.as_str().find("--web <[ADDRESS:]Q>").is_some());
                assert!(rt; told.as_str().find("--sessions <N>").is_some());
            }
            None => assert!(rt; false),
        },
        Ok(_) => assert!(rt; false),
    }
    Ok(())
}
