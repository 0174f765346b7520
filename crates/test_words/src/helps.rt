//! The helps have a line for each keyword, which begins with its form.

use command_words::{Dialect, Keyword};
use genedit_words::{JOIN_HELP, SCRIPT_HELP};
use std::alloc::{AllocError, Global};

/// The forms with which a line of a help begins, if it tells of some: `, ` stands between them.
fn told_form(line: &str) -> Option<&str> {
    let told = line.strip_prefix("  ")?;
    if told.starts_with(' ') {
        return None;
    }
    let (form, _) = told.split_once("  ")?;
    Some(form)
}

/// The forms of which a help tells in front of its examples.
fn told_forms(alloc: Global, help: &str) -> Result<Vec<&str>, AllocError> {
    let mut forms = Vec::new(alloc);
    for line in help.lines() {
        if line == "Examples:" {
            return Ok(forms);
        }
        if let Some(told) = told_form(line) {
            for form in told.split(", ") {
                forms.push(form)?;
            }
        }
    }
    Ok(forms)
}

/// A keyword's form as helps have it, with `s` for a state.
fn help_form(alloc: Global, dialect: Dialect, keyword: Keyword) -> Result<String, AllocError> {
    let form = keyword.form(alloc, dialect)?;
    match form.as_str().split_once(" state") {
        Some((front, behind)) => format!(in alloc; "{front} s{behind}"),
        None => Ok(form),
    }
}

/// How many keywords of a dialect the forms tell, `end` aside.
fn told_keywords(alloc: Global, dialect: Dialect, forms: &[&str]) -> Result<usize, AllocError> {
    let mut told = 0usize;
    for keyword in dialect.keywords() {
        let form = help_form(alloc, dialect, *keyword)?;
        if *keyword != Keyword::End && forms.iter().any(|told| *told == form.as_str()) {
            told = told.saturating_add(1);
        }
    }
    Ok(told)
}

#[test]
fn help_of_scripts(rt: HostRuntime) -> Result<(), AllocError> {
    let forms = told_forms(rt.alloc(), SCRIPT_HELP)?;
    let told = told_keywords(rt.alloc(), Dialect::Script, &forms)?;
    assert_eq!(rt; forms.len(), 17);
    assert_eq!(rt; told, 17);
    assert_eq!(rt; Dialect::Script.keywords().len(), 18);
    Ok(())
}

#[test]
fn help_of_clients(rt: HostRuntime) -> Result<(), AllocError> {
    let forms = told_forms(rt.alloc(), JOIN_HELP)?;
    let told = told_keywords(rt.alloc(), Dialect::Client, &forms)?;
    assert_eq!(rt; forms.len(), 26);
    assert_eq!(rt; told, 26);
    assert_eq!(rt; Dialect::Client.keywords().len(), 27);
    Ok(())
}
