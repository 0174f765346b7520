//! What is shown of a text, as a text.

use devices::{ReadSource, WriteSink};
use genedit_view::{BufferedSink, Form, ViewFault, ViewOptions, view, window_of};
use generations_rule::Rule;
use std::alloc::{AllocError, Global};

/// What is asked where nothing else is said.
pub const ALL: ViewOptions = ViewOptions {
    form: Form::Plain,
    window: None,
    generation: None,
    rule: None,
};

/// The same in this form.
pub fn in_form(form: Form) -> ViewOptions {
    ViewOptions { form, ..ALL }
}

/// The same of this window; all where it is none.
pub fn at(form: Form, at: &str, size: &str) -> ViewOptions {
    ViewOptions {
        window: window_of(at.as_bytes(), size.as_bytes()).ok(),
        ..in_form(form)
    }
}

/// The same so many generations later.
pub fn later(generation: u32) -> ViewOptions {
    ViewOptions {
        generation: Some(generation),
        ..ALL
    }
}

/// The same under this rule; that of the text where it is none.
pub fn under(rule: &str) -> ViewOptions {
    ViewOptions {
        rule: Rule::parse(rule.as_bytes()).ok(),
        ..ALL
    }
}

/// The picture of a text, or its fault, with how many bytes were pushed all the same.
pub fn shown(alloc: Global, options: &ViewOptions, text: &[u8]) -> Result<String, AllocError> {
    let mut out = Vec::new(alloc);
    let end = end_of(alloc, options, text, &mut out)?;
    match end {
        Ok(_) => String::from_utf8_lossy(alloc, &out),
        Err(fault) => format!(in alloc; "{fault}, {} bytes", out.len()),
    }
}

fn end_of(
    alloc: Global,
    options: &ViewOptions,
    text: &[u8],
    out: &mut Vec<u8>,
) -> Result<Result<Option<Vec<u8>>, ViewFault>, AllocError> {
    let mut sink = BufferedSink::new(alloc, WriteSink::new(out))?;
    Ok(view(alloc, options, &mut ReadSource::new(text), &mut sink))
}

/// The bounds that a view of a text tells; none where nothing is drawn.
pub fn bounds_of(alloc: Global, text: &[u8]) -> Result<String, AllocError> {
    let mut out = Vec::new(alloc);
    match end_of(alloc, &ALL, text, &mut out)? {
        Ok(Some(bounds)) => String::from_utf8_lossy(alloc, &bounds),
        _ => Ok(String::new(alloc)),
    }
}
