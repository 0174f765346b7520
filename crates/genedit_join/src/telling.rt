//! What a client says on standard error.

use crate::ends::lost_text;
use crate::fault::JoinFault;
use crate::rescue::{Kept, kept_text};
use std::alloc::{AllocError, Global};

/// What is said where a push was refused by 30.
const IN_DOUBT: &str =
    "genedit: the board may have the last edit or not; it is closed to further ones";

/// Says that the board may have the edit that was drawn last, or not.
pub(crate) fn tell_doubt<R: Eprint>(rt: &R) {
    let _ = rt.eprintln(IN_DOUBT);
}

/// What is said where a file draws more than one edit, one of which was answered late.
const LEFT_OUT: &str =
    "genedit: where the file takes more than one edit, those behind the late one were not drawn";

/// Says that edits of a file may have been left out.
pub(crate) fn tell_left_out<R: Eprint>(rt: &R) {
    let _ = rt.eprintln(LEFT_OUT);
}

/// Says why a client ends.
pub(crate) fn tell_end<R: Eprint>(rt: &R, fault: JoinFault) {
    let _ = eprintln!(rt; "genedit: {fault}");
}

/// Says that a client lost its server and goes on.
pub(crate) fn tell_lost<R: Eprint>(
    rt: &R,
    alloc: Global,
    fault: JoinFault,
) -> Result<(), AllocError> {
    let text = lost_text(alloc, fault)?;
    tell_text(rt, alloc, &text)
}

/// What is said where a server went away that is tried again.
const AWAY: &str = "genedit: the server went away: it is tried again each second";

/// The same at a terminal.
const AWAY_HERE: &str =
    "genedit: the server went away: it is tried again each second; until then save FILE, export G [FILE], show, pattern, bye";

/// Says that the server went away and is tried again.
pub(crate) fn tell_away<R: Eprint>(rt: &R, is_terminal: bool) {
    let _ = rt.eprintln(if is_terminal { AWAY_HERE } else { AWAY });
}

/// What is said where a command needs the server, which is away.
const SAY_AGAIN: &str = "genedit: the server is away; say it again once `joined` is told";

/// Says what to do with a command that needs the server.
pub(crate) fn tell_say_again<R: Eprint>(rt: &R) {
    let _ = rt.eprintln(SAY_AGAIN);
}

/// What is said where a board has not all that a client held.
const LACKING: &str = "genedit: the board that answers has not all that was held here";

/// Says that the board has not all that the client held.
pub(crate) fn tell_lacking<R: Eprint>(rt: &R) {
    let _ = rt.eprintln(LACKING);
}

/// What is said where a client ends with an edit in doubt.
const UNDECIDED: &str = "genedit: whether the board has the last edit is not known";

/// Says that the board may have the last edit or not.
pub(crate) fn tell_undecided<R: Eprint>(rt: &R) {
    let _ = rt.eprintln(UNDECIDED);
}

/// Says that the command of a line of this number was not carried out.
pub(crate) fn tell_held<R: Eprint>(rt: &R, number: u64) {
    let _ = eprintln!(rt; "genedit: line {number} was not carried out");
}

/// Says where a board is kept, or why it is nowhere.
pub(crate) fn tell_kept<R: Eprint>(rt: &R, alloc: Global, kept: &Kept) -> Result<(), AllocError> {
    let text = kept_text(alloc, kept)?;
    tell_text(rt, alloc, &text)
}

/// Says that a board is kept nowhere, since memory for that is wanting.
pub(crate) fn tell_unkept<R: Eprint>(rt: &R, fault: JoinFault) {
    let _ = eprintln!(rt; "genedit: the board is not kept: {fault}");
}

fn tell_text<R: Eprint>(rt: &R, alloc: Global, text: &[u8]) -> Result<(), AllocError> {
    let text = String::from_utf8_lossy(alloc, text)?;
    let _ = eprintln!(rt; "genedit: {}", text.as_str());
    Ok(())
}
