//! Texts that are printed as they are.

ghost use Rattle.std.specs.Prelude.{◌≡◌};
ghost use Rattle.client_session.specs.Moment.{IsPrinted};
ghost use Rattle.client_tasks.specs.Carrying.{IsGivenPrinted, help_text};
ghost use Rattle.client_tasks.specs.declared.done.Done.TheVariants.{Told};

use crate::done::Done;
use client_session::{Client, CommandFault};
use devices::{Sink, Source};
use std::time::Clock;

/// Prints the commands.
pub(crate) fn helped<C: Clock, S: Source + Drop, K: Sink + Drop>(
    client: &mut Client<'_, C, S, K>,
) -> Result<Done, CommandFault>
    ensures { IsPrinted Told help_text client.old client.new result }
{
    client.print(help_text().as_bytes())?;
    Ok(Done::Told)
}

/// The commands of a client, in sixteen lines.
fn help_text() -> &'static str
    ensures { result.now ≡ help_text }
{
    "\
cells x y s .., clear x y w h  draw cells, or an area of dead ones
pattern NAME, lines, end       keeps the pattern of these lines of RLE
turn NAME NEW left|right|half|mirror|flip  keeps NAME's pattern, turned, as NEW
copy NAME x y, or NAME x y     draw its whole box there, or its live cells
show x y, poll                 print a cell, or what others drew
count G, count G1..G2[/STEP]   print how many cells live G generations later
period MOST [G]                prints after how many generations they stand again
export G [FILE], save FILE     write the cells G generations later; the board
export G1..G2[/STEP] FILE      writes a FILE each; one % in it is the generation
export! G FILE, save! FILE     also over a file that is there; a FILE - prints
cut x y w h G [FILE]           writes what a window shows G generations later
open FILE                      draws what a file holds; a FILE may be \"a b\"
undo, redo                     take the last drawing back, and the other way
wait N [MS], sleep MS          wait for N edits of others; wait MS milliseconds
bye, quit, exit                leave the board
help, ?                        print this; `genedit join --help` says more
"
}

/// Prints the text that a call gave, if it gave one.
pub(crate) fn printed<C: Clock, S: Source + Drop, K: Sink + Drop>(
    client: &mut Client<'_, C, S, K>,
    text: Result<Option<Vec<u8>>, CommandFault>,
) -> Result<Done, CommandFault>
    ensures { IsGivenPrinted text client.old client.new result }
{
    match text {
        Ok(Some(text)) => {
            client.print(&text)?;
            Ok(Done::Told)
        }
        Ok(None) => Ok(Done::Told),
        Err(fault) => Err(fault),
    }
}
