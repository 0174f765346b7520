//! What is printed of no drawing.

ghost use Rattle.std.specs.Prelude.{◌≡◌};
ghost use Rattle.generations_rule.specs.Place.{at_place};
ghost use Rattle.stamped_tree.specs.Plane.{map_of};
ghost use Rattle.replica_core.specs.declared.event.Reply.TheVariants as reply;
ghost use Rattle.genedit_lib.specs.Output.{reply_line};
ghost use Rattle.document_pen.specs.Carrying.{help_text};
ghost use Rattle.document_pen.specs.Pen.{IsPrinted};

use crate::fault::PenFault;
use crate::pen::Pen;
use kept_devices::Keep;
use replica_core::Reply;

impl<K: Keep> Pen<K> {
    /// Prints `cell S C R`: state, counter and replica of the write at a coordinate, as `genedit run` does.
    pub fn show(&mut self, x: i32, y: i32) -> Result<(), PenFault>
        ensures { IsPrinted tt (reply_line (reply.Shown (map_of self.old.replica.plane (at_place x y)))) self.old self.new result }
    {
        let shown = Reply::Shown(self.replica.get(x, y));
        self.print_reply(&shown)
    }

    /// Prints the commands.
    pub fn help(&mut self) -> Result<(), PenFault>
        ensures { IsPrinted tt help_text self.old self.new result }
    {
        self.print(help_text().as_bytes())
    }
}

/// The commands that draw in a document, in sixteen lines.
fn help_text() -> &'static str
    ensures { result.now ≡ help_text }
{
    "\
cells x y s .., clear x y w h  draw cells, or an area of dead ones
pattern NAME, lines, end       keeps the pattern of these lines of RLE
turn NAME NEW left|right|half|mirror|flip  keeps NAME's pattern, turned, as NEW
copy NAME x y, or NAME x y     draw its whole box there, or its live cells
show x y                       prints a cell
count G, count G1..G2[/STEP]   print how many cells live G generations later
period MOST [G]                prints after how many generations they stand again
export G [FILE]                writes the cells G generations later
export G1..G2[/STEP] FILE      writes a FILE each; one % in it is the generation
export! G FILE                 also over a file that is there; a FILE - prints
cut x y w h G [FILE]           writes what a window shows G generations later
open FILE                      draws what a file holds; a FILE may be \"a b\"
undo, redo                     take the last drawing back, and the other way
sleep MS                       waits MS milliseconds
bye, quit, exit                end
help, ?                        print this; `genedit draw --help` says more
"
}
