//! The commands on documents, as `clap` reads them, with their help.

ghost use Rattle.std.specs.Prelude.{◌≡◌, IfOk, false, codes};
ghost use Rattle.clap.specs.Words.{rule_of, shape_of};
ghost use Rattle.clap.specs.declared.builder.command.Command.TheViews.{out-Command as fields_of};
ghost use Rattle.genedit_words.specs.Words.{diff_shape, draw_shape, edits_option, export_shape, feed_shape, flag, follow_shape, from_option, generation_place, log_shape, merge_shape, new_document_shape, number_shape, others_argument, place_argument, renumber_option, replica_option};

use crate::commands::{flag, optional, place_argument, required, titled};
use clap::{Arg, ArgAction, Command, value_parser};
use std::alloc::{AllocError, Global};

const NEW_HELP: &str = "\
A document is a set of edits under one rule, in a file: the file of a kept board is one, and so is what merging
makes. FILE is made, with no edit in it; a file that is there is not replaced. It prints `new FILE RULE`.

Examples:
  genedit new all.glwl --rule B3/S23
  genedit merge all.glwl monday.board tuesday.board";

const DRAW_HELP: &str = "\
Draws in the document of FILE, which `genedit new` makes, by commands from standard input, one a line. Each
edit is in FILE, on the disk, before its line `drawn COUNTER N` is printed: a crash leaves FILE as it was
before a line, or after it. N is the number of whoever draws, 65 to 65535: two people who draw apart have two
(`genedit number` gives them); 1 to 64 are seats of boards that are served.

  cells x y s ..         draws cells, each a coordinate and a state
  clear x y w h          draws an area of dead cells, w wide and h high
  pattern NAME           the lines up to a line `end` are an RLE text; keeps its pattern by name
  turn NAME NEW left|right|half|mirror|flip  keeps NAME's pattern, turned, as NEW: by a quarter, by a half,
                         with left and right exchanged, or with top and bottom; in Golly's menu Rotate
                         Anticlockwise, Rotate Clockwise, that twice, Flip Left-Right, Flip Top-Bottom
  copy NAME x y          draws the pattern's whole box there, dead cells too
  or NAME x y            draws the pattern's live and dying cells there
  undo                   takes the last drawing back: `undone COUNTER N`, or `nothing to undo`
  redo                   takes an undo back: `redone COUNTER N`
  show x y               prints a cell: `cell STATE COUNTER N`
  count [G]              prints how many cells there are G generations later, and their box
                         count G1..G2 and count G1..G2/STEP print that of each generation from G1 to G2, by
                         STEP: `generation G: cells N box x y w h`
  period MOST [G]        prints after how many generations, MOST at most, the cells of generation G stand as
                         they do there, and by what they moved: `period P moves X Y`, or `none to MOST`
  export G [FILE]        prints the cells G generations later, or writes them to a file, as an RLE text
                         or, of any number of cells, as a macrocell, where the name of FILE ends with .mc
                         export G1..G2 FILE and export G1..G2/STEP FILE write a file for each generation from G1
                         to G2, by STEP: one % in FILE is replaced by its number
  export! G FILE         as export, and replaces a file that is there
  cut x y w h G [FILE]   as export, of the cells in a window, w wide and h high
  cut! x y w h G FILE    as cut, and replaces a file that is there
  open FILE              draws the live and dying cells of a state, a document, RLE, .mcl, .cells or .mc
  sleep MS               does nothing for so long
  help, ?                prints the commands in short
  bye, quit, exit        ends, as does the end of the input

The last 100 drawings of a run can be undone, of 2^22 cells in all; one that changed more says `too much to
undo`. What others drew since stays.

What is refused prints `refused NUMBER NAME`, and what would be right is told on standard error, as it is of a
line at fault, with its place; both go on. Refused at the beginning, with nothing written: 43 where another
process has FILE, as a server that keeps its board in it, and 42 where it holds no document. What stands behind
the last whole record of FILE is saved to FILE.lost first, which is said.

The status is 0; 1 where a command was refused or a file failed; 2 where a line was at fault, but at a terminal 0
for both; 3 where standard input cannot be read; 4 where FILE or standard output failed; 5 without memory.

Examples:
  echo 'cells 0 0 1 1 0 1 2 0 1' | genedit draw my.glwl --replica 65
  genedit draw my.glwl --replica $(genedit number numbers.txt ann)";

const MERGE_HELP: &str = "\
FILE gets the edits of each OTHER, which may be `-`, standard input, or the file of a server that runs. Of an
OTHER that is damaged the whole records are taken, wherever they begin; how many bytes were passed over is
said. It prints `merged FILE EDITS new NEW`. Merging needs no order, and once is enough: who has all edits
has the same bytes as everybody who has them.

Refused, with nothing written: 43 where another process has FILE, as a server that keeps its board in it; of
each OTHER in turn 42 where it holds no record, 16 where it has another rule, and 41 where an edit of it has
counter and replica of another one.

With --renumber N each edit of an OTHER whose counter and replica stand for another edit in FILE is taken as
replica N's, its counter kept: so two who drew by one number come together. N is a number of which neither has
an edit.

FILE is written beside and then gets its name, so it is whole or as it was.

Examples:
  genedit merge my.glwl bobs.glwl
  genedit merge my.glwl my.glwl.sync-conflict-*
  genedit merge my.glwl bobs.glwl --renumber 67
  ssh host cat board.glwl | genedit merge my.glwl -";

const DIFF_HELP: &str = "\
A line for each edit that only one of the two has, in the order of their stamps: `- edit ..` of FILE, `+ edit
..` of OTHER, which may be `-`, standard input. Refused is what `genedit merge` refuses.

The status is 0 where both have the same edits, and 1 where they have not.

Examples:
  genedit diff my.glwl bobs.glwl
  git show HEAD~1:my.glwl | genedit diff my.glwl -";

const LOG_HELP: &str = "\
A line for each edit, as FILE has them: `edit COUNTER REPLICA cells x y s ..`, a cleared area as `area x y w h`
before `cells`; and at the end `EDITS edits RULE clock COUNTER lost BYTES`: how many they are, the rule, the
greatest counter, and how many bytes stand behind the last whole record. FILE may be the file of a server
that runs, or `-`, standard input. With --edits N the first N alone are told, as they stand.

Examples:
  genedit log my.glwl
  genedit log board.glwl --edits 100";

const EXPORT_HELP: &str = "\
Prints the cells G generations later, 0 to 2^29, as an RLE text: each cell as the edit with the greatest stamp
drew it. FILE may be the file of a server that runs, or `-`, standard input. With --edits N the first N edits
alone are looked at, as they stand: so a kept board is seen as it was before somebody cleared it.

Examples:
  genedit export my.glwl 0 > my.rle
  genedit export board.glwl 30 --edits 100 | genedit view";

const FOLLOW_HELP: &str = "\
Prints each record of FILE, and then each that comes, as a line of base64; with --raw as bytes. The first
record names the rule; each further one is an edit. Where FILE is replaced, as `genedit merge` does, what is
new in it follows. With --from N the first N records are passed over. It ends by Ctrl-C, or where nobody
reads any more.

Examples:
  genedit follow my.glwl | mosquitto_pub -t board -l
  genedit follow my.glwl --raw | ssh host 'cat > copy.glwl'";

const FEED_HELP: &str = "\
Takes lines from standard input, as `genedit follow` prints them, in any order, repeated, some lost, and puts
each edit that is new into FILE, on the disk, as it comes. At the end of the input it prints `new K`. A line
that is no record, is of another rule (16), or has a second edit of one counter and replica (41) is skipped,
and told on standard error with its number.

Refused at the beginning, with nothing written: 43 where another process has FILE, and 42 where it holds no
document. What stands behind the last whole record of FILE is saved to FILE.lost first, which is said.

The status is 0; 2 where a line was skipped; 3 where standard input cannot be read; 4 where FILE or standard
output failed; 5 without memory.

Examples:
  mosquitto_sub -t board | genedit feed my.glwl
  redis-cli --raw XRANGE board - + | awk 'NR % 3 == 0' | genedit feed my.glwl";

const NUMBER_HELP: &str = "\
Prints the number of NAME, which whoever draws apart needs, for `genedit draw`. NUMBERS is a text file of lines
`65 ann`; where it has no line of NAME one is added, with one more than the greatest number, 65 at first. So let
NUMBERS lie beside the documents and travel with them: two who took one number meet a conflict in it before
their drawings do.

Example:
  genedit number numbers.txt ann";

pub(crate) fn new_command<'a>(alloc: Global) -> Result<Command<'a>, AllocError>
    ensures shape { IfOk result (λ command. shape_of command ≡ new_document_shape) }
    ensures local { IfOk result (λ command. (fields_of command).has_globals ≡ false) }
{
    let command = titled(alloc, "new", "Makes a document without an edit", NEW_HELP)
        .arg(place_argument(alloc, "file", "FILE", "The file to make"))?
        .arg(required(
            alloc,
            "rule",
            "TEXT",
            "The rule of the document, as /2/3 or B3/S23",
        ))?;
    Ok(command)
}

/// The file of a document.
fn document_argument<'a>(alloc: Global) -> Arg<'a>
    ensures rule { rule_of result ≡ place_argument (codes "file") }
    ensures local { result.global ≡ false }
{
    place_argument(alloc, "file", "FILE", "The file of the document")
}

pub(crate) fn draw_command<'a>(alloc: Global) -> Result<Command<'a>, AllocError>
    ensures shape { IfOk result (λ command. shape_of command ≡ draw_shape) }
    ensures local { IfOk result (λ command. (fields_of command).has_globals ≡ false) }
{
    let command = titled(alloc, "draw", "Draws in a document", DRAW_HELP)
        .arg(document_argument(alloc))?
        .arg(replica_argument(alloc))?;
    Ok(command)
}

fn replica_argument<'a>(alloc: Global) -> Arg<'a>
    ensures rule { rule_of result ≡ replica_option }
    ensures local { result.global ≡ false }
{
    let replica = required(
        alloc,
        "replica",
        "N",
        "The number of whoever draws, 65 to 65535",
    );
    replica.value_parser(value_parser!(u16).range(65..=65_535))
}

pub(crate) fn merge_command<'a>(alloc: Global) -> Result<Command<'a>, AllocError>
    ensures shape { IfOk result (λ command. shape_of command ≡ merge_shape) }
    ensures local { IfOk result (λ command. (fields_of command).has_globals ≡ false) }
{
    let command = titled(alloc, "merge", "Merges documents into one", MERGE_HELP)
        .arg(document_argument(alloc))?
        .arg(others_argument(alloc))?
        .arg(renumber_argument(alloc))?;
    Ok(command)
}

fn others_argument<'a>(alloc: Global) -> Arg<'a>
    ensures rule { rule_of result ≡ others_argument }
    ensures local { result.global ≡ false }
{
    place_argument(
        alloc,
        "other",
        "OTHER",
        "The files of the others; - for standard input",
    )
    .action(ArgAction::Append)
}

fn renumber_argument<'a>(alloc: Global) -> Arg<'a>
    ensures rule { rule_of result ≡ renumber_option }
    ensures local { result.global ≡ false }
{
    let renumber = optional(
        alloc,
        "renumber",
        "N",
        "By which number edits are taken that clash, 65 to 65535",
    );
    renumber.value_parser(value_parser!(u16).range(65..=65_535))
}

pub(crate) fn diff_command<'a>(alloc: Global) -> Result<Command<'a>, AllocError>
    ensures shape { IfOk result (λ command. shape_of command ≡ diff_shape) }
    ensures local { IfOk result (λ command. (fields_of command).has_globals ≡ false) }
{
    let command = titled(alloc, "diff", "Tells how two documents differ", DIFF_HELP)
        .arg(document_argument(alloc))?
        .arg(place_argument(
            alloc,
            "other",
            "OTHER",
            "The file of the other; - for standard input",
        ))?;
    Ok(command)
}

pub(crate) fn log_command<'a>(alloc: Global) -> Result<Command<'a>, AllocError>
    ensures shape { IfOk result (λ command. shape_of command ≡ log_shape) }
    ensures local { IfOk result (λ command. (fields_of command).has_globals ≡ false) }
{
    let command = titled(alloc, "log", "Lists the edits of a document", LOG_HELP)
        .arg(document_argument(alloc))?
        .arg(edits_argument(alloc))?;
    Ok(command)
}

pub(crate) fn edits_argument<'a>(alloc: Global) -> Arg<'a>
    ensures rule { rule_of result ≡ edits_option }
    ensures local { result.global ≡ false }
{
    let edits = optional(
        alloc,
        "edits",
        "N",
        "The first N edits alone, as they stand in the file",
    );
    edits.value_parser(value_parser!(u32))
}

pub(crate) fn export_command<'a>(alloc: Global) -> Result<Command<'a>, AllocError>
    ensures shape { IfOk result (λ command. shape_of command ≡ export_shape) }
    ensures local { IfOk result (λ command. (fields_of command).has_globals ≡ false) }
{
    let command = titled(
        alloc,
        "export",
        "Prints a generation of a document as an RLE text",
        EXPORT_HELP,
    )
    .arg(document_argument(alloc))?
    .arg(generation_place(alloc))?
    .arg(edits_argument(alloc))?;
    Ok(command)
}

fn generation_place<'a>(alloc: Global) -> Arg<'a>
    ensures rule { rule_of result ≡ generation_place }
    ensures local { result.global ≡ false }
{
    let generation = place_argument(alloc, "generation", "G", "How many generations later");
    generation.value_parser(value_parser!(u32))
}

pub(crate) fn follow_command<'a>(alloc: Global) -> Result<Command<'a>, AllocError>
    ensures shape { IfOk result (λ command. shape_of command ≡ follow_shape) }
    ensures local { IfOk result (λ command. (fields_of command).has_globals ≡ false) }
{
    let command = titled(
        alloc,
        "follow",
        "Prints the records of a document as they come",
        FOLLOW_HELP,
    )
    .arg(document_argument(alloc))?
    .arg(from_argument(alloc))?
    .arg(flag(alloc, "raw", "Prints bytes, and not base64"))?;
    Ok(command)
}

fn from_argument<'a>(alloc: Global) -> Arg<'a>
    ensures rule { rule_of result ≡ from_option }
    ensures local { result.global ≡ false }
{
    let from = optional(alloc, "from", "N", "How many records are passed over");
    from.value_parser(value_parser!(u32))
}

pub(crate) fn feed_command<'a>(alloc: Global) -> Result<Command<'a>, AllocError>
    ensures shape { IfOk result (λ command. shape_of command ≡ feed_shape) }
    ensures local { IfOk result (λ command. (fields_of command).has_globals ≡ false) }
{
    let command = titled(
        alloc,
        "feed",
        "Puts records from standard input into a document",
        FEED_HELP,
    )
    .arg(document_argument(alloc))?;
    Ok(command)
}

pub(crate) fn number_command<'a>(alloc: Global) -> Result<Command<'a>, AllocError>
    ensures shape { IfOk result (λ command. shape_of command ≡ number_shape) }
    ensures local { IfOk result (λ command. (fields_of command).has_globals ≡ false) }
{
    let command = titled(
        alloc,
        "number",
        "Prints one's number for drawing",
        NUMBER_HELP,
    )
    .arg(place_argument(
        alloc,
        "numbers",
        "NUMBERS",
        "The file that lists the numbers",
    ))?
    .arg(place_argument(alloc, "name", "NAME", "Whose number is printed"))?;
    Ok(command)
}
