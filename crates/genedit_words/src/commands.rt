//! The commands of `genedit`, as `clap` reads them, with their help.

ghost use Rattle.std.specs.Prelude.{◌≡◌, IfOk, false, codes};
ghost use Rattle.clap.specs.Simple.{new_app};
ghost use Rattle.clap.specs.Words.{app_of, rule_of, shape_of};
ghost use Rattle.clap.specs.declared.builder.command.Command.TheViews.{out-Command as fields_of};
ghost use Rattle.genedit_words.specs.Words.{app_by, board_app, board_port, board_rule, board_web, check_shape, convert_shape, every_option, file_argument, first_option, flag, gen_option, idle_option, join_shape, option, optional, period_option, place_argument, port_option, rle_shape, run_shape, serve_shape, sessions_option, text_app, top_app, view_shape};

use crate::document_commands::{
    diff_command, draw_command, edits_argument, export_command, feed_command, follow_command,
    log_command, merge_command, new_command, number_command,
};
use crate::needs::Needs;
use clap::{Arg, ArgAction, Command, value_parser};
use std::alloc::{AllocError, Global};

/// What `genedit run --help` tells of scripts: a line for each of their keywords, and what it does.
pub const SCRIPT_HELP: &str = "\
The script has a line for each step. A line whose first word begins with # is a comment; within a
pattern's block it is part of the pattern's text.
Replicas and messages are numbered from 1. A pattern is drawn where the line says: the position, the
generation and the rule that its text tells are passed over. y grows downwards.

  rule S/B/C             first: the rule, survival/birth/states, as 23/3/2 for Life (Golly's B3/S23)
  replicas N             second: how many replicas there are, 0 to 64
  cells R x y s ..       replica R draws cells, each a coordinate and a state
  state R                replica R sends its whole map as the next message
  delta R FROM COUNT     replica R sends edits of its journal, the first is 0, as the next message
  deliver M R            message M reaches replica R
  show R x y             prints a cell of replica R: state, counter and replica of its stamp
  pattern NAME           the lines up to a line `end` are an RLE text; keeps its pattern by name
  turn NAME NEW left|right|half|mirror|flip  keeps NAME's pattern, turned, as NEW: by a quarter, by a half,
                         with left and right exchanged, or with top and bottom; in Golly's menu Rotate
                         Anticlockwise, Rotate Clockwise, that twice, Flip Left-Right, Flip Top-Bottom
  copy R NAME x y        replica R draws the pattern's whole box there, dead cells too
  or R NAME x y          replica R draws the pattern's live and dying cells there
  clear R x y w h        replica R draws an area of dead cells, w wide and h high
  same A B               prints whether replicas A and B hold the same at every cell: same or differ
  dump M                 prints the bytes of message M in hexadecimal
  export R G             prints replica R's cells G generations later, 0 to 2^29, as an RLE text
  cut R x y w h G        the same of the cells in a window, w wide and h high
  count R [G]            prints how many cells replica R has G generations later, 0 if none is given

Each prints a line: what draws `drawn COUNTER REPLICA`, state and delta `sent M`, deliver `taken`, show
`cell STATE COUNTER REPLICA`, a pattern its box and its number of cells, an export and a cut their text,
and count `cells N box x y w h`, the least box that has them, or `cells 0`.
What is refused prints `refused NUMBER NAME`, and the script goes on. `genedit check` tells beforehand
what is wrong with a script, each mistake with its place and its cure.

The status is 0, refused commands included; 2 where a line is at fault, and then nothing is run.
Statuses of any command: 3 where a read failed, 4 where a write failed, 5 without memory.

Examples:
  genedit run my.script
  genedit run < my.script";

const CHECK_HELP: &str = "\
For each line at fault it prints `FILE:LINE:COLUMN: ` and the reason, the line, and a mark under the
word; for a script on standard input FILE is `script`. Where no line is at fault it prints, in the same
form, which commands would be refused when the script is run. The last line counts them. A pattern whose
header tells another rule than the script's gets a warning, which is not counted.

The status is 0 where there is nothing to mend, and 1 where there is.

Examples:
  genedit check my.script
  genedit check my.script && genedit run my.script";

const FORM_HELP: &str = "\
The text has an optional line `#CXRLE Pos=x,y Gen=n`, a header `x = w, y = h`, and runs of cells up to
an end mark `!`; other lines that begin with # are comments. Each cell is moved by the position. What
is printed has maximal runs, no count of 1, and lines of at most 70 bytes. The rule is survival/birth/states,
as 23/3/2 for Life; it is taken as Golly spells it too, as B3/S23, B2/S345/C4 or Star Wars.

The status is 0, or 2 where the rule or the text is refused; then `refused NUMBER NAME` is told.

Examples:
  genedit rle --rule B3/S23 glider.rle
  genedit rle --rule 345/2/4 < ship.rle > canonical.rle";

const VIEW_HELP: &str = "\
The file is an RLE text, a file of MCell (.mcl), plaintext (.cells), a macrocell (.mc) of up to 2^24 cells, a
state as it is saved, which begins with GLWS, or a document as `genedit draw` and a server keep it, of which
--edits N shows the first N edits alone; its first bytes tell which. Without --rule its own rule is taken; a
pattern's file may tell it as Golly does, as B3/S23, and so may --rule. Plaintext tells none. Bounds of a grid
are passed over, which is said. Coordinates are those of the file's position and its columns and rows; y grows
downwards.

On a terminal it draws two cells a character, in Golly's colours; else, and with --plain, a character
for each cell: `.` is dead, and of two states `O` is live; of more, `A` to `Z`, `a` to `z` and `0` to
`9` are the states from 1 on, and `#` any above. Without a window it draws the first 128 columns and
64 rows of the pattern's box, and then says `cut: W by H` where the box is larger. An SVG is never cut;
it goes before --plain.

With --period MOST it prints `period P moves X Y` in place of a picture, where P is the least from 1 to MOST
after which the cells of generation G (0 without --gen) stand as they did, moved by X and Y; else
`none to MOST`. Cells lie in the plane of edits then.

With --chart G1..G2/STEP it draws, in place of a picture, an SVG of how many cells of each state there are at
the generations G1, G1 + STEP, .. up to G2, 65,536 at most; without /STEP at each. They can be read
back from it. It goes before --period.

Examples:
  genedit view gun.rle
  genedit view --gen 30 --svg < gun.rle > gun.svg
  genedit view gun.rle --at -3,4 --size 40x20
  genedit view my.glwl --edits 100
  genedit view lwss.rle --period 100
  genedit view gun.rle --chart 0..1000/10 > gun.svg";

const CONVERT_HELP: &str = "\
IN is an RLE text, a file of MCell (.mcl), plaintext (.cells), a macrocell (.mc) of up to 2^24 cells, or a
state as it is saved; what it is, its first bytes tell, and `-` is standard input. OUT ends with .rle or .mc.
Its text has the cells where IN has them and at IN's generation; with --gen, G generations later. Without
--rule its own rule is taken. A rule of two states is written as B3/S23, so that Golly takes it for Life. In
an .rle file IN's comments stand in front of the header: lines #N, #O and #C of RLE, #D of MCell, ! of
plaintext. An .mc file is a macrocell, as Golly writes it: it has any number of cells, IN's lie in the plane
of edits, and no comment.

OUT is written beside and then gets its name, so it is whole or as it was. A file that is there is
replaced only with --replace. Bounds of a grid are passed over, which is said: cells live on the whole
plane.

Examples:
  genedit convert Lava.mcl lava.rle
  genedit convert glider.cells glider.rle --rule B3/S23
  genedit convert gun.rle later.rle --gen 30 --replace
  genedit convert breeder.rle late.mc --gen 100000";

const SERVE_HELP: &str = "\
Serves one board to programs on this machine, each of which speaks the protocol of docs/FORMATS.md over
a connection to 127.0.0.1. Every user of this machine may connect. The first connection that comes is seat
1, and so on; whoever finds each seat taken is answered that all are. Without --keep and --web a seat is one
connection, also one that was lost: so begin with more sessions than people, for a class with --sessions
64. The rule is survival/birth/states, or as Golly spells it, as B3/S23 or Star Wars.

With --web Q a class draws in its browsers, too: the line `open http://127.0.0.1:Q/#TOKEN` is printed before
`listening PORT`, and whoever opens that link in a browser draws on the board with mouse, finger or keys.
--port may be left out then: only browsers come. Seats come back as with --keep. Who has the link has a seat,
so it is a secret of the class. --web ADDRESS:Q listens at another address of this machine, and --url URL is
what the link begins with where a proxy or a network names the server otherwise; through a URL that is neither
https nor this machine the token travels in the clear. With --keep FILE the token is kept in FILE.token, so
that links go on.

It prints `listening PORT`. At its end it prints a line for each seat, `session SEAT edits EDITS ..`, and
`closed EDITS`. Without --keep and --web it ends once each seat was used and all have left. With
--until-close a line `close` on standard input ends it: each client is answered what it asked, and nobody
more is seated. Ctrl-C, SIGTERM, a logout and a terminal that is closed end it at once: without these lines,
and with its board where no file keeps it, so let somebody save it first. With --until-idle MINUTES it ends
by itself when nobody has sat at any seat for so long.

With --keep FILE the board is kept in FILE, made where there is none: what was answered to a client is on
the disk. A server that is started again on FILE goes on with its board; --rule may be left out where FILE
is there. Seats come back: whoever leaves makes room, N is how many sit at once, and whoever comes gets a
seat that nobody had, else the one that was left longest ago, once there is one within a second.

Seats are numbered from 1 on, and with --first R from R on: files that are to come together by `genedit merge`
may not have edits of one number, so two servers need numbers apart, as do a server and whoever draws in a
document.

Examples:
  genedit serve --rule B3/S23 --port 7020 --sessions 64      a class draws Life
  genedit serve --keep my.board --port 7020 --sessions 64    the board that my.board keeps goes on
  genedit serve --rule /2/3 --port 0 --sessions 2            two programs; the port that is free is printed
  genedit serve --rule 23/3/2 --sessions 30 --web 7080       a class draws in its browsers

From another machine: ssh -L 7020:127.0.0.1:7020 HOST, and connect to port 7020 there.";

/// How `serve` is used: with a rule, or with a file that names one; with a port, or with a web port.
const SERVE_USAGE: &str = "\
genedit serve --rule <TEXT> --port <P> --sessions <N> [OPTIONS]
       genedit serve --rule <TEXT> --web <[ADDRESS:]Q> --sessions <N> [OPTIONS]
       genedit serve --keep <FILE> --port <P> --sessions <N> [OPTIONS]
       genedit serve --keep <FILE> --web <[ADDRESS:]Q> --sessions <N> [OPTIONS]";

/// What `genedit join --help` tells of clients: a line for each of their keywords, and what it does.
pub const JOIN_HELP: &str = "\
Joins a board that `genedit serve` publishes on this machine, and carries out commands from standard
input, one a line. It prints `joined SEAT RULE`, then what each command prints. Before a drawing it
polls, so that the drawing goes over all that others drew by then.

  cells x y s ..         draws cells, each a coordinate and a state
  clear x y w h          draws an area of dead cells, w wide and h high
  pattern NAME           the lines up to a line `end` are an RLE text; keeps its pattern by name
  turn NAME NEW left|right|half|mirror|flip  keeps NAME's pattern, turned, as NEW: by a quarter, by a half,
                         with left and right exchanged, or with top and bottom; in Golly's menu Rotate
                         Anticlockwise, Rotate Clockwise, that twice, Flip Left-Right, Flip Top-Bottom
  copy NAME x y          draws the pattern's whole box there, dead cells too
  or NAME x y            draws the pattern's live and dying cells there
  undo                   takes your last drawing back; the cells that others drew since stay
  redo                   takes an undo back
  show x y               prints a cell as it was at the last poll: `cell STATE COUNTER SEAT`
  count [G]              prints how many cells there are G generations later, and their box
                         count G1..G2 and count G1..G2/STEP print that of each generation from G1 to G2, by
                         STEP: `generation G: cells N box x y w h`
  period MOST [G]        prints after how many generations, MOST at most, the cells of generation G stand as
                         they do there, and by what they moved: `period P moves X Y`, or `none to MOST`
  export G [FILE]        prints the cells G generations later, or writes them to a file, as an RLE text
                         or, of any number of cells, as a macrocell, where the name of FILE ends with .mc
                         export G1..G2 FILE and export G1..G2/STEP FILE write a file for each generation from G1
                         to G2, by STEP: one % in FILE is replaced by its number
  cut x y w h G [FILE]   as export, of the cells in a window, w wide and h high
  save FILE              writes the board to a file as a state, with its stamps
  export! G FILE         as export, and replaces a file that is there
  cut! x y w h G FILE    as cut, and replaces a file that is there
  save! FILE             as save, and replaces a file that is there
  open FILE              draws the live and dying cells of a state, a document, RLE, .mcl, .cells or .mc
  poll                   prints what others drew, and `edits K`
  wait N [MS]            polls until others drew N edits, or until MS milliseconds, 10000 if none are
                         given, are over: `edits K` or `late K`
  sleep MS               does nothing for so long
  help, ?                prints the commands in short
  bye, quit, exit        leaves the board, as does the end of the input

A drawing prints `drawn COUNTER SEAT`, an undo `undone COUNTER SEAT`, a redo `redone COUNTER SEAT`. The last
100 drawings can be undone, of 2^22 cells in all; one that changed more says `too much to undo`, and where
there is none it is `nothing to undo`. Edits of others are told as `edit COUNTER SEAT cells x y s ..`, a
cleared area as `area x y w h` before `cells`; with --changes as `now x y s ..`, the cells that look
different now, also those by drawings of your own. `whole` says that more came than can be told; with
--changes the cells that look different follow it. With --quiet no edit is told. A file is written whole or
not at all: `wrote BYTES FILE`; its name is no number alone, but in double quotes it may be any, with blanks
too; `-` is standard output. One that is there is replaced only by export!, cut! and save!, or where this
client wrote it. What is refused prints `refused NUMBER NAME`, of a file with its name and the cause, and
what would be right is told on standard error, as it is of a line at fault, with its place, as `genedit
check` does; and both go on. Of a board that `open` draws in several edits none is drawn behind one that is
refused.

Where the server goes away a client at a terminal keeps its board: save, export, show, pattern and bye go on.
Any other writes its board, unless it was saved, to pazgrot-PORT-SEAT-K.state in its folder, K the first
number that is free, and says so; with --no-rescue it does not. A server that does not answer is awaited,
which is said after a second: ten seconds at the greeting and the farewell, else for as long as it takes;
after ten the board is written so, and Ctrl-C loses nothing.

The status is 0; 1 where a command was refused or a file failed; 2 where a line was at fault, but at a
terminal 0 for both; 2 also where the words are wrong, the lines are a script, the board has no seat left,
or `refused 21 FrameTooLong` says that the client fell more than 1,024 edits behind on a board of more than
2^24 bytes, so poll now and then, or use --follow; 3 where no server answers, or it went away; 4 where a
write to standard output failed; 5 without memory.

Examples:
  echo 'cells 1 0 1 2 1 1 0 2 1 1 2 1 2 2 1' | genedit join --quiet --port 7020      draws a glider
  genedit join --port 7020 --follow                                        type commands, and see the others";

/// The program's version, and the sum of the logic that it is proved in, which `make test` compares with the kit's.
const VERSION: &str = "1.0.0, logic dac8208d650f15bf";

/// The command line: a version, and the subcommands, one of which has to be given. What a server needs has to
/// be given.
pub fn command<'a>(alloc: Global, needs: Needs) -> Result<Command<'a>, AllocError>
    ensures { IfOk result (λ command. app_of command ≡ app_by needs) }
{
    let command = board_commands(alloc, needs)?
        .subcommand(new_command(alloc)?)?
        .subcommand(draw_command(alloc)?)?
        .subcommand(merge_command(alloc)?)?
        .subcommand(diff_command(alloc)?)?
        .subcommand(log_command(alloc)?)?
        .subcommand(export_command(alloc)?)?
        .subcommand(follow_command(alloc)?)?
        .subcommand(feed_command(alloc)?)?
        .subcommand(number_command(alloc)?)?;
    Ok(command)
}

/// The command line with the subcommands for scripts, texts and boards that are served.
fn board_commands<'a>(alloc: Global, needs: Needs) -> Result<Command<'a>, AllocError>
    ensures { IfOk result (λ command. (app_of command ≡ board_app needs) × ((fields_of command).has_globals ≡ false)) }
{
    let command = text_commands(alloc)?
        .subcommand(serve_command(alloc, needs)?)?
        .subcommand(join_command(alloc)?)?;
    Ok(command)
}

/// The command line with the subcommands for scripts and texts.
fn text_commands<'a>(alloc: Global) -> Result<Command<'a>, AllocError>
    ensures { IfOk result (λ command. (app_of command ≡ text_app) × ((fields_of command).has_globals ≡ false)) }
{
    let command = top_command(alloc)
        .subcommand(run_command(alloc)?)?
        .subcommand(check_command(alloc)?)?
        .subcommand(rle_command(alloc)?)?
        .subcommand(view_command(alloc)?)?
        .subcommand(convert_command(alloc)?)?;
    Ok(command)
}

/// The command line without its subcommands.
fn top_command<'a>(alloc: Global) -> Command<'a>
    ensures app { app_of result ≡ top_app }
    ensures local { (fields_of result).has_globals ≡ false }
{
    Command::new(alloc, "genedit")
        .version(VERSION)
        .about("Edits patterns of Generations automata on replicas that agree")
        .subcommand_required(true)
}

/// A subcommand with its line in the list of all, and its help.
pub(crate) fn titled<'a>(alloc: Global, name: &'a str, about: &'a str, help: &'a str) -> Command<'a>
    ensures app { app_of result ≡ new_app name.entry.now }
    ensures local { (fields_of result).has_globals ≡ false }
{
    Command::new(alloc, name).about(about).after_help(help)
}

fn run_command<'a>(alloc: Global) -> Result<Command<'a>, AllocError>
    ensures shape { IfOk result (λ command. shape_of command ≡ run_shape) }
    ensures local { IfOk result (λ command. (fields_of command).has_globals ≡ false) }
{
    let command = titled(
        alloc,
        "run",
        "Runs a script and prints what happened",
        SCRIPT_HELP,
    )
    .arg(file_argument(alloc))?;
    Ok(command)
}

fn check_command<'a>(alloc: Global) -> Result<Command<'a>, AllocError>
    ensures shape { IfOk result (λ command. shape_of command ≡ check_shape) }
    ensures local { IfOk result (λ command. (fields_of command).has_globals ≡ false) }
{
    let command = titled(
        alloc,
        "check",
        "Tells what is wrong with a script, each mistake with its place and its cure",
        CHECK_HELP,
    )
    .arg(file_argument(alloc))?;
    Ok(command)
}

/// A file in the place of standard input.
fn file_argument<'a>(alloc: Global) -> Arg<'a>
    ensures rule { rule_of result ≡ file_argument }
    ensures local { result.global ≡ false }
{
    Arg::new(alloc, "file")
        .value_name("FILE")
        .help("The file to read; standard input if none is given, or -")
}

fn rle_command<'a>(alloc: Global) -> Result<Command<'a>, AllocError>
    ensures shape { IfOk result (λ command. shape_of command ≡ rle_shape) }
    ensures local { IfOk result (λ command. (fields_of command).has_globals ≡ false) }
{
    let command = titled(
        alloc,
        "rle",
        "Prints an RLE text in canonical form",
        FORM_HELP,
    )
    .arg(file_argument(alloc))?
    .arg(required(
        alloc,
        "rule",
        "TEXT",
        "The rule of the cells, as 345/2/4; or as Golly has it, as B3/S23",
    ))?;
    Ok(command)
}

fn view_command<'a>(alloc: Global) -> Result<Command<'a>, AllocError>
    ensures shape { IfOk result (λ command. shape_of command ≡ view_shape) }
    ensures local { IfOk result (λ command. (fields_of command).has_globals ≡ false) }
{
    let command = titled(
        alloc,
        "view",
        "Draws a picture of a pattern's file or of a state",
        VIEW_HELP,
    )
    .arg(file_argument(alloc))?
    .arg(optional(
        alloc,
        "rule",
        "TEXT",
        "The rule of the cells, as 345/2/4 or B3/S23; else the one that the text tells",
    ))?
    .arg(corner_argument(alloc))?
    .arg(sides_argument(alloc))?
    .arg(generation_argument(alloc))?
    .arg(edits_argument(alloc))?
    .arg(period_argument(alloc))?
    .arg(chart_argument(alloc))?
    .arg(flag(alloc, "plain", "Draws a character for each cell"))?
    .arg(flag(alloc, "svg", "Draws an SVG"))?;
    Ok(command)
}

fn generation_argument<'a>(alloc: Global) -> Arg<'a>
    ensures rule { rule_of result ≡ gen_option }
    ensures local { result.global ≡ false }
{
    let generation = optional(
        alloc,
        "gen",
        "G",
        "So many generations after the text's own, 0 to 2^29",
    );
    generation.value_parser(value_parser!(u32).range(0..=536_870_912))
}

fn corner_argument<'a>(alloc: Global) -> Arg<'a>
    ensures rule { rule_of result ≡ optional (codes "at") }
    ensures local { result.global ≡ false }
{
    optional(
        alloc,
        "at",
        "X,Y",
        "The corner of the window, as -3,4; with --size",
    )
}

fn sides_argument<'a>(alloc: Global) -> Arg<'a>
    ensures rule { rule_of result ≡ optional (codes "size") }
    ensures local { result.global ≡ false }
{
    optional(
        alloc,
        "size",
        "W,H",
        "The width and height of the window, as 40,20 or 40x20",
    )
}

fn period_argument<'a>(alloc: Global) -> Arg<'a>
    ensures rule { rule_of result ≡ period_option }
    ensures local { result.global ≡ false }
{
    let period = optional(
        alloc,
        "period",
        "MOST",
        "Prints the least period, 1 to MOST, which is 65535 at most",
    );
    period.value_parser(value_parser!(u16).range(1..=65_535))
}

fn chart_argument<'a>(alloc: Global) -> Arg<'a>
    ensures rule { rule_of result ≡ optional (codes "chart") }
    ensures local { result.global ≡ false }
{
    optional(
        alloc,
        "chart",
        "RANGE",
        "Draws a chart of how many cells of each state there are at G1..G2/STEP",
    )
}

fn convert_command<'a>(alloc: Global) -> Result<Command<'a>, AllocError>
    ensures shape { IfOk result (λ command. shape_of command ≡ convert_shape) }
    ensures local { IfOk result (λ command. (fields_of command).has_globals ≡ false) }
{
    let command = titled(
        alloc,
        "convert",
        "Makes an RLE text or a macrocell of a pattern's file or of a state",
        CONVERT_HELP,
    )
    .arg(place_argument(alloc, "in", "IN", "The file to read; - for standard input"))?
    .arg(place_argument(
        alloc,
        "out",
        "OUT",
        "The file to write, which ends with .rle or .mc",
    ))?
    .arg(optional(
        alloc,
        "rule",
        "TEXT",
        "The rule of the cells, as 345/2/4 or B3/S23; else the one that the file tells",
    ))?
    .arg(generation_argument(alloc))?
    .arg(flag(alloc, "replace", "Replaces a file that is there"))?;
    Ok(command)
}

/// A file that has to be named, at its place among the words.
pub(crate) fn place_argument<'a>(
    alloc: Global,
    name: &'a str,
    value: &'a str,
    help: &'a str,
) -> Arg<'a>
    ensures rule { rule_of result ≡ place_argument name.entry.now }
    ensures local { result.global ≡ false }
{
    Arg::new(alloc, name)
        .value_name(value)
        .help(help)
        .required(true)
}

/// `serve` with its line, its help and how it is used.
fn titled_serve<'a>(alloc: Global) -> Command<'a>
    ensures app { app_of result ≡ new_app (codes "serve") }
    ensures local { (fields_of result).has_globals ≡ false }
{
    titled(
        alloc,
        "serve",
        "Serves a board on which several programs draw together",
        SERVE_HELP,
    )
    .override_usage(SERVE_USAGE)
}

fn serve_command<'a>(alloc: Global, needs: Needs) -> Result<Command<'a>, AllocError>
    ensures shape { IfOk result (λ command. shape_of command ≡ serve_shape needs) }
    ensures local { IfOk result (λ command. (fields_of command).has_globals ≡ false) }
{
    let command = titled_serve(alloc)
        .arg(board_rule(alloc, needs.rule))?
        .arg(board_port(alloc, needs.port))?
        .arg(board_web(alloc, needs.web))?
        .arg(optional(
            alloc,
            "url",
            "URL",
            "How links to the board begin, as https://draw.example.org; with --web",
        ))?
        .arg(sessions_argument(alloc))?
        .arg(first_argument(alloc))?
        .arg(optional(
            alloc,
            "keep",
            "FILE",
            "The file in which the board is kept, made where there is none",
        ))?
        .arg(flag(
            alloc,
            "until-close",
            "Ends at a line `close` on standard input",
        ))?
        .arg(idle_argument(alloc))?;
    Ok(command)
}

fn board_rule<'a>(alloc: Global, is_needed: bool) -> Arg<'a>
    ensures rule { rule_of result ≡ board_rule is_needed }
    ensures local { result.global ≡ false }
{
    let rule = optional(
        alloc,
        "rule",
        "TEXT",
        "The rule of the board, as /2/3 or B3/S23; else the one that the file of --keep names",
    );
    rule.required(is_needed)
}

fn board_port<'a>(alloc: Global, is_needed: bool) -> Arg<'a>
    ensures rule { rule_of result ≡ board_port is_needed }
    ensures local { result.global ≡ false }
{
    let port = optional(
        alloc,
        "port",
        "P",
        "The port to listen at, 0 for any that is free; with --web it may be left out",
    );
    port.value_parser(value_parser!(u16)).required(is_needed)
}

fn board_web<'a>(alloc: Global, is_needed: bool) -> Arg<'a>
    ensures rule { rule_of result ≡ board_web is_needed }
    ensures local { result.global ≡ false }
{
    let web = optional(
        alloc,
        "web",
        "[ADDRESS:]Q",
        "The port where browsers draw, 0 for any that is free; at 127.0.0.1 or ADDRESS",
    );
    web.required(is_needed)
}

fn idle_argument<'a>(alloc: Global) -> Arg<'a>
    ensures rule { rule_of result ≡ idle_option }
    ensures local { result.global ≡ false }
{
    let idle = optional(
        alloc,
        "until-idle",
        "MINUTES",
        "Ends when nobody has sat at any seat for so long, 1 to 1440",
    );
    idle.value_parser(value_parser!(u16).range(1..=1_440))
}

/// `join` with its line, its help and how it is used.
fn titled_join<'a>(alloc: Global) -> Command<'a>
    ensures app { app_of result ≡ new_app (codes "join") }
    ensures local { (fields_of result).has_globals ≡ false }
{
    titled(alloc, "join", "Draws on a board that is served", JOIN_HELP).override_usage(
        "genedit join --port <P> [OPTIONS] < COMMANDS",
    )
}

fn join_command<'a>(alloc: Global) -> Result<Command<'a>, AllocError>
    ensures shape { IfOk result (λ command. shape_of command ≡ join_shape) }
    ensures local { IfOk result (λ command. (fields_of command).has_globals ≡ false) }
{
    let command = titled_join(alloc)
        .arg(port_argument(alloc, "The port that the server printed"))?
        .arg(every_argument(alloc))?
        .arg(flag(alloc, "follow", "Polls while no command comes"))?
        .arg(flag(
            alloc,
            "changes",
            "Tells the cells that look different, and not each edit",
        ))?
        .arg(flag(alloc, "quiet", "Tells nothing of what others drew"))?
        .arg(flag(
            alloc,
            "no-rescue",
            "Writes no file where the server goes away",
        ))?;
    Ok(command)
}

fn every_argument<'a>(alloc: Global) -> Arg<'a>
    ensures rule { rule_of result ≡ every_option }
    ensures local { result.global ≡ false }
{
    let every = optional(
        alloc,
        "every",
        "MS",
        "The milliseconds between two polls of --follow or wait, 1 to 60000; else 50",
    );
    every.value_parser(value_parser!(u16).range(1..=60_000))
}

fn port_argument<'a>(alloc: Global, help: &'a str) -> Arg<'a>
    ensures rule { rule_of result ≡ port_option }
    ensures local { result.global ≡ false }
{
    let port = required(alloc, "port", "P", help);
    port.value_parser(value_parser!(u16))
}

fn sessions_argument<'a>(alloc: Global) -> Arg<'a>
    ensures rule { rule_of result ≡ sessions_option }
    ensures local { result.global ≡ false }
{
    let sessions = required(
        alloc,
        "sessions",
        "N",
        "How many seats the board has, 1 to 64",
    );
    sessions.value_parser(value_parser!(u16).range(1..=64))
}

fn first_argument<'a>(alloc: Global) -> Arg<'a>
    ensures rule { rule_of result ≡ first_option }
    ensures local { result.global ≡ false }
{
    let first = optional(
        alloc,
        "first",
        "R",
        "The number of the first seat, 1 to 65472; else 1",
    );
    first.value_parser(value_parser!(u16).range(1..=65_472))
}

/// An option that has to be given, with a value.
pub(crate) fn required<'a>(alloc: Global, name: &'a str, value: &'a str, help: &'a str) -> Arg<'a>
    ensures rule { rule_of result ≡ option name.entry.now }
    ensures local { result.global ≡ false }
{
    optional(alloc, name, value, help).required(true)
}

/// An option that may be given, with a value.
pub(crate) fn optional<'a>(alloc: Global, name: &'a str, value: &'a str, help: &'a str) -> Arg<'a>
    ensures rule { rule_of result ≡ optional name.entry.now }
    ensures local { result.global ≡ false }
{
    Arg::new(alloc, name)
        .long(name)
        .value_name(value)
        .help(help)
        .action(ArgAction::Set)
}

/// A flag that may be given.
pub(crate) fn flag<'a>(alloc: Global, name: &'a str, help: &'a str) -> Arg<'a>
    ensures rule { rule_of result ≡ flag name.entry.now }
    ensures local { result.global ≡ false }
{
    Arg::new(alloc, name)
        .long(name)
        .help(help)
        .action(ArgAction::SetTrue)
}
