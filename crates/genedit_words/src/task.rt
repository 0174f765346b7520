//! What the words ask for.

use generations_rule::Rule;

/// An RLE text that is brought into canonical form.
#[derive(Clone, Copy)]
pub struct RleTask<'a> {
    /// The file to read; standard input if none is given.
    pub file: Option<&'a str>,
    pub rule: Rule,
}

/// A server of a board.
#[derive(Clone, Copy)]
pub struct ServeTask<'a> {
    /// The rule of the board; there wherever `keep` is none, since only a file can name it instead.
    pub rule: Option<Rule>,
    /// 0 for any that is free; none only where there is `web`, and then only browsers come.
    pub port: Option<u16>,
    /// 1 to 64.
    pub sessions: u16,
    /// The number of its first seat, 1 to 65,472, so that the last of 64 has one of 16 bits.
    pub first: u16,
    /// The file in which the board is kept; it is kept nowhere if none is given.
    pub keep: Option<&'a str>,
    /// Whether a line `close` on standard input ends it.
    pub until_close: bool,
    /// Where browsers draw on the board, if they do.
    pub web: Option<WebTask<'a>>,
    /// After how many minutes in which nobody sits at any seat it ends by itself, 1 to 1,440, if it does.
    pub until_idle: Option<u16>,
}

/// A web port, where browsers draw on a board.
#[derive(Clone, Copy)]
pub struct WebTask<'a> {
    /// The address of this machine at which it listens, not looked at yet; 127.0.0.1 if none is named.
    pub address: Option<&'a str>,
    /// 0 for any that is free.
    pub port: u16,
    /// How links to the board begin, not looked at yet; by the address and the port if none is given.
    pub url: Option<&'a str>,
}

/// A client of a board that is served.
#[derive(Clone, Copy)]
pub struct JoinTask {
    pub port: u16,
    /// How many milliseconds are let pass between two polls, 1 to 60,000.
    pub interval: u16,
    /// Whether it polls while no command comes.
    pub is_following: bool,
    /// Whether it tells the cells that look different, and not each edit.
    pub tells_changes: bool,
    /// Whether it tells nothing of what others drew.
    pub is_quiet: bool,
    /// Whether it writes no file where it loses its server.
    pub leaves_no_file: bool,
}

/// A picture of a pattern, of a state or of a document; or its period.
#[derive(Clone, Copy)]
pub struct Viewing<'a> {
    /// The file to read; standard input if none is given.
    pub file: Option<&'a str>,
    pub rule: Option<Rule>,
    /// The corner of the window, as `X,Y`, and its sides, as `W,H`; not read yet.
    pub at: Option<&'a str>,
    pub size: Option<&'a str>,
    pub generation: Option<u32>,
    /// Of a document, how many of its records of edits are looked at, from the first on; all if none is given.
    pub edits: Option<u32>,
    /// The longest period that is looked for, 1 to 65,535, where a period is asked for in place of a picture.
    pub longest_period: Option<u16>,
    /// The range of generations, as it is spelled, of which a chart is asked for in place of a picture.
    pub chart: Option<&'a str>,
    pub is_plain: bool,
    pub is_svg: bool,
}

/// An RLE text that is made of a pattern's file or of a state.
#[derive(Clone, Copy)]
pub struct ConvertTask<'a> {
    /// The file to read; standard input if it is named `-`.
    pub file: Option<&'a str>,
    /// The file to write; not looked at yet.
    pub output: &'a str,
    pub rule: Option<Rule>,
    pub generation: Option<u32>,
    /// Whether a file that is there is replaced.
    pub replaces: bool,
}

/// A document that is made, without an edit.
#[derive(Clone, Copy)]
pub struct NewTask<'a> {
    pub file: &'a str,
    pub rule: Rule,
}

/// A document in which is drawn.
#[derive(Clone, Copy)]
pub struct DrawTask<'a> {
    pub file: &'a str,
    /// 65 to 65535: 1 to 64 are seats of boards that are served.
    pub replica: u16,
}

/// Documents that are merged into one.
#[derive(Drop)]
pub struct MergeTask<'a> {
    pub file: &'a str,
    /// The files of the others, one at least; standard input where one is named `-`.
    pub others: Vec<&'a str>,
    /// By which number an edit of another is taken whose counter and replica stand for another edit in the
    /// file, if one is given: 65 to 65535.
    pub renumber: Option<u16>,
}

/// Two documents that are compared.
#[derive(Clone, Copy)]
pub struct DiffTask<'a> {
    pub file: &'a str,
    /// The file of the other; standard input if it is named `-`.
    pub other: Option<&'a str>,
}

/// A document's edits that are listed.
#[derive(Clone, Copy)]
pub struct LogTask<'a> {
    /// The file to read; standard input if it is named `-`.
    pub file: Option<&'a str>,
    /// How many of its records of edits are looked at, from the first on; all if none is given.
    pub edits: Option<u32>,
}

/// A generation of a document that is written as an RLE text.
#[derive(Clone, Copy)]
pub struct ExportTask<'a> {
    /// The file to read; standard input if it is named `-`.
    pub file: Option<&'a str>,
    pub generation: u32,
    /// How many of its records of edits are looked at, from the first on; all if none is given.
    pub edits: Option<u32>,
}

/// A document whose records are told as they come.
#[derive(Clone, Copy)]
pub struct FollowTask<'a> {
    pub file: &'a str,
    /// How many records are passed over, the first, which names the rule, among them; none if it is not given.
    pub from: Option<u32>,
    /// Whether they are told as bytes, and not as lines of base64.
    pub is_raw: bool,
}

/// A document that takes records from standard input.
#[derive(Clone, Copy)]
pub struct FeedTask<'a> {
    pub file: &'a str,
}

/// One's number for drawing, which is printed.
#[derive(Clone, Copy)]
pub struct NumberTask<'a> {
    /// The file that lists the numbers.
    pub file: &'a str,
    /// Whose number it is.
    pub name: &'a str,
}

/// What the words ask for.
#[derive(Drop)]
pub enum Task<'a> {
    /// The script of this file, or on standard input, is run.
    Run(Option<&'a str>),
    /// What is wrong with the script of this file, or on standard input, is told.
    Check(Option<&'a str>),
    /// An RLE text is brought into canonical form.
    Rle(RleTask<'a>),
    /// A picture is drawn.
    View(Viewing<'a>),
    /// A board is served.
    Serve(ServeTask<'a>),
    /// A board that is served is joined.
    Join(JoinTask),
    /// A file is made an RLE text.
    Convert(ConvertTask<'a>),
    /// A document is made.
    New(NewTask<'a>),
    /// A document is drawn in.
    Draw(DrawTask<'a>),
    /// Documents are merged into one.
    Merge(MergeTask<'a>),
    /// Two documents are compared.
    Diff(DiffTask<'a>),
    /// A document's edits are listed.
    Log(LogTask<'a>),
    /// A generation of a document is written.
    Export(ExportTask<'a>),
    /// A document's records are told as they come.
    Follow(FollowTask<'a>),
    /// A document takes records from standard input.
    Feed(FeedTask<'a>),
    /// One's number for drawing is printed.
    Number(NumberTask<'a>),
}
