//! What the words ask for.

ghost use Rattle.std.specs.Prelude.{◌≡◌, ◌≤◌, ◌<◌, ◌^◌, ◌||◌, not, ℕ, List, IfErr, IfOk, IfSome, Ok, Some, Option, Result, codes, false, map, option_and_then, option_map, string_bytes, true};
ghost use Rattle.clap.specs.Words.{first_of, found_of, rows_of, subcommand_rows_of};
ghost use Rattle.clap.specs.Walk.{all_of};
ghost use Rattle.genedit_words.specs.Misspelt.{Misspelt};
ghost use Rattle.genedit_words.specs.Needs.{needs_some};
ghost use Rattle.genedit_words.specs.Given.{HasClient, HasConversion, HasDiff, HasDraw, HasExport, HasFeed, HasFlag, HasFollow, HasFor, HasLog, HasMerge, HasNew, HasNumber, HasNumbering, HasRule, HasServer, HasText, HasTexts, HasView, IsInRange, IsNamed, MayHaveNumber};
ghost use Rattle.genedit_words.specs.Told.{Told, or_misspelt, or_no_web, told, told_of};
ghost use Rattle.genedit_words.specs.Words.{Asks, EndsWords, IsAsked, asked_by, check_asked, convert_asked, diff_asked, draw_asked, export_asked, feed_asked, file_asked, first_asked, follow_asked, interval_asked, is_set, is_told, join_asked, log_asked, merge_asked, named_file, needs_of, new_asked, number_asked, number_of, rle_asked, rule_asked, rule_if_given, run_asked, serve_asked, server_needs, task_of, tells, view_asked, web_asked};

use crate::commands::command;
use crate::ending::Ending;
use crate::missing::with_needs;
use crate::misspelt::{MisspeltRule, MisspeltWeb};
use crate::needs::Needs;
use crate::options::bound;
use crate::subcommand::Subcommand;
use crate::task::{
    ConvertTask, DiffTask, DrawTask, ExportTask, FeedTask, FollowTask, JoinTask, LogTask,
    MergeTask, NewTask, NumberTask, RleTask, ServeTask, Task, Viewing, WebTask,
};
use crate::web_words::web_place;
use clap::ArgMatches;
use genedit_io::RunFault;
use generations_rule::Rule;
use header_rules::spelled_rule;
use std::alloc::{AllocError, AllocGlobal, Global};
use std::io::ErrorKind;
use std::rt::Env;

/// How many milliseconds are let pass between two polls where the words do not say it.
const INTERVAL: u16 = 50;

/// Why no task comes of words that are a command line.
#[derive(Drop)]
pub(crate) enum NoTask<'a> {
    /// One of them spells no rule.
    Rule(MisspeltRule<'a>),
    /// One of them spells no web port.
    Web(MisspeltWeb<'a>),
    Memory,
}

impl<'a> From<MisspeltRule<'a>> for NoTask<'a> {
    ghost use Rattle.genedit_words.specs.declared.words.NoTask.TheVariants as no_task;

    ghost from_gives = { λ wrong given. given ≡ no_task.Rule wrong };

    fn from(wrong: MisspeltRule<'a>) -> NoTask<'a> {
        NoTask::Rule(wrong)
    }
}

impl<'a> From<MisspeltWeb<'a>> for NoTask<'a> {
    ghost use Rattle.genedit_words.specs.declared.words.NoTask.TheVariants as no_task;

    ghost from_gives = { λ wrong given. given ≡ no_task.Web wrong };

    fn from(wrong: MisspeltWeb<'a>) -> NoTask<'a> {
        NoTask::Web(wrong)
    }
}

/// The words with which the program was started, its own name first, as `bound` makes them.
pub fn given<R: Env + AllocGlobal>(rt: &R) -> Result<Vec<String>, Ending<'static>> {
    match std::env::args(rt) {
        Ok(words) => {
            let words: Vec<String> = words.collect(rt.alloc())?;
            Ok(bound(rt.alloc(), words)?)
        }
        Err(error) if error.kind() == ErrorKind::OutOfMemory => Err(Ending::Run(RunFault::Memory)),
        Err(_) => Err(Ending::NoText),
    }
}

/// What the words ask for. Help and the version come as an error, too.
pub fn asked(alloc: Global, words: &[String]) -> Result<Task<'_>, Ending<'_>>
    ensures asks { IfOk result (λ task. Asks (map string_bytes words.now) (Ok (told_of task))) }
    ensures range { IfOk result IsInRange }
    ensures ends { IfErr result (EndsWords (map string_bytes words.now)) }
{
    let matches = match command(alloc, Needs::none())?.try_get_matches_from(words) {
        Ok(matches) => matches,
        Err(error) => return Err(Ending::Words(with_needs(alloc, words, error))),
    };
    let needs = needs_of(&matches);
    if needs.is_some() {
        return Err(Ending::Lacking(needs));
    }
    match task(alloc, &matches) {
        Ok(task) => Ok(task),
        Err(NoTask::Rule(rule)) => Err(Ending::Rule(rule)),
        Err(NoTask::Web(web)) => Err(Ending::Web(web)),
        Err(NoTask::Memory) => Err(Ending::Run(RunFault::Memory)),
    }
}

/// What the words lack: those for a server alone may lack something.
fn needs_of(matches: &ArgMatches<'_>) -> Needs
    requires { IsNamed (subcommand_rows_of matches.now) }
    ensures { option_map needs_of (subcommand_rows_of matches.now) ≡ Some result }
{
    match matches.subcommand_matches("serve") {
        Some(words) => server_needs(words),
        None => Needs::none(),
    }
}

/// What the words for a server lack.
fn server_needs(words: &ArgMatches<'_>) -> Needs
    ensures { result ≡ server_needs (rows_of (found_of words.now)) }
{
    Needs {
        rule: lacks_both(words, "rule", "keep"),
        port: lacks_both(words, "port", "web"),
        web: is_told(words, "url") && !is_told(words, "web"),
    }
}

/// Whether neither of two options is given.
fn lacks_both(words: &ArgMatches<'_>, one: &str, other: &str) -> bool
    ensures { result ≡ not (is_told one.now (rows_of (found_of words.now)) || is_told other.now (rows_of (found_of words.now))) }
{
    !(is_told(words, one) || is_told(words, other))
}

/// Whether an option is given.
fn is_told(words: &ArgMatches<'_>, id: &str) -> bool
    ensures { result ≡ is_told id.now (rows_of (found_of words.now)) }
{
    words.get_str(id).is_some()
}

/// What the words ask for.
fn task<'a>(alloc: Global, matches: &ArgMatches<'a>) -> Result<Task<'a>, NoTask<'a>>
    requires named { IsNamed (subcommand_rows_of matches.now) }
    requires complete { option_map (λ subcommand. needs_some (needs_of subcommand)) (subcommand_rows_of matches.now) ≡ Some false }
    ensures asked { IsAsked (option_and_then task_of (subcommand_rows_of matches.now)) result }
    ensures range { IfOk result IsInRange }
{
    let Some((name, words)) = matches.subcommand() else {
        unreachable!()
    };
    match Subcommand::named(name) {
        Some(subcommand) => task_by(alloc, subcommand, words),
        None => unreachable!(),
    }
}

/// What a subcommand asks for.
fn task_by<'a>(
    alloc: Global,
    subcommand: Subcommand,
    words: &ArgMatches<'a>,
) -> Result<Task<'a>, NoTask<'a>>
    requires has { HasFor subcommand (rows_of (found_of words.now)) }
    requires complete { subcommand ≡ Subcommand.Serve → needs_some (server_needs (rows_of (found_of words.now))) ≡ false }
    ensures asked { IsAsked (asked_by subcommand (rows_of (found_of words.now))) result }
    ensures range { IfOk result IsInRange }
{
    match subcommand {
        Subcommand::Run => Ok(run(words)),
        Subcommand::Check => Ok(check(words)),
        Subcommand::Rle => ruled(rle(words)),
        Subcommand::View => ruled(view(words)),
        Subcommand::Convert => ruled(convert(words)),
        Subcommand::Serve => serve(words),
        Subcommand::Join => Ok(join(words)),
        Subcommand::New => ruled(new_document(words)),
        Subcommand::Draw => Ok(draw(words)),
        Subcommand::Merge => match merge(alloc, words) {
            Ok(task) => Ok(task),
            Err(_) => Err(NoTask::Memory),
        },
        Subcommand::Diff => Ok(diff(words)),
        Subcommand::Log => Ok(log(words)),
        Subcommand::Export => Ok(export(words)),
        Subcommand::Follow => Ok(follow(words)),
        Subcommand::Feed => Ok(feed(words)),
        Subcommand::Number => Ok(numbering(words)),
    }
}

/// A task, or the word that spells no rule.
fn ruled<'a>(task: Result<Task<'a>, MisspeltRule<'a>>) -> Result<Task<'a>, NoTask<'a>>
    ensures asked { (asked : Option (Result Told Misspelt)) → asked ≡ Some (told task.entry) → IsAsked asked result }
    ensures range { IfOk task.entry IsInRange → IfOk result IsInRange }
{
    match task {
        Ok(task) => Ok(task),
        Err(rule) => Err(NoTask::Rule(rule)),
    }
}

/// What `new` asks for.
fn new_document<'a>(words: &ArgMatches<'a>) -> Result<Task<'a>, MisspeltRule<'a>>
    requires { HasNew (rows_of (found_of words.now)) }
    ensures asked { new_asked (rows_of (found_of words.now)) ≡ Some (told result) }
    ensures range { IfOk result IsInRange }
{
    let rule = rule(words)?;
    Ok(Task::New(NewTask {
        file: file_at(words, "file"),
        rule,
    }))
}

/// What `draw` asks for.
fn draw<'a>(words: &ArgMatches<'a>) -> Task<'a>
    requires { HasDraw (rows_of (found_of words.now)) }
    ensures asked { draw_asked (rows_of (found_of words.now)) ≡ Some (Ok (told_of result)) }
    ensures range { IsInRange result }
{
    Task::Draw(DrawTask {
        file: file_at(words, "file"),
        replica: number(words, "replica"),
    })
}

/// What `merge` asks for.
fn merge<'a>(alloc: Global, words: &ArgMatches<'a>) -> Result<Task<'a>, AllocError>
    requires { HasMerge (rows_of (found_of words.now)) }
    ensures asked { IfOk result (λ task. merge_asked (rows_of (found_of words.now)) ≡ Some (Ok (told_of task))) }
    ensures range { IfOk result IsInRange }
{
    let mut others = Vec::new(alloc);
    others.extend_from_slice(files_at(words, "other"))?;
    Ok(Task::Merge(MergeTask {
        file: file_at(words, "file"),
        others,
        renumber: renumber(words),
    }))
}

/// By which number edits are taken that clash, if one is given.
fn renumber(words: &ArgMatches<'_>) -> Option<u16>
    requires { MayHaveNumber 65 65535 (codes "renumber") (rows_of (found_of words.now)) }
    ensures value { number_of (codes "renumber") (rows_of (found_of words.now)) ≡ result }
    ensures range { IfSome result (λ number. (65 ≤ number) × (number ≤ 65535)) }
{
    words.get_one::<u16>("renumber")
}

/// What `diff` asks for.
fn diff<'a>(words: &ArgMatches<'a>) -> Task<'a>
    requires { HasDiff (rows_of (found_of words.now)) }
    ensures asked { diff_asked (rows_of (found_of words.now)) ≡ Some (Ok (told_of result)) }
    ensures range { IsInRange result }
{
    Task::Diff(DiffTask {
        file: file_at(words, "file"),
        other: named_file(file_at(words, "other")),
    })
}

/// What `log` asks for.
fn log<'a>(words: &ArgMatches<'a>) -> Task<'a>
    requires { HasLog (rows_of (found_of words.now)) }
    ensures asked { log_asked (rows_of (found_of words.now)) ≡ Some (Ok (told_of result)) }
    ensures range { IsInRange result }
{
    Task::Log(LogTask {
        file: named_file(file_at(words, "file")),
        edits: count_if_given(words, "edits"),
    })
}

/// What `export` asks for.
fn export<'a>(words: &ArgMatches<'a>) -> Task<'a>
    requires { HasExport (rows_of (found_of words.now)) }
    ensures asked { export_asked (rows_of (found_of words.now)) ≡ Some (Ok (told_of result)) }
    ensures range { IsInRange result }
{
    Task::Export(ExportTask {
        file: named_file(file_at(words, "file")),
        generation: count(words, "generation"),
        edits: count_if_given(words, "edits"),
    })
}

/// What `follow` asks for.
fn follow<'a>(words: &ArgMatches<'a>) -> Task<'a>
    requires { HasFollow (rows_of (found_of words.now)) }
    ensures asked { follow_asked (rows_of (found_of words.now)) ≡ Some (Ok (told_of result)) }
    ensures range { IsInRange result }
{
    Task::Follow(FollowTask {
        file: file_at(words, "file"),
        from: count_if_given(words, "from"),
        is_raw: is_set(words, "raw"),
    })
}

/// What `feed` asks for.
fn feed<'a>(words: &ArgMatches<'a>) -> Task<'a>
    requires { HasFeed (rows_of (found_of words.now)) }
    ensures asked { feed_asked (rows_of (found_of words.now)) ≡ Some (Ok (told_of result)) }
    ensures range { IsInRange result }
{
    Task::Feed(FeedTask {
        file: file_at(words, "file"),
    })
}

/// What `number` asks for.
fn numbering<'a>(words: &ArgMatches<'a>) -> Task<'a>
    requires { HasNumbering (rows_of (found_of words.now)) }
    ensures asked { number_asked (rows_of (found_of words.now)) ≡ Some (Ok (told_of result)) }
    ensures range { IsInRange result }
{
    Task::Number(NumberTask {
        file: file_at(words, "numbers"),
        name: file_at(words, "name"),
    })
}

/// What `run` asks for.
fn run<'a>(words: &ArgMatches<'a>) -> Task<'a>
    ensures asked { run_asked (rows_of (found_of words.now)) ≡ Some (Ok (told_of result)) }
    ensures range { IsInRange result }
{
    Task::Run(file(words))
}

/// The file to read, if one is named: `-` is standard input.
fn file<'a>(words: &ArgMatches<'a>) -> Option<&'a str>
    ensures { option_map (λ path. path.now) result ≡ file_asked (rows_of (found_of words.now)) }
{
    match words.get_str("file") {
        None => None,
        Some(path) => named_file(path),
    }
}

fn named_file(path: &str) -> Option<&str>
    ensures { option_map (λ path. path.now) result ≡ named_file path.now }
{
    if path == "-" { None } else { Some(path) }
}

/// What `rle` asks for.
fn rle<'a>(words: &ArgMatches<'a>) -> Result<Task<'a>, MisspeltRule<'a>>
    requires { HasRule (rows_of (found_of words.now)) }
    ensures asked { rle_asked (rows_of (found_of words.now)) ≡ Some (told result) }
    ensures range { IfOk result IsInRange }
{
    let rule = rule(words)?;
    Ok(Task::Rle(RleTask {
        file: file(words),
        rule,
    }))
}

/// What `serve` asks for.
fn serve<'a>(words: &ArgMatches<'a>) -> Result<Task<'a>, NoTask<'a>>
    requires server { HasServer (rows_of (found_of words.now)) }
    requires complete { needs_some (server_needs (rows_of (found_of words.now))) ≡ false }
    ensures asked { serve_asked (rows_of (found_of words.now)) ≡ tells result }
    ensures range { IfOk result IsInRange }
{
    let rule = rule_if_given(words)?;
    let web = web_if_given(words)?;
    let port = number_if_given(words, "port");
    let sessions = number(words, "sessions");
    Ok(Task::Serve(ServeTask {
        rule,
        port,
        sessions,
        first: first_seat(words),
        keep: words.get_str("keep"),
        until_close: is_set(words, "until-close"),
        web,
        until_idle: number_if_given(words, "until-idle"),
    }))
}

/// The web port of the option `--web`, if it is given, and how links to it begin.
fn web_if_given<'a>(words: &ArgMatches<'a>) -> Result<Option<WebTask<'a>>, MisspeltWeb<'a>>
    ensures { or_no_web result ≡ web_asked (rows_of (found_of words.now)) }
{
    match words.get_str("web") {
        None => Ok(None),
        Some(text) => match web_place(text) {
            Some((address, port)) => Ok(Some(WebTask {
                address,
                port,
                url: words.get_str("url"),
            })),
            None => Err(MisspeltWeb { text }),
        },
    }
}

/// The number of a server's first seat: 1 where none is given.
fn first_seat(words: &ArgMatches<'_>) -> u16
    requires { MayHaveNumber 1 65472 (codes "first") (rows_of (found_of words.now)) }
    ensures value { first_asked (rows_of (found_of words.now)) ≡ result }
    ensures range { (1 ≤ result) × (result ≤ 65472) }
{
    match words.get_one::<u16>("first") {
        Some(first) => first,
        None => 1,
    }
}

/// What `join` asks for.
fn join<'a>(words: &ArgMatches<'a>) -> Task<'a>
    requires { HasClient (rows_of (found_of words.now)) }
    ensures asked { join_asked (rows_of (found_of words.now)) ≡ Some (Ok (told_of result)) }
    ensures range { IsInRange result }
{
    Task::Join(JoinTask {
        port: number(words, "port"),
        interval: interval(words),
        is_following: is_set(words, "follow"),
        tells_changes: is_set(words, "changes"),
        is_quiet: is_set(words, "quiet"),
        leaves_no_file: is_set(words, "no-rescue"),
    })
}

/// How many milliseconds are let pass between two polls.
fn interval(words: &ArgMatches<'_>) -> u16
    requires { MayHaveNumber 1 60000 (codes "every") (rows_of (found_of words.now)) }
    ensures value { interval_asked (rows_of (found_of words.now)) ≡ result }
    ensures range { (1 ≤ result) × (result ≤ 60000) }
{
    match words.get_one::<u16>("every") {
        Some(interval) => interval,
        None => INTERVAL,
    }
}

/// What `check` asks for.
fn check<'a>(words: &ArgMatches<'a>) -> Task<'a>
    ensures asked { check_asked (rows_of (found_of words.now)) ≡ Some (Ok (told_of result)) }
    ensures range { IsInRange result }
{
    Task::Check(file(words))
}

/// What `view` asks for.
fn view<'a>(words: &ArgMatches<'a>) -> Result<Task<'a>, MisspeltRule<'a>>
    requires { HasView (rows_of (found_of words.now)) }
    ensures asked { view_asked (rows_of (found_of words.now)) ≡ Some (told result) }
    ensures range { IfOk result IsInRange }
{
    let rule = rule_if_given(words)?;
    Ok(Task::View(Viewing {
        file: file(words),
        rule,
        at: words.get_str("at"),
        size: words.get_str("size"),
        generation: generation(words),
        edits: count_if_given(words, "edits"),
        longest_period: number_if_given(words, "period"),
        chart: words.get_str("chart"),
        is_plain: is_set(words, "plain"),
        is_svg: is_set(words, "svg"),
    }))
}

/// What `convert` asks for.
fn convert<'a>(words: &ArgMatches<'a>) -> Result<Task<'a>, MisspeltRule<'a>>
    requires { HasConversion (rows_of (found_of words.now)) }
    ensures asked { convert_asked (rows_of (found_of words.now)) ≡ Some (told result) }
    ensures range { IfOk result IsInRange }
{
    let rule = rule_if_given(words)?;
    let input = file_at(words, "in");
    Ok(Task::Convert(ConvertTask {
        file: named_file(input),
        output: file_at(words, "out"),
        rule,
        generation: generation(words),
        replaces: is_set(words, "replace"),
    }))
}

/// Files of which one has to be named, as the words name them.
fn files_at<'m, 'a>(words: &'m ArgMatches<'a>, id: &str) -> &'m [&'a str]
    requires { HasTexts id.now (rows_of (found_of words.now)) }
    ensures { all_of id.now (rows_of (found_of words.now)) ≡ Some (map (λ s. s.now) result.now) }
{
    // the argument is required, so the words have it
    words.get_strs(id).unwrap()
}

/// A file that has to be named, as the words name it.
fn file_at<'a>(words: &ArgMatches<'a>, id: &str) -> &'a str
    requires { HasText id.now (rows_of (found_of words.now)) }
    ensures { first_of id.now (rows_of (found_of words.now)) ≡ Some result.now }
{
    // the argument is required, so the words have it
    words.get_str(id).unwrap()
}

/// The rule of the option `--rule`, if it is given.
fn rule_if_given<'a>(words: &ArgMatches<'a>) -> Result<Option<Rule>, MisspeltRule<'a>>
    ensures { or_misspelt result ≡ rule_if_given (first_of (codes "rule") (rows_of (found_of words.now))) }
{
    match words.get_str("rule") {
        None => Ok(None),
        Some(text) => match rule_of(text) {
            Ok(rule) => Ok(Some(rule)),
            Err(wrong) => Err(wrong),
        },
    }
}

/// The generation, if one is given.
fn generation(words: &ArgMatches<'_>) -> Option<u32>
    requires { MayHaveNumber 0 536870912 (codes "gen") (rows_of (found_of words.now)) }
    ensures { number_of (codes "gen") (rows_of (found_of words.now)) ≡ result }
{
    count_if_given(words, "gen")
}

/// The number of an option that may be given and takes numbers of 32 bits.
fn count_if_given(words: &ArgMatches<'_>, id: &str) -> Option<u32>
    requires { (high : ℕ) × (high < 2 ^ 32) × MayHaveNumber 0 high id.now (rows_of (found_of words.now)) }
    ensures { number_of id.now (rows_of (found_of words.now)) ≡ result }
{
    words.get_one::<u32>(id)
}

/// The number that has to be given and is one of 32 bits.
fn count(words: &ArgMatches<'_>, id: &str) -> u32
    requires { HasNumber 0 4294967295 id.now (rows_of (found_of words.now)) }
    ensures { number_of id.now (rows_of (found_of words.now)) ≡ Some result }
{
    words.get_one::<u32>(id).unwrap()
}

/// Whether a flag is given.
fn is_set(words: &ArgMatches<'_>, id: &str) -> bool
    requires { HasFlag id.now (rows_of (found_of words.now)) }
    ensures { is_set id.now (rows_of (found_of words.now)) ≡ result }
{
    words.get_flag(id)
}

/// The rule of the option `--rule`.
fn rule<'a>(words: &ArgMatches<'a>) -> Result<Rule, MisspeltRule<'a>>
    requires { HasRule (rows_of (found_of words.now)) }
    ensures { (text : List ℕ) → first_of (codes "rule") (rows_of (found_of words.now)) ≡ Some text → or_misspelt result ≡ rule_asked text }
{
    // the option is required, so the words have it
    let text = words.get_str("rule").unwrap();
    rule_of(text)
}

/// The rule that a text spells.
fn rule_of(text: &str) -> Result<Rule, MisspeltRule<'_>>
    ensures { or_misspelt result ≡ rule_asked text.now }
{
    match spelled_rule(text.as_bytes()) {
        Ok(rule) => Ok(rule),
        Err(why) => Err(MisspeltRule { text, why }),
    }
}

/// The number of an option that may be given and takes numbers of 16 bits.
fn number_if_given(words: &ArgMatches<'_>, id: &str) -> Option<u16>
    requires { (low high : ℕ) × (high ≤ 65535) × MayHaveNumber low high id.now (rows_of (found_of words.now)) }
    ensures value { number_of id.now (rows_of (found_of words.now)) ≡ result }
    ensures within { (low high : ℕ) → high ≤ 65535 → MayHaveNumber low high id.now (rows_of (found_of words.now)) → IfSome result (λ n. (low ≤ n) × (n ≤ high)) }
{
    words.get_one::<u16>(id)
}

/// The number of an option that is required and takes numbers of 16 bits.
fn number(words: &ArgMatches<'_>, id: &str) -> u16
    requires { HasNumber 0 65535 id.now (rows_of (found_of words.now)) }
    ensures value { number_of id.now (rows_of (found_of words.now)) ≡ Some result }
    ensures within { (low high : ℕ) → high ≤ 65535 → HasNumber low high id.now (rows_of (found_of words.now)) → (low ≤ result) × (result ≤ high) }
{
    words.get_one::<u16>(id).unwrap()
}
