//! The command line.

ghost use Rattle.std.specs.Prelude.{◌≡◌, ◌≤◌, ◌∷◌, ◌&&◌, ◌||◌, [], Some, true, false, codes, is_ok, is_some, map, IfErr, IfOk, IfSome, OnOk, unwrap_or};
ghost use Rattle.std.specs.Option.{option_map, option_and_then};
ghost use Rattle.clap.specs.Values.{kind_of};
ghost use Rattle.clap.specs.Words.{app_of, rule_of, with_rule, first_value, found_of, FailsBy};
ghost use Rattle.ps_run_options.specs.CommandLine as spec;
ghost use Rattle.ps_run_options.specs.Sizes.{size_of};
ghost use Rattle.ps_run_options.specs.Sources.{file_of, text_of};
ghost use Rattle.ps_run_options.specs.Views.{is_viewed, view_in as spec_view_in};

use crate::form::command;
use crate::misuses::{OutputFile, explores_all, misused, overwriting, overwritten_in};
use crate::sizes::{SizeFault, size_within};
use crate::views::{View, view_in};
use clap::error::ErrorKind;
use clap::{ArgMatches, Command, Error};
use std::alloc::{AllocError, Global};

/// The version of the program, which `--version` tells.
pub const VERSION: &str = "0.4.0";

/// What is told where no program is given.
const NO_SOURCE: &str = "the following required arguments were not provided:\n  \
    <FILE> or -e <TEXT>";

/// What is told of two programs.
const TWO_SOURCES: &str = "the argument '<FILE>' cannot be used with '-e <TEXT>'";

/// What is told of words that are no text.
const NO_TEXT: &str = "invalid UTF-8 was detected in one or more arguments";

/// Where the program is.
#[derive(Clone, Copy, Debug, PartialEq, Eq)]
pub enum ProgramSource<'a> {
    /// In the file of this name; `-` is standard input.
    File(&'a str),
    /// It is this text.
    Text(&'a str),
}

/// How far all orders of a program's steps are explored.
#[derive(Clone, Copy, Debug, PartialEq, Eq)]
pub struct OrderBounds {
    /// The most cuts of an order, from 0 to 255.
    pub cuts: u32,
    /// The most runs that are made, at least 1.
    pub runs: u32,
}

/// Which runs of a program are made, where it isn't a single one.
#[derive(Clone, Copy, Debug, PartialEq, Eq)]
pub enum Exploration {
    /// So many, under schedules chosen by chance: from 1 to 65,535.
    ByChance(u32),
    /// One in each order of its steps, within these bounds.
    EachOrder(OrderBounds),
    /// Such that each state that its steps come to is followed; at most so many are kept, at least 1.
    EachWorld(u32),
}

/// What the command line asks for.
#[derive(Debug, Drop)]
pub struct Options<'a> {
    /// The words of a space of memory, from 4,096 to 1,048,576.
    pub space: u32,
    /// The threads that make steps, from 1 to 32.
    pub workers: u32,
    /// The most steps of a context's turn, from 1 to 65,535.
    pub quantum: u32,
    /// The most steps of the run, at least 1.
    pub steps: u32,
    /// The most bytes that the run may print, if there is a bound.
    pub output: Option<u32>,
    /// The most entries that its schedule may have, if there is a bound: at least 1.
    pub entries: Option<u32>,
    /// Whether the counts are told at the end.
    pub stats: bool,
    /// Whether the run is over memory that is never collected.
    pub plain: bool,
    /// Whether printed bytes are handed on while the run goes on. Then it is a single one.
    pub stream: bool,
    /// Whether the place of each error whose line is printed is told. Then it is a single run.
    pub places: bool,
    /// Which runs of the program are made, where it isn't a single one.
    pub explore: Option<Exploration>,
    /// The name of the file that the schedule of the run is written to, if it is. Where many runs
    /// are made, those of the endings are written, to files of this name with numbers.
    pub record_file: Option<&'a str>,
    /// The name of the file whose schedule is followed, if one is. Nothing is recorded then, and
    /// nothing is explored.
    pub replay_file: Option<&'a str>,
    /// Which state or which steps of the run under that schedule are told, if any are. Then nothing
    /// else is.
    pub at: Option<View>,
    /// The name of the file that a picture of the run is written to, if one is. Then it is a single
    /// run, of which neither a state nor steps are told.
    pub timeline_file: Option<&'a str>,
    /// Where the program is.
    pub source: ProgramSource<'a>,
}

/// A fault of words that the rules take one by one.
#[derive(Clone, Copy, Debug)]
struct Misuse {
    kind: ErrorKind,
    text: &'static str,
}

/// An option whose text is no size in its range.
#[derive(Clone, Copy, Debug)]
struct BadSize<'a> {
    name: &'static str,
    text: &'a str,
    fault: SizeFault,
}

/// The sizes that words give.
#[derive(Clone, Copy, Debug)]
struct Sizes {
    space: u32,
    steps: u32,
    output: Option<u32>,
    entries: Option<u32>,
    at: Option<View>,
    explore: Option<Exploration>,
}

/// Where the program is, by the words of the matches. Fails where they name none, or two.
fn source_of<'a>(matches: &ArgMatches<'a>) -> Result<ProgramSource<'a>, Misuse>
    ensures file { IfOk result
        (λ source. file_of source ≡ first_value (found_of matches.now) (codes "FILE")) }
    ensures text { IfOk result
        (λ source. text_of source ≡ first_value (found_of matches.now) (codes "e")) }
    ensures fault { IfErr result (λ misuse. spec.source_fault
        (first_value (found_of matches.now) (codes "FILE"))
        (first_value (found_of matches.now) (codes "e")) ≡ misuse.kind ∷ []) }
    ensures one { OnOk result (spec.source_fault
        (first_value (found_of matches.now) (codes "FILE"))
        (first_value (found_of matches.now) (codes "e")) ≡ []) }
{
    match (matches.get_str("FILE"), matches.get_str("e")) {
        (Some(name), None) => Ok(ProgramSource::File(name)),
        (None, Some(text)) => Ok(ProgramSource::Text(text)),
        (None, None) => Err(Misuse {
            kind: ErrorKind::MissingRequiredArgument,
            text: NO_SOURCE,
        }),
        (Some(_), Some(_)) => Err(Misuse {
            kind: ErrorKind::ArgumentConflict,
            text: TWO_SOURCES,
        }),
    }
}

/// The size of an option, if it stands in the words of the matches. Fails where its text is none
/// from `least` to `most`.
fn sized<'a>(
    matches: &ArgMatches<'a>,
    name: &'static str,
    least: u32,
    most: u32,
) -> Result<Option<u32>, BadSize<'a>>
    ensures size { IfOk result (λ size. size
        ≡ option_and_then size_of (first_value (found_of matches.now) name.now)) }
    ensures within { IfOk result (λ size. IfSome size (λ one. (least ≤ one) × (one ≤ most))) }
    ensures is { is_ok result
        ≡ spec.is_sized least most (first_value (found_of matches.now) name.now) }
{
    let Some(text) = matches.get_str(name) else {
        return Ok(None);
    };
    match size_within(text.as_bytes(), least, most) {
        Ok(size) => Ok(Some(size)),
        Err(fault) => Err(BadSize { name, text, fault }),
    }
}

/// What is asked to be told in the words of the matches, if anything is. Fails where its text asks
/// for nothing.
fn viewed<'a>(matches: &ArgMatches<'a>) -> Result<Option<View>, BadSize<'a>>
    ensures view { IfOk result (λ view. view
        ≡ option_and_then spec_view_in (first_value (found_of matches.now) (codes "at"))) }
    ensures is { is_ok result ≡ is_viewed (first_value (found_of matches.now) (codes "at")) }
{
    let Some(text) = matches.get_str("at") else {
        return Ok(None);
    };
    match view_in(text.as_bytes()) {
        Ok(view) => Ok(Some(view)),
        Err(fault) => Err(BadSize {
            name: "at",
            text,
            fault,
        }),
    }
}

/// The bounds that words give of all orders, if they do.
#[derive(Clone, Copy, Debug)]
struct Bounds {
    cuts: Option<u32>,
    runs: Option<u32>,
    worlds: Option<u32>,
}

/// All orders within these bounds: by cuts where those are bounded, else by worlds.
fn each_order(bounds: Bounds) -> Exploration
    ensures { result ≡ spec.all_orders bounds.cuts bounds.runs bounds.worlds }
{
    match bounds.cuts {
        Some(cuts) => Exploration::EachOrder(OrderBounds {
            cuts,
            runs: bounds.runs.unwrap_or(1_000_000),
        }),
        None => Exploration::EachWorld(bounds.worlds.unwrap_or(100_000)),
    }
}

/// Which runs are asked for in the words of the matches, where it isn't a single one. Fails by the
/// first option whose text is no size in its range, and where no number of runs nor `all` is given.
fn exploration_of<'a>(matches: &ArgMatches<'a>) -> Result<Option<Exploration>, BadSize<'a>>
    ensures exploration { IfOk result
        (λ found. found ≡ spec.exploration_of (first_value (found_of matches.now))) }
    ensures range { IfOk result (λ found. IfSome found spec.IsExploration) }
    ensures are { is_ok result ≡ spec.are_explored (first_value (found_of matches.now)) }
{
    let bounds = Bounds {
        cuts: sized(matches, "cuts", 0, 255)?,
        runs: sized(matches, "runs", 1, u32::MAX)?,
        worlds: sized(matches, "worlds", 1, u32::MAX)?,
    };
    if explores_all(matches) {
        return Ok(Some(each_order(bounds)));
    }
    match sized(matches, "explore", 1, 65535)? {
        Some(runs) => Ok(Some(Exploration::ByChance(runs))),
        None => Ok(None),
    }
}

/// The sizes in the words of the matches. Fails by the first option whose text is none in its range.
fn sizes_of<'a>(matches: &ArgMatches<'a>) -> Result<Sizes, BadSize<'a>>
    ensures space { IfOk result (λ sizes. sizes.space ≡ unwrap_or
        (option_and_then size_of (first_value (found_of matches.now) (codes "space"))) 65536) }
    ensures steps { IfOk result (λ sizes. sizes.steps ≡ unwrap_or
        (option_and_then size_of (first_value (found_of matches.now) (codes "steps")))
        1000000000) }
    ensures output { IfOk result (λ sizes. sizes.output
        ≡ option_and_then size_of (first_value (found_of matches.now) (codes "output"))) }
    ensures entries { IfOk result (λ sizes. sizes.entries
        ≡ option_and_then size_of (first_value (found_of matches.now) (codes "entries"))) }
    ensures at { IfOk result (λ sizes. sizes.at
        ≡ option_and_then spec_view_in (first_value (found_of matches.now) (codes "at"))) }
    ensures are { is_ok result ≡ (spec.are_sized (first_value (found_of matches.now))
        && spec.are_explored (first_value (found_of matches.now))) }
    ensures explore { IfOk result
        (λ sizes. sizes.explore ≡ spec.exploration_of (first_value (found_of matches.now))) }
    ensures range { IfOk result (λ sizes. IfSome sizes.explore spec.IsExploration) }
{
    let space = sized(matches, "space", 4096, 1_048_576)?;
    let steps = sized(matches, "steps", 1, u32::MAX)?;
    let output = sized(matches, "output", 0, u32::MAX)?;
    let entries = sized(matches, "entries", 1, u32::MAX)?;
    let at = viewed(matches)?;
    let explore = exploration_of(matches)?;
    Ok(Sizes {
        space: space.unwrap_or(65536),
        steps: steps.unwrap_or(1_000_000_000),
        output,
        entries,
        at,
        explore,
    })
}

/// The error for an option whose text is no size in its range.
fn bad_size(alloc: Global, line: &mut Command<'_>, bad: BadSize<'_>) -> Result<Error, AllocError>
    ensures { IfOk result (λ error. kind_of error ≡ ErrorKind.ValueValidation) }
{
    let BadSize { name, text, fault } = bad;
    let told = format!(in alloc; "invalid value '{text}' for '--{name} <N>': {fault}")?;
    line.error(ErrorKind::ValueValidation, told.as_str())
}

/// The error for words of a command line that are no text. Fails for want of memory.
pub fn no_text(alloc: Global) -> Result<Error, AllocError>
    ensures { IfOk result (λ error. kind_of error ≡ ErrorKind.InvalidValue) }
{
    command(alloc)?.error(ErrorKind::InvalidValue, NO_TEXT)
}

/// The error for a file of a run that would be written over the program. Fails for want of memory.
pub fn overwritten(alloc: Global, written: OutputFile) -> Result<Error, AllocError>
    ensures { IfOk result (λ error. kind_of error ≡ ErrorKind.ArgumentConflict) }
{
    command(alloc)?.error(ErrorKind::ArgumentConflict, overwriting(written))
}

/// Reads the words of a command line, without the program's name. The error is the first fault of
/// the words by the rules of the command line; or that they name no program or two; or that the
/// text of a size is none in its range; or that a schedule is given and `--plain`, `--record`,
/// `--explore` or `--entries` stands there too, or `--explore` and `--stream`, `--where` or
/// `--timeline`, or `--at` without a schedule, or with `--stream`, `--where`, `--stats`, `--output` or
/// `--timeline`; or `--cuts` or `--worlds` without all orders, `--runs` without `--cuts`, or
/// `--worlds` beside it; or that a record would be written over the program, or a picture over the program or a
/// schedule, as far as the names tell; or want of memory.
pub fn parse<'a>(alloc: Global, words: &'a [&'a str]) -> Result<Options<'a>, Error>
    ensures fault { FailsBy (spec.faults_in (map (λ word. word.now) words.entry.now)) result }
    ensures file { IfOk result (λ options. file_of options.source
        ≡ spec.named_in (codes "FILE") (map (λ word. word.now) words.entry.now)) }
    ensures text { IfOk result (λ options. text_of options.source
        ≡ spec.named_in (codes "e") (map (λ word. word.now) words.entry.now)) }
    ensures record_file { IfOk result
        (λ options. option_map (λ name. name.now) options.record_file
        ≡ spec.named_in (codes "record") (map (λ word. word.now) words.entry.now)) }
    ensures replay_file { IfOk result
        (λ options. option_map (λ name. name.now) options.replay_file
        ≡ spec.named_in (codes "replay") (map (λ word. word.now) words.entry.now)) }
    ensures timeline_file { IfOk result
        (λ options. option_map (λ name. name.now) options.timeline_file
        ≡ spec.named_in (codes "timeline") (map (λ word. word.now) words.entry.now)) }
    ensures stats { IfOk result (λ options. spec.IsFlag (codes "stats")
        (map (λ word. word.now) words.entry.now) options.stats) }
    ensures plain { IfOk result (λ options. spec.IsFlag (codes "plain")
        (map (λ word. word.now) words.entry.now) options.plain) }
    ensures stream { IfOk result (λ options. spec.IsFlag (codes "stream")
        (map (λ word. word.now) words.entry.now) options.stream) }
    ensures places { IfOk result (λ options. spec.IsFlag (codes "where")
        (map (λ word. word.now) words.entry.now) options.places) }
    ensures numbers { IfOk result
        (λ options. spec.AreNumbers (map (λ word. word.now) words.entry.now) (record {
          space = options.space;
          workers = options.workers;
          quantum = options.quantum;
          steps = options.steps;
        })) }
    ensures explore { IfOk result (λ options. options.explore
        ≡ spec.exploration_in (map (λ word. word.now) words.entry.now)) }
    ensures output { IfOk result (λ options. options.output
        ≡ spec.size_in (codes "output") (map (λ word. word.now) words.entry.now)) }
    ensures entries { IfOk result (λ options. options.entries
        ≡ spec.size_in (codes "entries") (map (λ word. word.now) words.entry.now)) }
    ensures at { IfOk result (λ options. options.at
        ≡ spec.view_asked (map (λ word. word.now) words.entry.now)) }
    ensures at_given { IfOk result (λ options. is_some options.at ≡ true
        → is_some options.replay_file ≡ true) }
    ensures explore_range { IfOk result (λ options. IfSome options.explore spec.IsExploration) }
{
    let mut line = command(alloc)?;
    let matches = line.try_get_matches_from_mut(words)?;
    let source = match source_of(&matches) {
        Ok(source) => source,
        Err(misuse) => return Err(line.error(misuse.kind, misuse.text)?),
    };
    let sizes = match sizes_of(&matches) {
        Ok(sizes) => sizes,
        Err(bad) => return Err(bad_size(alloc, &mut line, bad)?),
    };
    if let Some(text) = misused(&matches) {
        return Err(line.error(ErrorKind::ArgumentConflict, text)?);
    }
    if let Some(text) = overwritten_in(&matches) {
        return Err(line.error(ErrorKind::ArgumentConflict, text)?);
    }
    Ok(Options {
        space: sizes.space,
        workers: matches.get_one::<u32>("workers").unwrap_or(4),
        quantum: matches.get_one::<u32>("quantum").unwrap_or(100),
        steps: sizes.steps,
        stats: matches.get_flag("stats"),
        plain: matches.get_flag("plain"),
        stream: matches.get_flag("stream"),
        places: matches.get_flag("where"),
        explore: sizes.explore,
        output: sizes.output,
        entries: sizes.entries,
        record_file: matches.get_str("record"),
        replay_file: matches.get_str("replay"),
        at: sizes.at,
        timeline_file: matches.get_str("timeline"),
        source,
    })
}
