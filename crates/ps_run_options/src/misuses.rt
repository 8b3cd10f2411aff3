//! What can't be used beside what in the words of a command line, or without it.

ghost use Rattle.std.specs.Prelude.{◌≡◌, ◌&&◌, ◌||◌, codes, is_some, option_map};
ghost use Rattle.clap.specs.Words.{first_value, found_of};
ghost use Rattle.ps_run_options.specs.CommandLine as spec;

use clap::ArgMatches;

/// What is told of a schedule that is given beside what it can't be used with.
const REPLAY_EXCLUDED: &str = "the argument '--replay <FILE>' cannot be used with '--plain', \
    '--record <FILE>', '--explore <N>' or '--entries <N>'";

/// What is told of places that are asked for beside many runs.
const WHERE_EXCLUDED: &str = "the argument '--where' cannot be used with '--explore <N>'";

/// What is told of a state that is asked for without a schedule.
const AT_ALONE: &str = "the argument '--at <N>' cannot be used without '--replay <FILE>'";

/// What is told of a state that is asked for beside what is told of a whole run.
const AT_EXCLUDED: &str = "the argument '--at <N>' cannot be used with '--stream', '--where', \
    '--stats', '--output <N>' or '--timeline <FILE>'";

/// What is told of a picture that is asked for beside many runs.
const TIMELINE_EXCLUDED: &str = "the argument '--timeline <FILE>' cannot be used with \
    '--explore <N>'";

/// What is told of a stream that is asked for beside many runs.
const STREAM_EXCLUDED: &str = "the argument '--stream' cannot be used with '--explore <N>'";

/// What is told of a bound on cuts without all orders.
const CUTS_ALONE: &str = "the argument '--cuts <N>' can only be used with '--explore all'";

/// What is told of a bound on runs without one on cuts.
const RUNS_ALONE: &str = "the argument '--runs <N>' can only be used with '--cuts <N>'";

/// What is told of a bound on worlds without all orders.
const WORLDS_ALONE: &str = "the argument '--worlds <N>' can only be used with '--explore all'";

/// What is told of a bound on worlds beside one on cuts.
const WORLDS_EXCLUDED: &str = "the argument '--worlds <N>' cannot be used with '--cuts <N>'";

/// What is told of a record that would take the place of the program.
const OVERWRITTEN: &str = "the argument '--record <FILE>' would write over the program";

/// What is told of a picture that would.
const PROGRAM_DRAWN_OVER: &str = "the argument '--timeline <FILE>' would write over the program";

/// What is told of a picture that would take the place of a schedule.
const SCHEDULE_DRAWN_OVER: &str = "the argument '--timeline <FILE>' would write over the schedule";

/// A file that a run writes.
#[derive(Clone, Copy, Debug, PartialEq, Eq)]
pub enum OutputFile {
    /// The record of its schedule.
    Record,
    /// Its picture.
    Picture,
}

/// What is told of such a file that would take the place of the program.
pub(crate) fn overwriting(written: OutputFile) -> &'static str {
    match written {
        OutputFile::Record => OVERWRITTEN,
        OutputFile::Picture => PROGRAM_DRAWN_OVER,
    }
}

/// Whether a flag stands in the words of the matches.
fn is_set(matches: &ArgMatches<'_>, name: &str) -> bool
    ensures { result ≡ spec.is_set (first_value (found_of matches.now) name.now) }
{
    match matches.get_str(name) {
        Some(text) => text == "true",
        None => false,
    }
}

/// Whether the words of the matches say how a run is made, or record it.
fn makes_otherwise(matches: &ArgMatches<'_>) -> bool
    ensures { result ≡ spec.makes_otherwise (first_value (found_of matches.now)) }
{
    is_set(matches, "plain")
        || matches.get_str("record").is_some()
        || matches.get_str("explore").is_some()
        || matches.get_str("entries").is_some()
}

/// Whether the words of the matches ask for what is told of a whole run, or bound it.
fn tells_whole(matches: &ArgMatches<'_>) -> bool
    ensures { result ≡ spec.tells_whole (first_value (found_of matches.now)) }
{
    is_set(matches, "stream")
        || is_set(matches, "where")
        || is_set(matches, "stats")
        || matches.get_str("output").is_some()
        || matches.get_str("timeline").is_some()
}

/// Whether all orders are asked for in the words of the matches.
pub(crate) fn explores_all(matches: &ArgMatches<'_>) -> bool
    ensures { result ≡ spec.is_all (first_value (found_of matches.now) (codes "explore")) }
{
    match matches.get_str("explore") {
        Some(text) => text == "all",
        None => false,
    }
}

/// What is told where a bound stands in the words of the matches without what it bounds, or beside
/// another that it can't be used with.
fn misbounded(matches: &ArgMatches<'_>) -> Option<&'static str>
    ensures { is_some result ≡ spec.misbounds (first_value (found_of matches.now)) }
{
    let bounds_cuts = matches.get_str("cuts").is_some();
    if bounds_cuts && !explores_all(matches) {
        return Some(CUTS_ALONE);
    }
    if matches.get_str("runs").is_some() && !bounds_cuts {
        return Some(RUNS_ALONE);
    }
    matches.get_str("worlds")?;
    if bounds_cuts {
        return Some(WORLDS_EXCLUDED);
    }
    if explores_all(matches) {
        None
    } else {
        Some(WORLDS_ALONE)
    }
}

/// What is told where the words of the matches ask for many runs, and for what a single one alone
/// has.
fn beside_many(matches: &ArgMatches<'_>) -> Option<&'static str>
    ensures { is_some result ≡ (is_some (first_value (found_of matches.now) (codes "explore"))
        && spec.tells_single (first_value (found_of matches.now))) }
{
    matches.get_str("explore")?;
    if is_set(matches, "stream") {
        return Some(STREAM_EXCLUDED);
    }
    if is_set(matches, "where") {
        return Some(WHERE_EXCLUDED);
    }
    if matches.get_str("timeline").is_some() {
        return Some(TIMELINE_EXCLUDED);
    }
    None
}

/// What is told where something is given in the words of the matches beside what it can't be used
/// with.
fn excluded(matches: &ArgMatches<'_>) -> Option<&'static str>
    ensures { is_some result ≡ spec.excludes (first_value (found_of matches.now)) }
{
    let replays = matches.get_str("replay").is_some();
    if replays && makes_otherwise(matches) {
        return Some(REPLAY_EXCLUDED);
    }
    if let Some(text) = beside_many(matches) {
        return Some(text);
    }
    if matches.get_str("at").is_none() {
        return None;
    }
    if !replays {
        return Some(AT_ALONE);
    }
    if tells_whole(matches) {
        return Some(AT_EXCLUDED);
    }
    None
}

/// What is told where something in the words of the matches can't be used with what stands there, or
/// without what doesn't.
pub(crate) fn misused(matches: &ArgMatches<'_>) -> Option<&'static str>
    ensures { is_some result ≡ (spec.excludes (first_value (found_of matches.now))
        || spec.misbounds (first_value (found_of matches.now))) }
{
    match excluded(matches) {
        Some(text) => Some(text),
        None => misbounded(matches),
    }
}

/// Whether a text is a number in decimal, of any size.
fn is_number(text: &[u8]) -> bool
    ensures { result ≡ spec.is_number text.now }
{
    for byte in text {
        if !byte.is_ascii_digit() {
            return false;
        }
    }
    !text.is_empty()
}

/// Whether a text is a full stop and a number.
fn is_extension(text: &[u8]) -> bool
    ensures { result ≡ spec.is_extension text.now }
{
    match text {
        [b'.', number @ ..] => is_number(number),
        _ => false,
    }
}

/// Whether a name is that of the record of an ending, where such names begin with `prefix`.
fn is_numbered(name: &str, prefix: &str) -> bool
    ensures { result ≡ spec.is_numbered prefix.now name.now }
{
    let (name, prefix) = (name.as_bytes(), prefix.as_bytes());
    name.starts_with(prefix) && is_extension(&name[prefix.len()..])
}

/// Whether a record that is asked for in the words of the matches takes the place of the program.
fn is_overwritten(matches: &ArgMatches<'_>) -> bool
    ensures { result ≡ spec.overwrites (first_value (found_of matches.now) (codes "record"))
        (first_value (found_of matches.now) (codes "explore"))
        (first_value (found_of matches.now) (codes "FILE")) }
{
    let (Some(record), Some(file)) = (matches.get_str("record"), matches.get_str("FILE")) else {
        return false;
    };
    if matches.get_str("explore").is_some() {
        is_numbered(file, record)
    } else {
        file == record
    }
}

/// Whether two names are the same.
fn is_same(one: Option<&str>, other: Option<&str>) -> bool
    ensures { result ≡ spec.is_same (option_map (λ name. name.now) one.entry)
        (option_map (λ name. name.now) other.entry) }
{
    match (one, other) {
        (Some(one), Some(other)) => one == other,
        _ => false,
    }
}

/// What is told where a picture that is asked for in the words of the matches takes the place of a
/// file that is read or written too.
fn drawn_over(matches: &ArgMatches<'_>) -> Option<&'static str>
    ensures { is_some result ≡ spec.draws_over (first_value (found_of matches.now)) }
{
    let timeline = matches.get_str("timeline");
    if is_same(timeline, matches.get_str("FILE")) {
        return Some(PROGRAM_DRAWN_OVER);
    }
    if is_same(timeline, matches.get_str("record")) {
        return Some(SCHEDULE_DRAWN_OVER);
    }
    if is_same(timeline, matches.get_str("replay")) {
        return Some(SCHEDULE_DRAWN_OVER);
    }
    None
}

/// What is told where a file that is asked for in the words of the matches takes the place of
/// another that is named there.
pub(crate) fn overwritten_in(matches: &ArgMatches<'_>) -> Option<&'static str>
    ensures { is_some result ≡ spec.overwrites_any (first_value (found_of matches.now)) }
{
    if is_overwritten(matches) {
        return Some(OVERWRITTEN);
    }
    drawn_over(matches)
}
