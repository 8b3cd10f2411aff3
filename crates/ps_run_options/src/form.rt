//! The form of a command line: its options, by the rules of `clap`.

ghost use Rattle.std.specs.Prelude.{◌≡◌, false, codes, IfOk};
ghost use Rattle.clap.specs.Words.{app_of, rule_of, with_rule};
ghost use Rattle.ps_run_options.specs.CommandLine as spec;

use crate::options::VERSION;
use clap::builder::ValueParser;
use clap::{Arg, ArgAction, Command};
use std::alloc::{AllocError, Global};

/// The forms of a command line, as the help and the faults show them.
const USAGE: &str = "dpsrun [OPTIONS] <FILE>\n       dpsrun [OPTIONS] -e <TEXT>";

/// What the help says behind all options.
const UNITS: &str =
    "The N of --space, --steps, --output, --entries, --explore, --runs, --worlds and \
    --at may end in k, m or g: 1,024, its square or its cube.";

/// The command line's form. Numbers out of their ranges are refused; an option may be given once.
pub(crate) fn command<'a>(alloc: Global) -> Result<Command<'a>, AllocError>
    ensures { IfOk result (λ made. app_of made ≡ spec.command_line) }
{
    let command = described(Command::new(alloc, "dpsrun"))
        .version(VERSION)
        .no_binary_name(true);
    let sized = with_sizes(alloc, with_program(alloc, command)?)?;
    let numbered = with_limits(alloc, sized)?;
    with_schedules(alloc, with_flags(alloc, numbered)?)
}

/// The command with what its help says around the options.
fn described<'a>(command: Command<'a>) -> Command<'a>
    ensures { app_of result ≡ app_of command.entry }
{
    command
        .about("Runs a program in the PostScript language.")
        .override_usage(USAGE)
        .after_help(UNITS)
}

/// The numbers of memory and threads.
fn with_sizes<'a>(alloc: Global, command: Command<'a>) -> Result<Command<'a>, AllocError>
    ensures { IfOk result (λ made. app_of made ≡ spec.with_sizes (app_of command.entry)) }
{
    let space = number(alloc, "space", "65536", "words of a space of memory");
    let workers = number(alloc, "workers", "4", "threads that make steps");
    command.arg(space)?.arg(within(workers, 1, 32))
}

/// The numbers of steps, and those of bytes and entries.
fn with_limits<'a>(alloc: Global, command: Command<'a>) -> Result<Command<'a>, AllocError>
    ensures { IfOk result (λ made. app_of made ≡ spec.with_limits (app_of command.entry)) }
{
    let quantum = number(alloc, "quantum", "100", "most steps of a turn of a context");
    let steps = number(
        alloc,
        "steps",
        "1000000000",
        "most steps of the run; a second makes some 30 to 60 million",
    );
    let output = valued(
        alloc,
        "output",
        "N",
        "most bytes that the run may print; without it there is no bound",
    );
    let entries = valued(
        alloc,
        "entries",
        "N",
        "most entries of the run's schedule; without it there is no bound; not with --replay",
    );
    command
        .arg(within(quantum, 1, 65535))?
        .arg(steps)?
        .arg(output)?
        .arg(entries)
}

/// The options without a value.
fn with_flags<'a>(alloc: Global, command: Command<'a>) -> Result<Command<'a>, AllocError>
    ensures { IfOk result (λ made. app_of made ≡ spec.with_flags (app_of command.entry)) }
{
    command
        .arg(flag(alloc, "plain", "run over memory that is never collected"))?
        .arg(flag(
            alloc,
            "stats",
            "tell flips, records taken and steps at the end",
        ))?
        .arg(flag(
            alloc,
            "stream",
            "hand printed bytes on while the run goes on; not with --explore",
        ))?
        .arg(flag(
            alloc,
            "where",
            "tell where the error of each error line is; not with --explore",
        ))
}

/// The schedules: the files that have them, what is told of one, the file of a run's picture, and
/// which schedules are explored.
fn with_schedules<'a>(alloc: Global, command: Command<'a>) -> Result<Command<'a>, AllocError>
    ensures { IfOk result (λ made. app_of made ≡ spec.with_schedules (app_of command.entry)) }
{
    let record = valued(
        alloc,
        "record",
        "FILE",
        "write the schedule of the run to FILE; with --explore, those of the endings to FILE.1, \
            FILE.2, ..",
    );
    let replay = valued(
        alloc,
        "replay",
        "FILE",
        "make the steps of the schedule in FILE; not with --plain, --record, --explore or \
            --entries",
    );
    let at = valued(
        alloc,
        "at",
        "N",
        "write the state behind N steps of that schedule, or for N..M its steps N to M, a line each, \
            in place of what is printed; only with --replay",
    );
    let timeline = valued(
        alloc,
        "timeline",
        "FILE",
        "write a picture of the run to FILE, as SVG; not with --explore",
    );
    with_explored(
        alloc,
        command.arg(record)?.arg(replay)?.arg(at)?.arg(timeline)?,
    )
}

/// Which runs are explored, and the bounds of all orders.
fn with_explored<'a>(alloc: Global, command: Command<'a>) -> Result<Command<'a>, AllocError>
    ensures { IfOk result (λ made. app_of made ≡ spec.with_explored (app_of command.entry)) }
{
    let explore = valued(
        alloc,
        "explore",
        "N",
        "run the program under N schedules chosen by chance, or, where N is all, in each order of its \
            steps; tell how many endings there were",
    );
    let cuts = valued(
        alloc,
        "cuts",
        "N",
        "most cuts of an order of --explore all: steps of another context than whoever is due; without \
            it there is no bound, and each state is followed once",
    );
    let runs = valued(
        alloc,
        "runs",
        "N",
        "most runs of --explore all with --cuts; without it 1,000,000",
    );
    let worlds = valued(
        alloc,
        "worlds",
        "N",
        "most states of --explore all without --cuts; without it 100,000",
    );
    command.arg(explore)?.arg(cuts)?.arg(runs)?.arg(worlds)
}

/// The program: its text, or its file.
fn with_program<'a>(alloc: Global, command: Command<'a>) -> Result<Command<'a>, AllocError>
    ensures { IfOk result (λ made. app_of made ≡ spec.with_program (app_of command.entry)) }
{
    let text = Arg::new(alloc, "e")
        .short('e')
        .value_name("TEXT")
        .help("the program itself, in place of FILE");
    let file = Arg::new(alloc, "FILE").help("the program; '-' is standard input");
    command.arg(text)?.arg(file)
}

/// An option with a value, which the help calls `value`.
fn valued<'a>(alloc: Global, name: &'a str, value: &'a str, help: &'a str) -> Arg<'a>
    ensures rule { rule_of result ≡ spec.valued_rule name.entry.now }
    ensures local { result.global ≡ false }
{
    Arg::new(alloc, name)
        .long(name)
        .value_name(value)
        .help(help)
}

/// An option with a number, of any range, which is `default` where it is left out.
fn number<'a>(alloc: Global, name: &'a str, default: &'a str, help: &'a str) -> Arg<'a>
    ensures rule { rule_of result ≡ spec.option_rule name.entry.now default.entry.now }
    ensures local { result.global ≡ false }
{
    valued(alloc, name, "N", help).default_value(default)
}

/// The option, with a number from `least` to `most`.
fn within<'a>(option: Arg<'a>, least: u64, most: u64) -> Arg<'a>
    ensures rule { rule_of result ≡ spec.within (rule_of option.entry) least most }
    ensures local { result.global ≡ option.entry.global }
{
    option.value_parser(ValueParser::unsigned(least, most))
}

/// An option without a value.
fn flag<'a>(alloc: Global, name: &'a str, help: &'a str) -> Arg<'a>
    ensures rule { rule_of result ≡ spec.flag_rule name.entry.now }
    ensures local { result.global ≡ false }
{
    Arg::new(alloc, name)
        .long(name)
        .action(ArgAction::SetTrue)
        .help(help)
}
