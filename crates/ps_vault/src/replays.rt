//! A run under a given schedule (PLRM2, 3.5, 7.1).

ghost use Rattle.std.specs.Prelude.{◌≡◌, ◌≢◌, ◌+◌, ◌<◌, ◌≤◌, ◌++◌, ◌&&◌, ◌==◌, ℕ, List, length, true, false, not, replicate, IfOk, OnErr, Err};
ghost use Rattle.ps_language.specs.declared.schedules.Entry.{Entry as EntryOf};
ghost use Rattle.ps_language.specs.Locks as locks;
ghost use Rattle.ps_language.specs.Schedules.{last_move, plain_move, moves_of, moves, count_of, Begins};
ghost use Rattle.ps_language.specs.Worlds as worlds;
ghost use Rattle.ps_language.specs.Worlds.{after_moves};
ghost use Rattle.ps_run_schedules.specs.Turns.{added_times};
ghost use Rattle.ps_vault.specs.Holds.{is_held_up};
ghost use Rattle.ps_vault.specs.Reports.{EndsAs, IsCutOf, IsReplayOf, MayWant, MayWantNext, UnderPart, entry_of, is_memory};
ghost use Rattle.ps_vault.specs.Screens.{HasShown, ShowsOn};
ghost use Rattle.ps_vault.specs.Stories.{world_at};

use crate::jobs::Task;
use crate::reports::{Outcome, Report, Room, RunFault};
use crate::schedules::is_ordinary;
use crate::screens::{NoViewer, Screen, Viewer};
use crate::vaults::{Advanced, Vault};
use ps_ctx::deeds::Deeds;
use ps_ctx::notes::Note;
use ps_language::schedules::Entry;
use ps_mem::marked::{Marked, plain_with_marks};
use ps_mem::plain::PlainMemory;
use ps_run_schedules::Schedule;
use ps_step_interpreter::interprets::Interpret;
use std::alloc::Global;

/// The most steps of a context before a viewer is shown what they printed.
const UNSEEN_STEPS: u32 = 65536;

/// Makes ordinary steps of a context, at most so many, as long as it is ready, whether or not its
/// turn would end; a `vmstatus` in them is shown zeros. Fewer, and none held up: the context isn't
/// ready, or the viewer could not be shown what was printed. Held up: fewer, and the next may want
/// memory, whatever room the schedule has.
fn steps<S: Interpret + Drop, D: Deeds + Drop, V: Viewer + Drop>(
    vault: &mut Vault<Marked<PlainMemory>, S, D>,
    context: u32,
    most: u32,
    screen: &mut Screen<V>,
) -> Advanced
    requires calling { vault.old.caller ≡ None }
    requires room { length vault.old.schedule + 3 ≤ vault.old.capacity }
    requires few { length vault.old.schedule + 3 ≤ vault.old.most.entries }
    requires fits { screen.old.shown ≤ length (world_at vault.old).printed }
    requires going { screen.old.failed ≡ false }
    ensures program { vault.new.program ≡ vault.old.program }
    ensures most { vault.new.most ≡ vault.old.most }
    ensures within { result.made ≤ most }
    ensures added { vault.new.schedule
        ≡ added_times result.made vault.old.schedule (plain_move context) }
    ensures longer { length vault.new.schedule ≤ length vault.old.schedule + 1 }
    ensures world { world_at vault.new
        ≡ after_moves (world_at vault.old) (replicate result.made (plain_move context)) }
    ensures capacity { vault.old.capacity ≤ vault.new.capacity }
    ensures calling_on { is_held_up result.told ≡ false → vault.new.caller ≡ None }
    ensures unready { is_held_up result.told ≡ false → result.made < most
        → screen.new.failed ≡ false → locks.is_ready (world_at vault.new) context ≡ false }
    ensures fewer { is_held_up result.told ≡ true → result.made < most }
    ensures starved { is_held_up result.told ≡ true
        → MayWant S.asks true context false (world_at vault.new) }
    ensures fits { screen.new.shown ≤ length (world_at vault.new).printed }
    ensures shown { ShowsOn screen.old (world_at vault.old).printed screen.new
        (world_at vault.new).printed }
    ensures cut { screen.new.failed ≡ true → is_held_up result.told ≡ false }
    ensures still { screen.old.watching ≡ false → screen.new ≡ screen.old }
{
    let mut made = 0;
    while made < most && vault.is_ready(context) {
        let advanced = vault.advance(context, UNSEEN_STEPS.min(most - made), false);
        made += advanced.made;
        match advanced.told {
            Ok(_) => {}
            Err(reason) => return Advanced {
                made,
                told: Err(reason),
            },
        }
        if !vault.show_printed(screen) {
            return Advanced {
                made,
                told: Ok(Note::Nothing),
            };
        }
    }
    Advanced {
        made,
        told: Ok(Note::Nothing),
    }
}

/// Makes the steps of an entry that are all ordinary ones, as far as memory goes and the viewer can
/// be shown what is printed, and tells how many were made; those of a context that isn't ready are
/// counted and change nothing.
fn follow_ordinary<S: Interpret + Drop, D: Deeds + Drop, V: Viewer + Drop>(
    vault: &mut Vault<Marked<PlainMemory>, S, D>,
    entry: Entry,
    screen: &mut Screen<V>,
) -> u32
    requires calling { vault.old.caller ≡ None }
    requires room { length vault.old.schedule + 3 ≤ vault.old.capacity }
    requires few { length vault.old.schedule + 3 ≤ vault.old.most.entries }
    requires fits { screen.old.shown ≤ length (world_at vault.old).printed }
    requires going { screen.old.failed ≡ false }
    requires ordinary { last_move entry ≡ plain_move entry.context }
    ensures program { vault.new.program ≡ vault.old.program }
    ensures most { vault.new.most ≡ vault.old.most }
    ensures longer { length vault.new.schedule ≤ length vault.old.schedule + 1 }
    ensures capacity { vault.old.capacity ≤ vault.new.capacity }
    ensures within { result ≤ entry.steps }
    ensures all { result ≡ entry.steps
        → world_at vault.new ≡ after_moves (world_at vault.old) (moves_of entry entry.steps) }
    ensures calling_on { result ≡ entry.steps → vault.new.caller ≡ None }
    ensures part { result < entry.steps
        → world_at vault.new ≡ after_moves (world_at vault.old)
        (replicate result (plain_move entry.context)) }
    ensures starved { result < entry.steps → screen.new.failed ≡ false
        → MayWant S.asks true entry.context false (world_at vault.new) }
    ensures fits { screen.new.shown ≤ length (world_at vault.new).printed }
    ensures shown { ShowsOn screen.old (world_at vault.old).printed screen.new
        (world_at vault.new).printed }
    ensures cut { screen.new.failed ≡ true → vault.new.caller ≡ None }
    ensures still { screen.old.watching ≡ false → screen.new ≡ screen.old }
{
    let turn = steps(vault, entry.context, entry.steps, screen);
    if turn.is_held_up() || screen.has_failed() {
        return turn.made;
    }
    entry.steps
}

/// Makes the steps of an entry, of which the last may be refused and may show a pair, as far as
/// memory goes and the viewer can be shown what is printed, and tells how many were made; a step of
/// a context that isn't ready is counted and changes nothing, nor do those behind it in the entry.
fn follow_entry<S: Interpret + Drop, D: Deeds + Drop, V: Viewer + Drop>(
    vault: &mut Vault<Marked<PlainMemory>, S, D>,
    entry: Entry,
    screen: &mut Screen<V>,
) -> u32
    requires calling { vault.old.caller ≡ None }
    requires room { length vault.old.schedule + 3 ≤ vault.old.capacity }
    requires few { length vault.old.schedule + 3 ≤ vault.old.most.entries }
    requires fits { screen.old.shown ≤ length (world_at vault.old).printed }
    requires going { screen.old.failed ≡ false }
    ensures program { vault.new.program ≡ vault.old.program }
    ensures most { vault.new.most ≡ vault.old.most }
    ensures longer { length vault.new.schedule ≤ length vault.old.schedule + 2 }
    ensures capacity { vault.old.capacity ≤ vault.new.capacity }
    ensures within { result ≤ entry.steps }
    ensures all { result ≡ entry.steps
        → world_at vault.new ≡ after_moves (world_at vault.old) (moves_of entry entry.steps) }
    ensures calling_on { result ≡ entry.steps → vault.new.caller ≡ None }
    ensures part { result < entry.steps
        → world_at vault.new ≡ after_moves (world_at vault.old)
        (replicate result (plain_move entry.context)) }
    ensures starved { result < entry.steps → screen.new.failed ≡ false
        → MayWant S.asks true entry.context
        (entry.refused && (result + 1 == entry.steps)) (world_at vault.new) }
    ensures fits { screen.new.shown ≤ length (world_at vault.new).printed }
    ensures shown { ShowsOn screen.old (world_at vault.old).printed screen.new
        (world_at vault.new).printed }
    ensures cut { screen.new.failed ≡ true → vault.new.caller ≡ None }
    ensures still { screen.old.watching ≡ false → screen.new ≡ screen.old }
{
    if is_ordinary(&entry) {
        return follow_ordinary(vault, entry, screen);
    }
    if entry.steps == 0 || !vault.is_ready(entry.context) {
        return entry.steps;
    }
    let ordinary = entry.steps - 1;
    let before = steps(vault, entry.context, ordinary, screen);
    if before.is_held_up() || screen.has_failed() {
        return before.made;
    }
    if !vault.is_ready(entry.context) {
        return entry.steps;
    }
    match vault.step(entry.context, entry.refused, entry.shown) {
        Ok(()) => entry.steps,
        Err(_) => ordinary,
    }
}

/// Runs the steps of a schedule, over memory that is never collected. A step of a context that isn't
/// ready changes nothing.
///
/// The report has the given schedule; where a growth was refused, or more than it may print was to
/// be printed, the outcome is `Memory` and the report has the steps that were made, fewer than the
/// given ones: the next of those may want a growth. The fault is `Memory` where the room that the run
/// starts with can't be had; there is no other.
pub fn replay<S: Interpret + Drop, D: Deeds + Drop>(
    alloc: Global,
    task: Task<'_, S, D>,
    schedule: &[Entry],
) -> Result<Report, RunFault>
    ensures fault { result ≢ Err RunFault.Config }
    ensures prints { IfOk result
        (λ report. report.printed.items ≡ worlds.printed task.entry.program.now
        report.schedule.items) }
    ensures bounded { IfOk result (λ report. length report.printed.items ≤ task.entry.setup.output) }
    ensures begins { IfOk result (λ report. Begins report.schedule.items schedule.now) }
    ensures whole { IfOk result
        (λ report. is_memory report.outcome ≡ false → report.schedule.items ≡ schedule.now) }
    ensures refused { IfOk result
        (λ report. is_memory report.outcome ≡ true
        → count_of report.schedule.items < count_of schedule.now) }
    ensures cut { IfOk result (λ report. IsCutOf schedule.now report.schedule.items) }
    ensures ends { IfOk result
        (λ report. EndsAs (worlds.world task.entry.program.now report.schedule.items)
        (not (is_memory report.outcome))
        (MayWantNext S.asks task.entry.program.now schedule.now report.schedule.items)
        report.outcome) }
    ensures flips { IfOk result (λ report. report.flips ≡ 0) }
    ensures taken { IfOk result (λ report. report.taken ≡ 0) }
{
    let mut screen = Screen::new(NoViewer);
    replay_shown(alloc, task, schedule, &mut screen)
}

/// As `replay`, but that who watches is shown what is printed, behind each entry and now and then in
/// a long one. Where that fails the run is cut: it follows the steps that were made.
pub fn replay_shown<S: Interpret + Drop, D: Deeds + Drop, V: Viewer + Drop>(
    alloc: Global,
    task: Task<'_, S, D>,
    schedule: &[Entry],
    screen: &mut Screen<V>,
) -> Result<Report, RunFault>
    requires nothing { screen.old.shown ≡ 0 }
    requires going { screen.old.failed ≡ false }
    ensures fault { result ≢ Err RunFault.Config }
    ensures run { IfOk result (λ report. UnderPart screen.new.failed schedule.now
        (λ part. IsReplayOf S.asks task.entry.program.now part report)) }
    ensures shown { IfOk result
        (λ report. HasShown screen.old.seen screen.new report.printed.items) }
    ensures unshown { OnErr result (screen.new ≡ screen.old) }
    ensures still { screen.old.watching ≡ false → screen.new ≡ screen.old }
    ensures bounded { IfOk result (λ report. length report.printed.items ≤ task.entry.setup.output) }
{
    let Some(twice) = schedule.len().checked_mul(2) else {
        return Err(RunFault::Memory);
    };
    let Some(entries) = twice.checked_add(1) else {
        return Err(RunFault::Memory);
    };
    let memory = plain_with_marks(alloc);
    let room = Room {
        first: entries,
        most: entries as u64,
    };
    let Ok(mut vault) = Vault::new(alloc, memory, task, room) else {
        return Err(RunFault::Memory);
    };
    let Ok(mut followed) = Schedule::with_capacity(alloc, entries, entries as u64) else {
        return Err(RunFault::Memory);
    };
    for place in 0..schedule.len() {
        let entry = schedule[place];
        let made = follow_entry(&mut vault, entry, screen);
        if made < entry.steps {
            let outcome = cut_outcome(&mut vault, screen.has_failed());
            push_part(&mut followed, entry.context, made);
            return Ok(report_of(vault.into_printed(), followed, outcome));
        }
        followed.push(entry);
        if screen.has_failed() {
            let outcome = vault.outcome(true);
            return Ok(report_of(vault.into_printed(), followed, outcome));
        }
    }
    let outcome = vault.outcome(true);
    Ok(report_of(vault.into_printed(), followed, outcome))
}

/// How a run ended in an entry: for want of memory, or, where its viewer failed, as its world tells.
fn cut_outcome<S: Interpret + Drop, D: Deeds + Drop>(
    vault: &mut Vault<Marked<PlainMemory>, S, D>,
    failed: bool,
) -> Outcome
    requires calling { failed ≡ true → vault.old.caller ≡ None }
    ensures same { vault.new ≡ vault.old }
    ensures ended { failed ≡ true → EndsAs (world_at vault.old) true ⊥ result }
    ensures memory { is_memory result ≡ not failed }
{
    if failed {
        return vault.outcome(true);
    }
    Outcome::Memory
}

/// Pushes an entry of so many ordinary steps, if there are any.
#[tactic(auto, using(crate::proofs::Following::part_lemmas))]
fn push_part(schedule: &mut Schedule, context: u32, made: u32)
    requires room { length schedule.old.items < schedule.old.capacity }
    requires few { 1 ≤ schedule.old.left }
    ensures moves { moves schedule.new.items ≡ moves schedule.old.items
        ++ replicate made (plain_move context) }
    ensures entry { schedule.new.items ≡ schedule.old.items ++ entry_of context made }
{
    if made > 0 {
        schedule.push(Entry {
            context,
            steps: made,
            refused: false,
            shown: None,
        });
    }
}

/// The report of a run without a collector.
fn report_of(printed: Vec<u8>, schedule: Schedule, outcome: Outcome) -> Report
    ensures printed { result.printed ≡ printed }
    ensures schedule { result.schedule ≡ schedule }
    ensures outcome { result.outcome ≡ outcome }
    ensures flips { result.flips ≡ 0 }
    ensures taken { result.taken ≡ 0 }
{
    Report {
        printed,
        schedule,
        outcome,
        flips: 0,
        taken: 0,
    }
}
