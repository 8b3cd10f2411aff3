//! The answer to a command: what is told, and behind which step one then stands.

ghost use Rattle.std.specs.Prelude.{◌≡◌, ◌+◌, List, min, IfOk};
ghost use Rattle.ps_states.specs.Waits.{waits_text};
ghost use Rattle.ps_debug.specs.Answers.{AreLinesOf, IsForth, IsReply, IsStanding, IsStateOf, steps_in, walk_of, world_in};
ghost use Rattle.ps_debug.specs.Answers as answers;
ghost use Rattle.ps_debug.specs.Commands.{command_of, sought_of};

use crate::commands::Command;
use ps_ctx::deeds::Deeds;
use ps_ctx::makers::Makers;
use ps_language::schedules::Entry;
use ps_run_schedules::{Entries, steps_of};
use ps_states::{Sought, StepCount};
use ps_step_interpreter::interprets::Interpret;
use ps_views::{append, append_number};
use ps_walks::{Rerun, StepRange, WalkFault, find_step, state_of, step_lines_of, waits_of};
use std::alloc::{AllocError, Global};

/// What is told where one goes on from the end, or back to the start.
const AT_END: &[u8] = b"the end\n";

const AT_START: &[u8] = b"the start\n";

/// What is told where no further step is such as is sought.
const NONE_FURTHER: &[u8] = b"none further\n";

/// The commands.
const HELP: &[u8] = b"s [N]   N steps on, or one: a line each\n\
b [N]   N steps back, or one\n\
g N     to behind step N; g 0 goes to the start\n\
u WORD  on, to behind the next step that does WORD or stands at LINE:COLUMN\n\
e       on, to behind the next step that raises an error\n\
p       the state\n\
w       which contexts may go on, and what the others wait for\n\
h       these commands\n\
q       ends, as the end of the input does\n\
An empty line is the last command again.\n";

/// A run that can be walked: how it is made, and its schedule.
#[derive(Drop)]
pub struct Walkable<'a, S: Drop, D: Drop> {
    pub run: Rerun<'a, S, D>,
    pub schedule: &'a [Entry],
}

impl<'a, S: Interpret + Clone + Drop, D: Deeds + Clone + Drop> Walkable<'a, S, D> {
    /// How many steps there are, up to 18,446,744,073,709,551,615.
    pub(crate) fn steps(&self) -> u64
        ensures { result ≡ steps_in (walk_of self.now) }
    {
        steps_of(Entries::of(self.schedule))
    }

    /// How it is made, once more. Fails where a growth is refused.
    fn again(&self) -> Result<Rerun<'a, S, D>, AllocError>
        ensures program { IfOk result (λ run. run.program.now ≡ self.now.run.program.now) }
        ensures file { IfOk result (λ run. run.file.now ≡ self.now.run.file.now) }
    {
        let makers = Makers {
            steps: self.run.makers.steps.clone()?,
            operators: self.run.makers.operators.clone()?,
        };
        Ok(Rerun {
            makers,
            program: self.run.program,
            setup: self.run.setup,
            file: self.run.file,
        })
    }

    /// The lines of steps.
    fn lines(&self, alloc: Global, range: StepRange) -> Result<Vec<u8>, WalkFault>
        ensures { IfOk result
            (λ text. AreLinesOf (walk_of self.now) range.past range.last text.items) }
    {
        step_lines_of(alloc, self.again()?, self.schedule, range)
    }

    /// The line of the step behind which one stands.
    fn standing(&self, alloc: Global, step: u64) -> Result<Vec<u8>, WalkFault>
        ensures { IfOk result (λ text. IsStanding (walk_of self.now) step text.items) }
    {
        if step == 0 {
            return words(alloc, AT_START);
        }
        let range = StepRange {
            past: step - 1,
            last: step,
        };
        self.lines(alloc, range)
    }

    /// The state behind a step.
    fn state(&self, alloc: Global, step: u64) -> Result<Vec<u8>, WalkFault>
        ensures { IfOk result (λ text. IsStateOf (walk_of self.now) step text.items) }
    {
        let count = StepCount {
            step,
            steps: self.steps(),
        };
        state_of(alloc, self.again()?, Entries::of(self.schedule), count)
    }

    /// Which contexts may go on behind a step, and what the others wait for.
    fn waits(&self, alloc: Global, step: u64) -> Result<Vec<u8>, WalkFault>
        ensures { IfOk result
            (λ text. text.items ≡ waits_text (world_in (walk_of self.now) step)) }
    {
        waits_of(alloc, self.again()?, Entries::of(self.schedule), step)
    }
}

/// What is told, and behind which step one then stands.
#[derive(Drop)]
pub(crate) struct Reply {
    pub(crate) text: Vec<u8>,
    pub(crate) step: u64,
}

/// A text of these bytes.
pub(crate) fn words(alloc: Global, bytes: &[u8]) -> Result<Vec<u8>, WalkFault>
    ensures { IfOk result (λ text. text.items ≡ bytes.now) }
{
    let mut text = Vec::new(alloc);
    text.extend_from_slice(bytes)?;
    Ok(text)
}

/// Behind which step one stands so many steps on, where there are so many in all.
fn step_on(step: u64, more: u64, steps: u64) -> u64
    ensures { result ≡ min steps (step + more) }
{
    step.saturating_add(more).min(steps)
}

/// The lines of the steps from one to another, if there are any.
fn forth<S: Interpret + Clone + Drop, D: Deeds + Clone + Drop>(
    alloc: Global,
    walk: &Walkable<'_, S, D>,
    step: u64,
    last: u64,
) -> Result<Vec<u8>, WalkFault>
    ensures { IfOk result (λ text. IsForth (walk_of walk.now) step last text.items) }
{
    if last <= step {
        return words(alloc, AT_END);
    }
    walk.lines(alloc, StepRange { past: step, last })
}

/// Goes so many steps on, or as many as are left.
fn go_forth<S: Interpret + Clone + Drop, D: Deeds + Clone + Drop>(
    alloc: Global,
    walk: &Walkable<'_, S, D>,
    step: u64,
    more: u64,
) -> Result<Reply, WalkFault>
    ensures { IfOk result (λ reply. IsReply (walk_of walk.now) step (answers.forward more)
        reply.text.items reply.step) }
{
    let last = step_on(step, more, walk.steps());
    let text = forth(alloc, walk, step, last)?;
    Ok(Reply { text, step: last })
}

/// That there is no such step.
fn no_step(alloc: Global, steps: u64) -> Result<Vec<u8>, WalkFault>
    ensures { IfOk result (λ text. text.items ≡ answers.no_step steps) }
{
    let mut text = Vec::new(alloc);
    append(b"no such step: the last one is ", &mut text)?;
    append_number(steps, &mut text)?;
    append(b"\n", &mut text)?;
    Ok(text)
}

/// Goes to behind a step, if there are so many.
fn go_to<S: Interpret + Clone + Drop, D: Deeds + Clone + Drop>(
    alloc: Global,
    walk: &Walkable<'_, S, D>,
    step: u64,
    to: u64,
) -> Result<Reply, WalkFault>
    ensures { IfOk result (λ reply. IsReply (walk_of walk.now) step (answers.go_to to)
        reply.text.items reply.step) }
{
    let steps = walk.steps();
    if steps < to {
        let text = no_step(alloc, steps)?;
        return Ok(Reply { text, step });
    }
    let text = walk.standing(alloc, to)?;
    Ok(Reply { text, step: to })
}

/// Goes to behind the next step that is such as is sought, if there is one.
fn seek<S: Interpret + Clone + Drop, D: Deeds + Clone + Drop>(
    alloc: Global,
    walk: &Walkable<'_, S, D>,
    step: u64,
    sought: Sought<'_>,
) -> Result<Reply, WalkFault>
    ensures { IfOk result (λ reply. IsReply (walk_of walk.now) step
        (answers.until (sought_of sought.entry)) reply.text.items reply.step) }
{
    let found = find_step(alloc, walk.again()?, walk.schedule, step, sought)?;
    let Some(at) = found else {
        let text = words(alloc, NONE_FURTHER)?;
        return Ok(Reply { text, step });
    };
    let text = walk.standing(alloc, at)?;
    Ok(Reply { text, step: at })
}

/// Carries out a command behind a step.
pub(crate) fn reply_to<S: Interpret + Clone + Drop, D: Deeds + Clone + Drop>(
    alloc: Global,
    walk: &Walkable<'_, S, D>,
    step: u64,
    command: Command<'_>,
) -> Result<Reply, WalkFault>
    ensures { IfOk result (λ reply. IsReply (walk_of walk.now) step (command_of command.entry)
        reply.text.items reply.step) }
{
    match command {
        Command::Forward(more) => go_forth(alloc, walk, step, more),
        Command::Back(fewer) => {
            let behind = step.saturating_sub(fewer);
            let text = walk.standing(alloc, behind)?;
            Ok(Reply { text, step: behind })
        }
        Command::GoTo(to) => go_to(alloc, walk, step, to),
        Command::Until(sought) => seek(alloc, walk, step, sought),
        Command::State => {
            let text = walk.state(alloc, step)?;
            Ok(Reply { text, step })
        }
        Command::Waits => {
            let text = walk.waits(alloc, step)?;
            Ok(Reply { text, step })
        }
        Command::Help => {
            let text = words(alloc, HELP)?;
            Ok(Reply { text, step })
        }
        Command::Quit => Ok(Reply {
            text: Vec::new(alloc),
            step,
        }),
    }
}
