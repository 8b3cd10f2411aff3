//! A run that is walked line by line.

ghost use Rattle.std.specs.Prelude.{◌≡◌, IfOk, option_map};
ghost use Rattle.ps_debug.specs.Answers.{walk_of};
ghost use Rattle.ps_debug.specs.Sessions as sessions;
ghost use Rattle.ps_debug.specs.Sessions.{IsAnswer, opening_text, session_of};

use crate::answers::{Walkable, reply_to, words};
use crate::commands::{Command, parse, trimmed};
use ps_ctx::deeds::Deeds;
use ps_step_interpreter::interprets::Interpret;
use ps_views::{append, append_number};
use ps_walks::WalkFault;
use std::alloc::{AllocError, Global};

/// What is told of a line that is no command.
const NO_COMMAND: &[u8] = b"no command; h tells them\n";

/// Behind which step of a run one stands, and the last line that was a command.
#[derive(Drop)]
pub struct Session {
    step: u64,
    last: Vec<u8>,
}

impl Session {
    /// At the start of a run, where an empty line makes a step. Fails where a growth is refused.
    pub fn new(alloc: Global) -> Result<Session, AllocError>
        ensures { IfOk result (λ session. session_of session ≡ sessions.first) }
    {
        let mut last = Vec::new(alloc);
        last.extend_from_slice(b"s")?;
        Ok(Session { step: 0, last })
    }

    /// What is told to a line; nothing where it ends the session. A line of blanks alone is the last
    /// command again. Where a line is no command, or fails, nothing changes but that it is told.
    ///
    /// The faults are those of `places_of` (ps_walks).
    pub fn answer<S: Interpret + Clone + Drop, D: Deeds + Clone + Drop>(
        &mut self,
        alloc: Global,
        walk: &Walkable<'_, S, D>,
        line: &[u8],
    ) -> Result<Option<Vec<u8>>, WalkFault>
        ensures { IfOk result (λ answer. IsAnswer (walk_of walk.now) (session_of self.old) line.now
            (option_map (λ text. text.items) answer) (session_of self.new)) }
    {
        if !trimmed(line).is_empty() {
            return self.obey(alloc, walk, line);
        }
        let mut last = Vec::new(alloc);
        last.extend_from_slice(self.last.as_slice())?;
        self.obey(alloc, walk, last.as_slice())
    }

    /// What is told to a line that isn't blank.
    fn obey<S: Interpret + Clone + Drop, D: Deeds + Clone + Drop>(
        &mut self,
        alloc: Global,
        walk: &Walkable<'_, S, D>,
        line: &[u8],
    ) -> Result<Option<Vec<u8>>, WalkFault>
        ensures { IfOk result (λ answer. sessions.IsObeyed (walk_of walk.now) (session_of self.old)
            line.now (option_map (λ text. text.items) answer) (session_of self.new)) }
    {
        let Some(command) = parse(line) else {
            return Ok(Some(words(alloc, NO_COMMAND)?));
        };
        if let Command::Quit = command {
            return Ok(None);
        }
        let reply = reply_to(alloc, walk, self.step, command)?;
        self.last.clear();
        self.last.extend_from_slice(line)?;
        self.step = reply.step;
        Ok(Some(reply.text))
    }
}

/// The first line: what the program's file is called, and how many steps the run has. Fails where a
/// growth is refused.
pub fn opening<S: Interpret + Clone + Drop, D: Deeds + Clone + Drop>(
    alloc: Global,
    walk: &Walkable<'_, S, D>,
) -> Result<Vec<u8>, AllocError>
    ensures { IfOk result (λ text. text.items ≡ opening_text (walk_of walk.now)) }
{
    let mut text = Vec::new(alloc);
    append(walk.run.file, &mut text)?;
    append(b": ", &mut text)?;
    append_number(walk.steps(), &mut text)?;
    append(b" steps\n", &mut text)?;
    Ok(text)
}
