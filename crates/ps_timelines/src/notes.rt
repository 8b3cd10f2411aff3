//! A lane that is told step by step what its context does.

ghost use Rattle.std.specs.Prelude.{◌≡◌, ◌<◌, ◌++◌, ◌∷◌, [], ℕ, Bool, List, length, replicate, take, OnOk};
ghost use Rattle.ps_timelines.specs.Moments.{Label, Show, away, labels_in, stretches};

use crate::columns::Interval;
use crate::lanes::{ErrorLabel, LABELS_SHOWN, Lane};
use crate::levels::LaneIntervals;
use crate::moments::{Moment, is_marked};
use crate::series::Series;
use std::alloc::{AllocError, Global};

/// Makes the last stretch longer by a step, where it ends at that and the step is marked; else a
/// step that is marked begins a stretch.
fn mark(is_marked: bool, step: u32, marked: &mut Vec<Interval>) -> Result<(), AllocError>
    requires { step < u32.MAX }
    ensures { (marks : List Bool) → length marks ≡ step → marked.old.items ≡ stretches 0 marks
        → OnOk result (marked.new.items ≡ stretches 0 (marks ++ is_marked ∷ [])) }
{
    if !is_marked {
        return Ok(());
    }
    let count = marked.len();
    if count != 0 && marked[count - 1].to == step {
        marked[count - 1].to = step + 1;
        return Ok(());
    }
    marked.push(Interval {
        from: step,
        to: step + 1,
    })?;
    Ok(())
}

impl LaneIntervals {
    /// Those of a context that did nothing yet, however many steps others made.
    pub fn new(alloc: Global) -> LaneIntervals
        ensures { (steps : ℕ) → Show result (replicate steps away) }
    {
        LaneIntervals {
            steps: Vec::new(alloc),
            ready: Vec::new(alloc),
            lock: Vec::new(alloc),
            condition: Vec::new(alloc),
            join: Vec::new(alloc),
            owner: Vec::new(alloc),
            print: Vec::new(alloc),
            error: Vec::new(alloc),
        }
    }

    /// Notes what the context does in the step behind so many.
    ///
    /// `AllocError`: a growth was refused; a part may be noted.
    pub fn note(&mut self, step: u32, moment: Moment) -> Result<(), AllocError>
        requires { step < u32.MAX }
        ensures { (moments : List Moment) → length moments ≡ step → Show self.old moments
            → OnOk result (Show self.new (moments ++ moment ∷ [])) }
    {
        mark(is_marked(Series::Ready, moment), step, &mut self.ready)?;
        mark(is_marked(Series::Lock, moment), step, &mut self.lock)?;
        mark(
            is_marked(Series::Condition, moment),
            step,
            &mut self.condition,
        )?;
        mark(is_marked(Series::Join, moment), step, &mut self.join)?;
        mark(is_marked(Series::Steps, moment), step, &mut self.steps)?;
        mark(is_marked(Series::Owner, moment), step, &mut self.owner)?;
        mark(is_marked(Series::Print, moment), step, &mut self.print)?;
        mark(is_marked(Series::Error, moment), step, &mut self.error)
    }
}

impl Lane {
    /// That of a context that did nothing yet.
    pub fn new(alloc: Global, context: u32) -> Lane
        ensures context { result.context ≡ context }
        ensures intervals { (steps : ℕ) → Show result.intervals (replicate steps away) }
        ensures labels { labels_in result.labels.items ≡ [] }
    {
        Lane {
            context,
            intervals: LaneIntervals::new(alloc),
            labels: Vec::new(alloc),
        }
    }

    /// Keeps what is told of an error in the step behind so many, among the first four.
    ///
    /// `AllocError`: a growth was refused, and nothing has changed.
    pub fn tell_error(&mut self, step: u32, text: Vec<u8>) -> Result<(), AllocError>
        ensures context { self.new.context ≡ self.old.context }
        ensures intervals { self.new.intervals ≡ self.old.intervals }
        ensures labels { (labels : List Label) → labels_in self.old.labels.items ≡ take 4 labels
            → OnOk result (labels_in self.new.labels.items
            ≡ take 4 (labels ++ record { step = step; text = text.items } ∷ [])) }
    {
        if self.labels.len() >= LABELS_SHOWN {
            return Ok(());
        }
        self.labels.push(ErrorLabel { step, text })?;
        Ok(())
    }
}
