//! The picture of a run: a lane for each context.

ghost use Rattle.std.specs.Prelude.{◌≡◌, ◌+◌, ◌<◌, ◌≤◌, ◌++◌, ◌∷◌, [], ℕ, List, IfOk, OnOk, length};
ghost use Rattle.ps_language.specs.Schedules.{Move, moves};
ghost use Rattle.ps_language.specs.World.{World as TheWorld};
ghost use Rattle.ps_language.specs.Worlds.{starting_world};
ghost use Rattle.ps_ctx_table.specs.Desks.{IsWorld};
ghost use Rattle.ps_ctx.specs.Calls.{over_of};
ghost use Rattle.ps_states.specs.Moments.{ArePresences, arrows_in, starts_in};
ghost use Rattle.ps_states.specs.declared.presences.Tie.TheVariants.{Joins, Notifies};
ghost use Rattle.ps_run_schedules.specs.Turns.{move_of};
ghost use Rattle.ps_timelines.specs.Pictures.{picture};
ghost use Rattle.ps_timelines.specs.declared.pictures.Timeline.{Timeline as Told};
ghost use Rattle.ps_walks.specs.Drawings.{IsDrawn};
ghost use Rattle.ps_walks.specs.Timelines.{IsTimelineOf};
ghost use Rattle.ps_walks.specs.Walks.{Stands, desk_in, walked, walked_all};

use crate::drawn::{Beat, grow_lanes, note_lanes};
use crate::singles::{Single, Singles};
use crate::walks::{Rerun, Walk, WalkFault, begin_walk};
use ps_ctx::deeds::Deeds;
use ps_ctx_table::contexts::Contexts;
use ps_mem::Memory;
use ps_ops_state::lent::Runtime;
use ps_run_schedules::Entries;
use ps_states::{
    Crowd, Outset, Presence, Related, Tie, end_of, outset_of, push_related, push_started,
    tell_presences,
};
use ps_step_interpreter::interprets::Interpret;
use ps_timelines::{Arrow, Lane, Timeline, append_picture};
use std::alloc::{AllocError, Global};

/// What is drawn of a run so far.
#[derive(Drop)]
pub(crate) struct Drawing {
    /// Of each context that was made, by rising identifiers.
    lanes: Vec<Lane>,
    /// How each of them stands.
    seen: Vec<Presence>,
    forks: Vec<Arrow>,
    joins: Vec<Arrow>,
    notifies: Vec<Arrow>,
}

/// The picture of a run as SVG, by its schedule and how it ended, in words: a lane for each context
/// that was ever made, as `append_picture` draws it.
///
/// `Memory`, `TooLarge`: as of `places_of`. `TooLarge` also: it has 4,294,967,295 steps or more.
pub fn timeline_of<S: Interpret + Drop, D: Deeds + Drop>(
    alloc: Global,
    run: Rerun<'_, S, D>,
    schedule: Entries<'_>,
    outcome: &[u8],
) -> Result<Vec<u8>, WalkFault>
    ensures { IfOk result (λ text. (told : Told) × IsTimelineOf run.entry.file.now outcome.now
        (starting_world run.entry.program.now) (moves schedule.entry) told
        × (text.items ≡ picture told)) }
{
    let file = run.file;
    let mut walk = begin_walk(alloc, run)?;
    let mut drawing = walk.begin_drawing(alloc)?;
    let steps = walk.draw_steps(alloc, Singles::of(schedule), &mut drawing)?;
    let told = Timeline {
        file,
        steps,
        outcome,
        lanes: drawing.lanes.as_slice(),
        forks: drawing.forks.as_slice(),
        joins: drawing.joins.as_slice(),
        notifies: drawing.notifies.as_slice(),
    };
    let mut text = Vec::new(alloc);
    append_picture(alloc, &told, &mut text)?;
    Ok(text)
}

/// Draws the arrows of a step, by what was known before it and what there is behind it, and tells
/// anew how the contexts stand.
fn draw_arrows<M: Memory>(
    step: u32,
    outset: Outset,
    contexts: &Contexts,
    runtime: &Runtime<M>,
    drawing: &mut Drawing,
) -> Result<(), AllocError>
    requires { length drawing.old.seen.items ≤ 2147483647 }
    ensures lanes { drawing.new.lanes ≡ drawing.old.lanes }
    ensures within { OnOk result (length drawing.new.seen.items ≤ 2147483647) }
    ensures seen { (after : TheWorld)
        → IsWorld (over_of M.heap M.grants runtime.now contexts.now) after
        → OnOk result (ArePresences drawing.new.seen.items after) }
    ensures forks { (after : TheWorld)
        → IsWorld (over_of M.heap M.grants runtime.now contexts.now) after
        → OnOk result (drawing.new.forks.items ≡ drawing.old.forks.items
        ++ starts_in step outset after) }
    ensures joins { (now after : TheWorld) → ArePresences drawing.old.seen.items now
        → IsWorld (over_of M.heap M.grants runtime.now contexts.now) after
        → OnOk result (drawing.new.joins.items ≡ drawing.old.joins.items
        ++ arrows_in Joins step outset.context now after) }
    ensures notifies { (now after : TheWorld) → ArePresences drawing.old.seen.items now
        → IsWorld (over_of M.heap M.grants runtime.now contexts.now) after
        → OnOk result (drawing.new.notifies.items ≡ drawing.old.notifies.items
        ++ arrows_in Notifies step outset.context now after) }
{
    push_started(step, outset, contexts, &mut drawing.forks)?;
    let joined = Related {
        tie: Tie::Joins,
        step,
        context: outset.context,
    };
    let notified = Related {
        tie: Tie::Notifies,
        step,
        context: outset.context,
    };
    let seen = drawing.seen.as_slice();
    push_related(joined, seen, contexts, runtime, &mut drawing.joins)?;
    push_related(notified, seen, contexts, runtime, &mut drawing.notifies)?;
    tell_presences(contexts, runtime, &mut drawing.seen)?;
    Ok(())
}

impl<M: Memory + Drop, S: Interpret + Drop, D: Deeds + Drop> Walk<'_, M, S, D> {
    /// What is drawn before the first step.
    fn begin_drawing(&self, alloc: Global) -> Result<Drawing, AllocError>
        ensures within { IfOk result (λ drawing. length drawing.seen.items ≤ 2147483647) }
        ensures drawn { (w : TheWorld)
            → IsWorld (desk_in M.heap M.grants self.now.runtime self.now.world) w
            → IfOk result (λ drawing. IsDrawn w [] drawing) }
    {
        let mut lanes = Vec::new(alloc);
        grow_lanes(alloc, self.world.contexts.table.made(), &mut lanes)?;
        let mut seen = Vec::new(alloc);
        tell_presences(&self.world.contexts, &self.runtime, &mut seen)?;
        Ok(Drawing {
            lanes,
            seen,
            forks: Vec::new(alloc),
            joins: Vec::new(alloc),
            notifies: Vec::new(alloc),
        })
    }

    /// Makes a step, and draws what all contexts do in it.
    fn draw_step(
        &mut self,
        alloc: Global,
        step: u32,
        single: Single,
        drawing: &mut Drawing,
    ) -> Result<(), WalkFault>
        requires stands { Stands M.heap M.grants self.old.runtime self.old.world }
        requires step { step < u32.MAX }
        requires within { length drawing.old.seen.items ≤ 2147483647 }
        ensures stands { OnOk result (Stands M.heap M.grants self.new.runtime self.new.world) }
        ensures within { OnOk result (length drawing.new.seen.items ≤ 2147483647) }
        ensures walked { OnOk result ((w : TheWorld)
            → IsWorld (desk_in M.heap M.grants self.old.runtime self.old.world) w
            → IsWorld (desk_in M.heap M.grants self.new.runtime self.new.world)
            (walked w (move_of single.context single.refused single.shown))) }
        ensures drawn { OnOk result ((start : TheWorld) (done : List Move) → length done ≡ step
            → IsWorld (desk_in M.heap M.grants self.old.runtime self.old.world)
            (walked_all start done) → IsDrawn start done drawing.old → IsDrawn start
            (done ++ move_of single.context single.refused single.shown ∷ []) drawing.new) }
    {
        let outset = outset_of(&self.world.contexts, single.context, &self.runtime);
        let is_made = self.try_step(alloc, single.context, single.refused, single.shown)?;
        let crowd = Crowd {
            contexts: &self.world.contexts,
            operators: &self.makers.operators,
        };
        let end = end_of(crowd.contexts, outset, is_made, &mut self.runtime);
        draw_arrows(step + 1, outset, crowd.contexts, &self.runtime, drawing)?;
        let beat = Beat { alloc, step, end };
        grow_lanes(alloc, crowd.contexts.table.made(), &mut drawing.lanes)?;
        note_lanes(beat, &crowd, &mut self.runtime, &mut drawing.lanes)?;
        Ok(())
    }

    /// Makes all steps, draws them, and tells how many there were.
    fn draw_steps(
        &mut self,
        alloc: Global,
        singles: Singles<'_>,
        drawing: &mut Drawing,
    ) -> Result<u32, WalkFault>
        requires stands { Stands M.heap M.grants self.old.runtime self.old.world }
        requires within { length drawing.old.seen.items ≤ 2147483647 }
        ensures { IfOk result (λ steps. (start : TheWorld)
            → IsWorld (desk_in M.heap M.grants self.old.runtime self.old.world) start
            → IsDrawn start [] drawing.old
            → (steps ≡ length singles.entry) × IsDrawn start singles.entry drawing.new) }
    {
        let mut left = singles;
        let mut step: u32 = 0;
        while let Some(single) = left.next() {
            if step == u32::MAX {
                return Err(WalkFault::TooLarge);
            }
            self.draw_step(alloc, step, single, drawing)?;
            step += 1;
        }
        Ok(step)
    }
}
