//! What is told of a run by its steps: numbers of them, between which two full stops may stand.

ghost use Rattle.std.specs.Prelude.{◌≡◌, ◌≤◌, Some, IfOk, take, is_ok, is_some, length};
ghost use Rattle.std.specs.List.{position_or_len};
ghost use Rattle.ps_run_options.specs.Views as spec;

use crate::sizes::{SizeFault, size_within};

/// What is told of a run under a schedule that is given, in place of what it prints.
#[derive(Clone, Copy, Debug, PartialEq, Eq)]
pub enum View {
    /// Its state behind so many steps.
    State(u32),
    /// Its steps from the first of these numbers to the second, a line each; the first step has the
    /// number 1.
    Steps(u32, u32),
}

impl View {
    /// The number of the last step of what is told.
    pub fn last_step(self) -> u32
        ensures { result ≡ spec.last_step self }
    {
        match self {
            View::State(step) => step,
            View::Steps(_, last) => last,
        }
    }
}

/// Where the first full stop of a text stands; its length where it has none.
fn full_stop(text: &[u8]) -> usize
    ensures first { result ≡ position_or_len spec.is_stop text.now }
    ensures within { result ≤ length text.now }
{
    for place in 0..text.len() {
        if text[place] == b'.' {
            return place;
        }
    }
    text.len()
}

/// The steps of a range whose first number is told by one text, and its last by another.
fn steps_between(first: &[u8], last: &[u8]) -> Result<View, SizeFault>
    ensures view { IfOk result
        (λ view. spec.steps_between (spec.step_from 1 first.now) last.now ≡ Some view) }
    ensures is { is_ok result
        ≡ is_some (spec.steps_between (spec.step_from 1 first.now) last.now) }
{
    let first = size_within(first, 1, u32::MAX)?;
    let last = size_within(last, first, u32::MAX)?;
    Ok(View::Steps(first, last))
}

/// The state behind so many steps as a text tells.
fn state_behind(text: &[u8]) -> Result<View, SizeFault>
    ensures view { IfOk result (λ view. spec.state_behind (spec.step_from 0 text.now) ≡ Some view) }
    ensures is { is_ok result ≡ is_some (spec.state_behind (spec.step_from 0 text.now)) }
{
    let step = size_within(text, 0, u32::MAX)?;
    Ok(View::State(step))
}

/// What is asked to be told by what stands before the first full stop of a text, and from there on.
fn view_between(before: &[u8], behind: &[u8]) -> Result<View, SizeFault>
    ensures view { IfOk result (λ view. spec.view_between before.now behind.now ≡ Some view) }
    ensures is { is_ok result ≡ is_some (spec.view_between before.now behind.now) }
{
    match behind {
        [] => state_behind(before),
        [_, b'.', last @ ..] => steps_between(before, last),
        _ => Err(SizeFault::NoNumber),
    }
}

/// What a text asks to be told: the state behind `N` steps, or by `N..M` the steps from that of one
/// number to that of another. Fails where a number is none of 32 bits, or 0 in a range, or the second
/// less than the first.
#[tactic(auto, unfolding(crate::specs::Views::view_in))]
pub(crate) fn view_in(text: &[u8]) -> Result<View, SizeFault>
    ensures view { IfOk result (λ view. spec.view_in text.now ≡ Some view) }
    ensures is { is_ok result ≡ is_some (spec.view_in text.now) }
{
    let place = full_stop(text);
    view_between(&text[..place], &text[place..])
}
