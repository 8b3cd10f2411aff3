//! What a run that stands has: operands, definitions and last errors, as a host is told of them.

ghost use Rattle.std.specs.Prelude.{◌≡◌};
ghost use Rattle.ps_run_hosts.specs.Values as spec;
ghost use Rattle.ps_run_hosts.specs.Values.{IsValueIn};

use crate::hosting::Refusal;
use crate::numbers::code_of_refusal;
use ps_ctx::deeds::Deeds;
use ps_ctx_readers::views::{Place, ToldValue, Untold, ValueView, WhatView};
use ps_run_workers::SpaceRun;
use ps_step_interpreter::interprets::Interpret;

/// A value.
#[repr(C)]
#[derive(Clone, Copy, Debug, PartialEq, Eq)]
pub struct HostValue {
    /// What it is: 1 an integer, 2 a boolean, 3 null, 4 a mark, 5 a name, 6 an operator, 7 an array, 8
    /// a string, 9 a dictionary, 10 a lock, 11 a condition.
    pub kind: u32,
    /// Whether it is executable: 0 or 1.
    pub executable: u32,
    /// An integer; of a boolean 0 or 1; of any other value 0.
    pub number: i64,
    /// The bytes of a name, of an operator's name or of a string; the elements of an array; the pairs
    /// of a dictionary; of any other value 0.
    pub length: u64,
}

/// The number of what a value is.
fn kind_of(what: WhatView) -> u32
    ensures { result ≡ spec.kind_of what }
{
    match what {
        WhatView::Integer { number: _ } => 1,
        WhatView::Boolean { truth: _ } => 2,
        WhatView::Null => 3,
        WhatView::Mark => 4,
        WhatView::Name { length: _ } => 5,
        WhatView::Operator { length: _ } => 6,
        WhatView::Array { length: _ } => 7,
        WhatView::Text { length: _ } => 8,
        WhatView::Dictionary { length: _ } => 9,
        WhatView::Lock => 10,
        WhatView::Condition => 11,
    }
}

/// What is told of a simple value as a number.
fn number_in(what: WhatView) -> i64
    ensures { result ≡ spec.number_in what }
{
    match what {
        WhatView::Integer { number } => i64::from(number),
        WhatView::Boolean { truth } => i64::from(truth),
        _ => 0,
    }
}

/// How much a value holds.
fn length_in(what: WhatView) -> u64
    ensures { result ≡ spec.length_in what }
{
    match what {
        WhatView::Name { length } | WhatView::Operator { length } => length as u64,
        WhatView::Array { length } | WhatView::Text { length } => u64::from(length),
        WhatView::Dictionary { length } => u64::from(length),
        _ => 0,
    }
}

/// A value as a host has it.
fn handed_value(view: ValueView) -> HostValue
    ensures { result ≡ spec.handed_value view }
{
    HostValue {
        kind: kind_of(view.what),
        executable: u32::from(view.executable),
        number: number_in(view.what),
        length: length_in(view.what),
    }
}

/// The code of what was told of a value: 0; 22, no context has the identifier, or it is ended; 23, it
/// has no value there; or 24, the room has no place for all of the value's bytes.
fn code_of_told(told: Result<ToldValue, Untold>) -> u32
    ensures { result ≡ spec.code_of_told told }
{
    match told {
        Ok(ToldValue { view: _, whole }) => { if whole { 0 } else { 24 } }
        Err(Untold::NoContext) => 22,
        Err(Untold::NoValue) => 23,
    }
}

/// Hands out what was told of a value, if anything was, and gives the code.
fn hand_told(told: Result<ToldValue, Untold>, value: &mut HostValue) -> u32
    ensures value { value.new ≡ spec.value_after told value.old }
    ensures code { result ≡ spec.code_of_told told }
{
    if let Ok(found) = told {
        *value = handed_value(found.view);
    }
    code_of_told(told)
}

/// Tells of what a context of the run has at a place, and gives the code. Its bytes, which are those of
/// a string, or of the name that a name or an operator is, are written to the front of the room, if it
/// has place for all of them.
///
/// 0: the value is told, and its bytes are written. 24: it is told, and the room has no place for its
/// bytes. 22: no context has this identifier, or it is ended. 23: the context has no value there. 20: no
/// run stands. In the last three cases the value stays as it was, and in the last four the room does.
pub fn hand_value<S: Interpret + Drop, D: Deeds + Drop>(
    run: &mut Option<SpaceRun<S, D>>,
    context: u32,
    place: Place<'_>,
    value: &mut HostValue,
    room: &mut [u8],
) -> u32
    ensures same { run.new ≡ run.old }
    ensures told { IsValueIn run.old context place.entry
        (record { value = value.old; bytes = room.old })
        (record { value = value.new; bytes = room.new }) result }
{
    let Some(standing) = run.take() else {
        return code_of_refusal(Refusal::Closed);
    };
    let (standing, told) = standing.tell(context, place, room);
    *run = Some(standing);
    hand_told(told, value)
}
