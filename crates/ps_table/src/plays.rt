//! What a seat at the table knows, the rule, and what each step tells.
use atomic_table::{Join, Play, Split, TableRule};
use ps_core_machine::events::{Event, Gc, Vm};
use std::marker::{Brand, PhantomData};

/// What a seat knows: its own events, the newest first, and its part of the state. The two parts
/// are in two seats, or in one that has both. No value of it is made.
pub struct View {
    pub acts_vm: bool,
    pub acts_gc: bool,
    pub vm_events: [Event; 0],
    pub gc_events: [Event; 0],
    pub vm: Vm,
    pub gc: Gc,
    /// The whole run, where one seat has had both parts from the start.
    pub whole: Option<[Event; 0]>,
}

/// The rule of the table. Its key is how many words each of the two spaces has.
pub struct Heap;

impl TableRule<(), View, u64> for Heap {
    ghost use Rattle.ps_table.specs.Shown.{Shows, first_view};

    ghost holds = { Shows };

    ghost first = { first_view };
}

/// The two sides apart, and together.
pub(crate) struct Parts;

impl Split<View> for Parts {
    ghost use Rattle.ps_table.specs.Shown.{vm_side, gc_side};

    ghost left = { vm_side };

    ghost right = { gc_side };
}

impl Join<View> for Parts {
    ghost use Rattle.ps_table.specs.Shown.{both_sides, spent_view};

    ghost both = { both_sides };

    ghost spent = { spent_view };
}

/// A seat that stands in for one that is away.
pub(crate) struct Spares;

impl Split<View> for Spares {
    ghost use Rattle.ps_table.specs.Shown.{same_view, no_view};

    ghost left = { same_view };

    ghost right = { no_view };
}

/// Names what a step doesn't carry in its operands. Each call picks them.
pub trait StepNaming {
    ghost use Rattle.std.specs.Prelude.{ℕ, Bool, List};

    ghost address: { ℕ };

    ghost field: { ℕ };

    ghost roots: { List ℕ };

    ghost scans: { Bool };
}

impl StepNaming for Brand {
    ghost use Rattle.std.specs.Prelude.{[], false};

    ghost address = { 0 };

    ghost field = { 0 };

    ghost roots = { [] };

    ghost scans = { false };
}

pub(crate) struct VmLoads;

impl Play<(), View> for VmLoads {
    ghost use Rattle.ps_table.specs.Shown.{vm_loads};

    ghost then = { vm_loads };
}

pub(crate) struct FindsClear;

impl Play<(), View> for FindsClear {
    ghost use Rattle.ps_table.specs.Shown.{finds_clear};

    ghost then = { finds_clear };
}

pub(crate) struct Clears;

impl Play<(), View> for Clears {
    ghost use Rattle.ps_table.specs.Shown.{clears};

    ghost then = { clears };
}

pub(crate) struct Makes;

impl Play<(), View> for Makes {
    ghost use Rattle.ps_table.specs.Shown.{makes};

    ghost then = { makes };
}

pub(crate) struct StoresField<N> {
    place: PhantomData<N>,
}

impl<N: StepNaming> Play<(), View> for StoresField<N> {
    ghost use Rattle.ps_table.specs.Shown.{stores_field};

    ghost then = { stores_field N.address N.field };
}

pub(crate) struct Records;

impl Play<(), View> for Records {
    ghost use Rattle.ps_table.specs.Shown.{records};

    ghost then = { records };
}

pub(crate) struct OpensCycle;

impl Play<(), View> for OpensCycle {
    ghost use Rattle.ps_table.specs.Shown.{opens_cycle};

    ghost then = { opens_cycle };
}

pub(crate) struct GcLoads;

impl Play<(), View> for GcLoads {
    ghost use Rattle.ps_table.specs.Shown.{gc_loads};

    ghost then = { gc_loads };
}

pub(crate) struct Takes;

impl Play<(), View> for Takes {
    ghost use Rattle.ps_table.specs.Shown.{takes};

    ghost then = { takes };
}

pub(crate) struct CopiesField<N> {
    place: PhantomData<N>,
}

impl<N: StepNaming> Play<(), View> for CopiesField<N> {
    ghost use Rattle.ps_table.specs.Shown.{copies_field};

    ghost then = { copies_field N.address N.field };
}

pub(crate) struct StoresCopy<N> {
    scans: PhantomData<N>,
}

impl<N: StepNaming> Play<(), View> for StoresCopy<N> {
    ghost use Rattle.ps_table.specs.Shown.{stores_copy};

    ghost then = { stores_copy N.scans };
}

pub(crate) struct PlacesHeader;

impl Play<(), View> for PlacesHeader {
    ghost use Rattle.ps_table.specs.Shown.{places_header};

    ghost then = { places_header };
}

pub(crate) struct Forwards;

impl Play<(), View> for Forwards {
    ghost use Rattle.ps_table.specs.Shown.{forwards};

    ghost then = { forwards };
}

pub(crate) struct Advances;

impl Play<(), View> for Advances {
    ghost use Rattle.ps_table.specs.Shown.{advances};

    ghost then = { advances };
}

pub(crate) struct HandsOver<N> {
    roots: PhantomData<N>,
}

impl<N: StepNaming> Play<(), View> for HandsOver<N> {
    ghost use Rattle.ps_table.specs.Shown.{hands};

    ghost then = { hands N.roots };
}

pub(crate) struct Looks;

impl Play<(), View> for Looks {
    ghost use Rattle.ps_table.specs.Shown.{looks};

    ghost then = { looks };
}

pub(crate) struct Flips<N> {
    roots: PhantomData<N>,
}

impl<N: StepNaming> Play<(), View> for Flips<N> {
    ghost use Rattle.ps_table.specs.Shown.{flips};

    ghost then = { flips N.roots };
}
