//! The numbers that the mutator's seat keeps of its own part, and what they answer by themselves.
//!
//! They keep `Mirrors`: each is what the part says, while no call of the seat is under way.

use crate::plays::View;
use atomic_table::Seat;
use ps_mem::NeedFault;
use ps_record::slots::Slot;
use ps_record::{LOG_LIMIT, RING, SLOTS, SPACES_START};
use ps_word::headers::BIRTH_LIMIT;

/// Numbers of the mutator's part, so that a step looks nothing up.
#[derive(Drop)]
pub struct Mirror {
    /// How many words each space has.
    pub space: u64,
    /// The lowest word of the current space.
    pub base: u64,
    /// Where the current space is no longer in use.
    pub end: u64,
    pub next_birth: u64,
    /// What stands from this address on is new.
    pub fresh_from: u64,
    /// How many cycles were opened.
    pub epoch: u64,
    pub cycle_open: bool,
    /// By slot, how many records were logged.
    pub logged: [u64; SLOTS as usize],
    /// By slot, the head as it was last loaded.
    pub heads: [u64; SLOTS as usize],
    /// By slot, whether the log is closed in the open cycle.
    pub shut: [bool; SLOTS as usize],
}

impl Mirror {
    ghost use Rattle.std.specs.Prelude.{◌≡◌, ◌≢◌, ◌<◌, ◌≤◌, ◌+◌, ◌↔◌, ℕ, true, false, Err, length};
    ghost use Rattle.std.specs.Prelude.{IsTrue, IsOk, IsErr, OnOk};
    ghost use Rattle.ps_mem.specs.Heap.{has_room, standing_words};
    ghost use Rattle.ps_mem.specs.Stands.{IsAddressed};
    ghost use Rattle.ps_core_machine.specs.Conditions.{HasRoom};
    ghost use Rattle.ps_core_machine.specs.Objects.{log_of};
    ghost use Rattle.ps_core_machine.specs.Steps.{start, is_open};
    ghost use Rattle.ps_core_laws.specs.Memory.{heap_of, grants_of, records_left, is_shut};
    ghost use Rattle.ps_core_laws.specs.Shown.{VmRuns};
    ghost use Rattle.ps_table.specs.Mirrored.{Mirrors};

    /// The numbers of the machine's start, over spaces of so many words each.
    pub fn new(space: u64) -> Mirror
        ensures { Mirrors (start space).vm result }
    {
        Mirror {
            space,
            base: SPACES_START,
            end: SPACES_START,
            next_birth: 0,
            fresh_from: SPACES_START,
            epoch: 0,
            cycle_open: false,
            logged: [0; SLOTS as usize],
            heads: [0; SLOTS as usize],
            shut: [false; SLOTS as usize],
        }
    }

    /// Whether a cycle is open.
    #[inline]
    pub fn is_open(&self, seat: &Seat<(), View>) -> bool
        requires mirrors { Mirrors seat.now.me.0.vm self.now }
        ensures { result ≡ is_open seat.now.me.0.vm }
    {
        self.cycle_open
    }

    /// Whether the log of a slot is closed in the open cycle.
    #[inline]
    pub fn is_closed(&self, seat: &Seat<(), View>, slot: Slot) -> bool
        requires mirrors { Mirrors seat.now.me.0.vm self.now }
        ensures { result ≡ is_shut seat.now.me.0.vm slot }
    {
        self.shut[slot.index()]
    }

    /// How many records were ever logged in a slot.
    #[inline]
    pub fn logged(&self, seat: &Seat<(), View>, slot: Slot) -> u64
        requires mirrors { Mirrors seat.now.me.0.vm self.now }
        ensures { result ≡ length (log_of seat.now.me.0.vm.logs slot) }
    {
        self.logged[slot.index()]
    }

    /// How many words are in use.
    #[inline]
    pub fn used(&self, seat: &Seat<(), View>) -> u32
        requires mirrors { Mirrors seat.now.me.0.vm self.now }
        requires runs { ∥ VmRuns seat.now.me.0.vm ∥₁ }
        ensures answer { result ≡ (heap_of seat.now.me.0.vm).used }
        ensures counted { (heap_of seat.now.me.0.vm).used
            ≡ standing_words (heap_of seat.now.me.0.vm) }
        ensures within { (heap_of seat.now.me.0.vm).used ≤ (heap_of seat.now.me.0.vm).space.size }
        ensures addressed { IsAddressed (heap_of seat.now.me.0.vm) }
    {
        (self.end - self.base) as u32
    }

    /// How many words each space has.
    #[inline]
    pub fn size(&self, seat: &Seat<(), View>) -> u32
        requires mirrors { Mirrors seat.now.me.0.vm self.now }
        requires runs { ∥ VmRuns seat.now.me.0.vm ∥₁ }
        ensures { result ≡ (heap_of seat.now.me.0.vm).space.size }
    {
        self.space as u32
    }

    /// Whether so many words and birth numbers are left.
    #[inline]
    pub fn room(&self, seat: &Seat<(), View>, words: u32, births: u32) -> bool
        requires mirrors { Mirrors seat.now.me.0.vm self.now }
        requires runs { ∥ VmRuns seat.now.me.0.vm ∥₁ }
        ensures { result ≡ has_room (heap_of seat.now.me.0.vm) words births }
    {
        words as u64 <= self.space - (self.end - self.base)
            && births as u64 <= BIRTH_LIMIT - self.next_birth
    }

    /// `NeedSpace`: so many words or birth numbers aren't left.
    #[inline]
    pub fn need(&self, seat: &Seat<(), View>, words: u32, births: u32) -> Result<(), NeedFault>
        requires mirrors { Mirrors seat.now.me.0.vm self.now }
        requires runs { ∥ VmRuns seat.now.me.0.vm ∥₁ }
        ensures granted { OnOk result ((words ≤ (grants_of seat.now.me.0.vm).words)
            × (births ≤ (grants_of seat.now.me.0.vm).births)) }
        ensures space { IsTrue (has_room (heap_of seat.now.me.0.vm) words births) ↔
            (result ≢ Err (NeedFault.NeedSpace words)) }
        ensures names_words { (n : ℕ) → result ≡ Err (NeedFault.NeedSpace n) → n ≡ words }
        ensures memory { result ≢ Err NeedFault.Memory }
        ensures limit { (heap_of seat.now.me.0.vm).space.size
            < (heap_of seat.now.me.0.vm).used + words → IsErr result }
        ensures already { words ≤ (grants_of seat.now.me.0.vm).words
            → births ≤ (grants_of seat.now.me.0.vm).births → IsOk result }
    {
        if self.room(seat, words, births) {
            Ok(())
        } else {
            Err(NeedFault::NeedSpace(words))
        }
    }

    /// Whether the ring of a slot has no free place, by the head last loaded.
    #[inline]
    pub(crate) fn is_full(&self, seat: &Seat<(), View>, slot: Slot) -> bool
        requires mirrors { Mirrors seat.now.me.0.vm self.now }
        requires runs { ∥ VmRuns seat.now.me.0.vm ∥₁ }
        ensures { IsTrue result ↔ ¬ HasRoom seat.now.me.0.vm slot }
    {
        self.logged[slot.index()] >= self.heads[slot.index()] + RING
    }

    /// How many records the log of a slot may get in the open cycle, where it isn't closed.
    #[inline]
    pub(crate) fn left(&self, seat: &Seat<(), View>, slot: Slot) -> u64
        requires mirrors { Mirrors seat.now.me.0.vm self.now }
        requires runs { ∥ VmRuns seat.now.me.0.vm ∥₁ }
        requires open { is_open seat.now.me.0.vm ≡ true }
        requires shut { is_shut seat.now.me.0.vm slot ≡ false }
        ensures { result ≡ records_left seat.now.me.0.vm slot }
    {
        let free = self.heads[slot.index()] + RING;
        let logged = self.logged[slot.index()];
        free.min(LOG_LIMIT).saturating_sub(logged)
    }
}
