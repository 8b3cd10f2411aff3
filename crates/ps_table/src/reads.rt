//! Loads by the mutator's seat, at any words.
ghost use Rattle.std.specs.Prelude.{◌∷◌, slice_set, slice_get, ◌≡◌, ◌-◌, ◌<◌, ◌≤◌, true, Some};
ghost use Rattle.std.specs.Prelude.{length, IsSome, IfSome};
ghost use Rattle.ps_word.specs.Headers.{kind_in, fields_in, birth_in, birth_limit};
ghost use Rattle.ps_record.specs.Format.{head_place};
ghost use Rattle.ps_mem.specs.Heap.{fields_at, object_at};
ghost use Rattle.ps_mem.specs.Objects.{kind_of_number};
ghost use Rattle.ps_core_machine.specs.Objects.{log_of};
ghost use Rattle.ps_core_machine.specs.Steps.{table_size};
ghost use Rattle.ps_core_machine.specs.declared.events.Event.TheVariants.{VmLoad};
ghost use Rattle.ps_core_laws.specs.Memory.{heap_of};
ghost use Rattle.ps_core_laws.specs.Shown.{VmFinds};
ghost use Rattle.ps_core_laws.specs.MemoryLaws.{StaysAfterLoad, SeesHead};
ghost use Rattle.ps_table.specs.Shown.{BothRun, vm_did};
ghost use Rattle.ps_table.specs.Events.{did_all, head_loads};
ghost use Rattle.ps_table.specs.Mirrored.{Sits, KeepsGc};

use crate::mirror::Mirror;
use crate::plays::View;
use crate::steps::vm_load;
use crate::words::Words;
use atomic_table::Seat;
use ps_language::kinds::Kind;
use ps_record::slots::Slot;
use ps_record::{SLOTS, head_place};
use ps_word::headers::{self, Header};
use ps_word::words::Word;

/// What a first header says; a kind that is none says body.
#[inline]
pub(crate) fn header_of(word: u64) -> Header
    ensures { result ≡ record {
      kind = kind_of_number (kind_in word);
      fields = fields_in word;
      birth = birth_in word;
    } }
{
    let kind = match headers::kind_in(word) {
        6 => Kind::Array,
        7 => Kind::Text,
        8 => Kind::Dictionary,
        9 => Kind::Lock,
        10 => Kind::Condition,
        _ => Kind::Body,
    };
    Header {
        kind,
        fields: headers::fields_in(word) as u32,
        birth: headers::birth_in(word),
    }
}

impl Mirror {
    /// A word that is no head.
    #[inline]
    pub(crate) fn read<W: Words>(&self, words: &mut W, seat: &mut Seat<(), View>, place: u64) -> u64
        requires sits { W.seats words.old seat.old
            × Sits (W.id words.old).words seat.old.me self.now }
        requires inside { place < table_size seat.old.me.0.vm.space }
        requires stays { StaysAfterLoad seat.old.me.0.vm place }
        ensures sits { W.seats words.new seat.new
            × Sits (W.id words.new).words seat.new.me self.now }
        ensures same { W.id words.new ≡ W.id words.old }
        ensures did { seat.new.me.0 ≡ vm_did seat.old.me.0 (VmLoad place result) }
        ensures gc { KeepsGc seat.old.me.0 seat.new.me.0 }
        ensures part { seat.new.me.0.vm ≡ seat.old.me.0.vm }
        ensures finds { VmFinds seat.old.me.0.vm place result }
    {
        vm_load(words, seat, place)
    }

    /// Loads the head of a slot's log, which is kept.
    pub(crate) fn see_head<W: Words>(
        &mut self,
        words: &mut W,
        seat: &mut Seat<(), View>,
        slot: Slot,
    ) -> u64
        requires sits { W.seats words.old seat.old
            × Sits (W.id words.old).words seat.old.me self.old }
        ensures sits { W.seats words.new seat.new
            × Sits (W.id words.new).words seat.new.me self.new }
        ensures same { W.id words.new ≡ W.id words.old }
        ensures did { seat.new.me.0 ≡ vm_did seat.old.me.0 (VmLoad (head_place slot) result) }
        ensures gc { KeepsGc seat.old.me.0 seat.new.me.0 }
        ensures mirror { self.new
            ≡ record self.old { heads = slice_set self.old.heads slot result } }
        ensures sees { SeesHead seat.old.me.0.vm seat.old.me.0.gc slot result }
        ensures taken { seat.old.me.0.acts_gc ≡ true
            → result ≡ length (log_of seat.old.me.0.gc.taken slot) }
        ensures runs { seat.old.me.0.acts_gc ≡ true
            → BothRun seat.old.me.0.vm seat.old.me.0.gc }
    {
        let head = vm_load(words, seat, head_place(slot));
        self.heads[slot.index()] = head;
        head
    }

    /// How many cycles were flipped, by the cycle word; and by slot how many records of its log
    /// were taken, by the heads. Each is loaded in this call, in this order.
    pub fn counts<W: Words>(
        &mut self,
        words: &mut W,
        seat: &mut Seat<(), View>,
    ) -> (u64, [u64; SLOTS as usize])
        requires sits { W.seats words.old seat.old
            × Sits (W.id words.old).words seat.old.me self.old }
        ensures sits { W.seats words.new seat.new
            × Sits (W.id words.new).words seat.new.me self.new }
        ensures same { W.id words.new ≡ W.id words.old }
        ensures flips { result.0 ≡ seat.old.me.0.vm.cycle }
        ensures did { seat.new.me.0
            ≡ did_all seat.old.me.0 (VmLoad 0 result.0 ∷ head_loads 0 result.1) }
        ensures gc { KeepsGc seat.old.me.0 seat.new.me.0 }
        ensures heap { heap_of seat.new.me.0.vm ≡ heap_of seat.old.me.0.vm }
        ensures taken { result.1 ≡ seat.new.me.0.vm.heads }
    {
        let flips = self.read(words, seat, 0);
        for slot in 0..SLOTS {
            let slot = Slot::numbered(slot);
            self.see_head(words, seat, slot);
        }
        (flips, self.heads)
    }

    /// What the first header of a standing object says.
    #[inline]
    pub fn header<W: Words>(&self, words: &mut W, seat: &mut Seat<(), View>, address: u32) -> Header
        requires sits { W.seats words.old seat.old
            × Sits (W.id words.old).words seat.old.me self.now }
        requires stands { IsSome (object_at (heap_of seat.old.me.0.vm) address) }
        ensures sits { W.seats words.new seat.new
            × Sits (W.id words.new).words seat.new.me self.now }
        ensures same { W.id words.new ≡ W.id words.old }
        ensures gc { KeepsGc seat.old.me.0 seat.new.me.0 }
        ensures part { seat.new.me.0.vm ≡ seat.old.me.0.vm }
        ensures birth { result.birth < birth_limit }
        ensures answer { IfSome (object_at (heap_of seat.old.me.0.vm) address)
            (λ o. result ≡ record { kind = o.kind; fields = length o.fields; birth = o.birth }) }
    {
        header_of(self.read(words, seat, address as u64))
    }

    /// A field of a standing object.
    #[inline]
    pub fn load<W: Words>(
        &self,
        words: &mut W,
        seat: &mut Seat<(), View>,
        address: u32,
        place: u32,
    ) -> Word
        requires sits { W.seats words.old seat.old
            × Sits (W.id words.old).words seat.old.me self.now }
        requires place { place < length (fields_at (heap_of seat.old.me.0.vm) address) }
        ensures sits { W.seats words.new seat.new
            × Sits (W.id words.new).words seat.new.me self.now }
        ensures same { W.id words.new ≡ W.id words.old }
        ensures gc { KeepsGc seat.old.me.0 seat.new.me.0 }
        ensures part { seat.new.me.0.vm ≡ seat.old.me.0.vm }
        ensures answer { slice_get (fields_at (heap_of seat.old.me.0.vm) address) place
            ≡ Some result }
    {
        self.load_at(words, seat, address, address as usize + place as usize)
    }

    /// A field of a standing object, by the sum of the address and the field's place.
    #[inline]
    pub fn load_at<W: Words>(
        &self,
        words: &mut W,
        seat: &mut Seat<(), View>,
        address: u32,
        at: usize,
    ) -> Word
        requires sits { W.seats words.old seat.old
            × Sits (W.id words.old).words seat.old.me self.now }
        requires from { address ≤ at }
        requires place { at - address < length (fields_at (heap_of seat.old.me.0.vm) address) }
        ensures sits { W.seats words.new seat.new
            × Sits (W.id words.new).words seat.new.me self.now }
        ensures same { W.id words.new ≡ W.id words.old }
        ensures gc { KeepsGc seat.old.me.0 seat.new.me.0 }
        ensures part { seat.new.me.0.vm ≡ seat.old.me.0.vm }
        ensures answer { slice_get (fields_at (heap_of seat.old.me.0.vm) address) (at - address)
            ≡ Some result }
    {
        Word(self.read(words, seat, at as u64 + 2))
    }
}
