//! New objects, made by the mutator's seat at any words.
ghost use Rattle.std.specs.Prelude.{◌≡◌, ◌≢◌, ◌<◌, ◌≤◌, ◌+◌, ◌^◌, ℕ, List, None, length};
ghost use Rattle.ps_word.specs.Headers.{fields_in};
ghost use Rattle.ps_mem.specs.Heap.{AfterNew, IsKind, birth_at, made, made_body, object_at};
ghost use Rattle.ps_core_machine.specs.Steps.{table_size, next_birth_after};
ghost use Rattle.ps_core_laws.specs.Memory.{heap_of, grants_of};
ghost use Rattle.ps_core_laws.specs.MemoryLaws.{MayMake};
ghost use Rattle.ps_core_laws.specs.Stores.{part_made};
ghost use Rattle.ps_table.specs.Events.{did_all, object_made};
ghost use Rattle.ps_table.specs.Mirrored.{Sits, KeepsGc};

use crate::mirror::Mirror;
use crate::plays::View;
use crate::reads::header_of;
use crate::words::Words;
use crate::writes::vm_object;
use atomic_table::Seat;
use ps_language::kinds::Kind;
use ps_word::headers::Header;

impl Mirror {
    /// Makes an object with this first header at the end of use.
    fn stand<W: Words>(
        &mut self,
        words: &mut W,
        seat: &mut Seat<(), View>,
        header: u64,
        fields: u32,
        next_birth: u64,
    ) -> u32
        requires sits { W.seats words.old seat.old
            × Sits (W.id words.old).words seat.old.me self.old }
        requires may { MayMake seat.old.me.0.vm header fields }
        requires fields { fields_in header ≡ fields }
        requires inside { seat.old.me.0.vm.end + 2 + fields
            ≤ table_size seat.old.me.0.vm.space }
        requires next { next_birth ≡ next_birth_after seat.old.me.0.vm.next_birth header }
        ensures sits { W.seats words.new seat.new
            × Sits (W.id words.new).words seat.new.me self.new }
        ensures same { W.id words.new ≡ W.id words.old }
        ensures did { (found : List ℕ) × (length found ≡ fields + 1) × (seat.new.me.0
            ≡ did_all seat.old.me.0 (object_made seat.old.me.0.vm.end found header)) }
        ensures gc { KeepsGc seat.old.me.0 seat.new.me.0 }
        ensures part { seat.new.me.0.vm ≡ part_made seat.old.me.0.vm header }
        ensures at { result ≡ seat.old.me.0.vm.end }
    {
        let address = self.end;
        vm_object(words, seat, address, fields as u64, header);
        self.end = address + 2 + fields as u64;
        self.next_birth = next_birth;
        address as u32
    }

    /// Makes an object of so many fields, which takes a birth number.
    pub fn alloc<W: Words>(
        &mut self,
        words: &mut W,
        seat: &mut Seat<(), View>,
        kind: Kind,
        fields: u32,
    ) -> u32
        requires sits { W.seats words.old seat.old
            × Sits (W.id words.old).words seat.old.me self.old }
        requires words { 2 + fields ≤ (grants_of seat.old.me.0.vm).words }
        requires births { 1 ≤ (grants_of seat.old.me.0.vm).births }
        requires fields { fields < 2 ^ 16 }
        requires kind { kind ≢ Kind.Body }
        ensures sits { W.seats words.new seat.new
            × Sits (W.id words.new).words seat.new.me self.new }
        ensures same { W.id words.new ≡ W.id words.old }
        ensures gc { KeepsGc seat.old.me.0 seat.new.me.0 }
        ensures address { result < 2 ^ 24 }
        ensures free { object_at (heap_of seat.old.me.0.vm) result ≡ None }
        ensures heap { heap_of seat.new.me.0.vm
            ≡ made (heap_of seat.old.me.0.vm) result kind fields }
        ensures grants { AfterNew (grants_of seat.old.me.0.vm) (grants_of seat.new.me.0.vm)
            result (2 + fields) 1 }
    {
        let birth = self.next_birth;
        let header = Header {
            kind,
            fields,
            birth,
        };
        self.stand(words, seat, header.pack().0, fields, birth + 1)
    }

    /// Makes the body of a dictionary, with the dictionary's birth number.
    pub fn alloc_body<W: Words>(
        &mut self,
        words: &mut W,
        seat: &mut Seat<(), View>,
        dictionary: u32,
        fields: u32,
    ) -> u32
        requires sits { W.seats words.old seat.old
            × Sits (W.id words.old).words seat.old.me self.old }
        requires words { 2 + fields ≤ (grants_of seat.old.me.0.vm).words }
        requires fields { fields < 2 ^ 16 }
        requires stands { IsKind Kind.Dictionary
            (object_at (heap_of seat.old.me.0.vm) dictionary) }
        ensures sits { W.seats words.new seat.new
            × Sits (W.id words.new).words seat.new.me self.new }
        ensures same { W.id words.new ≡ W.id words.old }
        ensures gc { KeepsGc seat.old.me.0 seat.new.me.0 }
        ensures address { result < 2 ^ 24 }
        ensures free { object_at (heap_of seat.old.me.0.vm) result ≡ None }
        ensures heap { heap_of seat.new.me.0.vm
            ≡ made_body (heap_of seat.old.me.0.vm) result
            (birth_at (heap_of seat.old.me.0.vm) dictionary) fields }
        ensures grants { AfterNew (grants_of seat.old.me.0.vm) (grants_of seat.new.me.0.vm)
            result (2 + fields) 0 }
    {
        let birth = header_of(self.read(words, seat, dictionary as u64)).birth;
        let header = Header {
            kind: Kind::Body,
            fields,
            birth,
        };
        let next_birth = self.next_birth;
        self.stand(words, seat, header.pack().0, fields, next_birth)
    }
}
