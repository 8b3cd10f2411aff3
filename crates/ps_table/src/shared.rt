//! The table of the two seats.
ghost use Rattle.std.specs.Prelude.{◌≡◌, IfOk};
ghost use Rattle.ps_mem.specs.Heap.{empty_heap};
ghost use Rattle.ps_mem.specs.Bounded.{bounded_space};
ghost use Rattle.ps_core_laws.specs.Runs.{IsSpace};
ghost use Rattle.ps_core_laws.specs.Memory.{heap_of};
ghost use Rattle.ps_table.specs.Shown.{vm_side, gc_side, first_view};

use crate::collector::GcSeat;
use crate::mutator::VmSeat;
use crate::plays::{Parts, View};
use crate::words::SharedTable;
use atomic_table::{Seat, Table};
use std::alloc::{AllocError, Global};
use std::sync::Arc;

/// The table that the two seats share. Only `new` gives seats.
pub struct SharedSeats;

impl SharedSeats {
    /// Two spaces of so many words each, 4096 to 1048576, in which nothing stands, and the two
    /// seats, each with its part of the machine's start. `AllocError`: the allocator refused.
    pub fn new(alloc: Global, space: u32) -> Result<(VmSeat, GcSeat), AllocError>
        requires size { IsSpace space }
        ensures vm { IfOk result (λ r. r.0.seat.me.0 ≡ vm_side (first_view space)) }
        ensures gc { IfOk result (λ r. r.1.seat.me.0 ≡ gc_side (first_view space)) }
        ensures same { IfOk result (λ r. r.0.seat.table_id ≡ r.1.seat.table_id) }
        ensures heap { IfOk result
            (λ r. heap_of r.0.seat.me.0.vm ≡ empty_heap (bounded_space space)) }
    {
        let size = space as u64;
        let words = Vec::from_elem(alloc, 0u64, (ps_record::SPACES_START + 2 * size) as usize)?;
        let (table, mut seat): (SharedTable, Seat<(), View>) = Table::of_words(
            alloc,
            words.as_slice(),
            &size,
        )?;
        let other = table.shared.split_seat::<Parts>(&mut seat);
        let table = Arc::new(alloc, table)?;
        let vm = VmSeat::seated(Arc::try_clone(&table)?, seat, size);
        let gc = GcSeat::seated(table, other);
        Ok((vm, gc))
    }
}
