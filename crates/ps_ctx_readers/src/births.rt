//! The birth numbers of objects.

ghost use Rattle.std.specs.Prelude.{◌≡◌, IsSome};
ghost use Rattle.ps_mem.specs.Heap.{birth_at, object_at};

use ps_mem::Memory;

/// The birth number of the object at an address. The memory is only read.
pub fn birth_of<M: Memory>(memory: &mut M, address: u32) -> u64
    requires stands { IsSome (object_at (M.heap memory.old) address) }
    ensures heap { M.heap memory.new ≡ M.heap memory.old }
    ensures grants { M.grants memory.new ≡ M.grants memory.old }
    ensures birth { result ≡ birth_at (M.heap memory.old) address }
{
    memory.header(address).birth
}
