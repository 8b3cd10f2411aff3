//! Marks: for each name which dictionaries may have it as a key, told by their birth numbers.
//!
//! A mark may admit a dictionary that doesn't have the name, since it is never narrowed and since
//! names share marks. None is missing that has it: so a look-up passes by what isn't admitted.
//! Birth numbers stay where objects move, and so do marks.

ghost use Rattle.std.specs.Prelude.{◌≡◌, ◌%◌, slice_set};
ghost use Rattle.ps_mem.specs.Marks.{admits, mark_of, marks_kept, widened};

use std::alloc::Global;

/// How many marks are kept. The names of the system's operators are the first, and all that an
/// ordinary program defines have room behind them.
const MARKS: usize = 1024;

/// Which dictionaries may have a name as a key.
#[derive(Clone, Copy, Debug, PartialEq, Eq)]
pub enum Mark {
    /// None.
    Nowhere,
    /// That of this birth number alone.
    In(u64),
    /// Any.
    Anywhere,
}

impl Mark {
    /// Whether the dictionary of a birth number may have the name.
    #[inline(always)]
    pub fn admits(self, birth: u64) -> bool
        ensures { result ≡ admits self birth }
    {
        match self {
            Mark::Nowhere => false,
            Mark::In(one) => one == birth,
            Mark::Anywhere => true,
        }
    }

    /// The least mark that admits this birth number too.
    fn widened(self, birth: u64) -> Mark
        ensures { result ≡ widened self birth }
    {
        match self {
            Mark::Nowhere => Mark::In(birth),
            Mark::In(one) => if one == birth { self } else { Mark::Anywhere },
            Mark::Anywhere => self,
        }
    }
}

/// The marks of all names. Where no room for them can be had there are none, and each name may be
/// anywhere.
#[derive(Drop)]
pub struct Marks {
    pub(crate) items: Vec<Mark>,
}

impl Marks {
    /// Of each name that none has it, or that it may be anywhere, where the allocator refuses.
    pub fn new(alloc: Global) -> Marks {
        let mut items = Vec::new(alloc);
        // A refusal leaves the list empty.
        let _ = items.resize(MARKS, Mark::Nowhere);
        Marks { items }
    }

    /// That of a name.
    #[inline(always)]
    pub fn of(&self, name: u16) -> Mark
        ensures { result ≡ mark_of self.now.items.items name }
    {
        match self.items.get(name as usize % MARKS) {
            Some(mark) => *mark,
            None => Mark::Anywhere,
        }
    }

    /// Admits a birth number to a name.
    pub fn widen(&mut self, name: u16, birth: u64)
        ensures { self.new.items.items ≡ slice_set self.old.items.items (name % marks_kept)
            (widened (mark_of self.old.items.items name) birth) }
    {
        let place = name as usize % MARKS;
        if place < self.items.len() {
            self.items[place] = self.items[place].widened(birth);
        }
    }
}
