//! The texts of names in the order of meeting.

ghost use Rattle.std.specs.Prelude.{◌≡◌, ℕ, take, ◌<◌, ◌≤◌, ◌↔◌, ◌++◌, [], ◌∷◌, length, unwrap_or};
ghost use Rattle.std.specs.Prelude.{slice_get, Some, None, IsOk, IsSome, IfOk, IfSome, OnOk, OnErr};
ghost use Rattle.std.specs.Prelude.{IsErrOf, option_map, IsTrue};
ghost use Rattle.std.specs.List.{position_or_len};
ghost use Rattle.std.specs.Str.{bytes_eq};
ghost use Rattle.ps_language.specs.Dictionaries.{meet};
ghost use Rattle.ps_language.specs.Worlds.{first_names};
ghost use Rattle.ps_language.specs.Limits.{name_limit, names_limit};
ghost use Rattle.ps_names.specs.Names.{place_of, AreNames};

use crate::first::{FIRST_COUNT, first_name};
use crate::guesses::{RecentNames, guess};
use indexmap::IndexSet;
use std::alloc::{AllocError, Global};
use std::hash::RandomState;
use std::marker::Model;
use thiserror::Error;

/// How many bytes a name may have.
pub const NAME_LIMIT: usize = 127;

/// How many names may be met.
pub const NAMES_LIMIT: usize = 65_535;

/// The number of a name: its place in the order of meeting. Names have numbers below `NAMES_LIMIT`.
#[derive(Clone, Copy, Debug, PartialEq, Eq, PartialOrd, Ord, Hash)]
pub struct NameId(pub u16);

/// Why a text is not among the names.
#[derive(Clone, Copy, Debug, PartialEq, Eq, Error)]
pub enum NamesFault {
    /// The text is new, and no more names may be met.
    #[error("too many names")]
    Full,
    /// The text has more than `NAME_LIMIT` bytes.
    #[error("a name is too long")]
    TooLong,
    /// A growth of the memory was refused.
    #[error("out of memory")]
    Memory,
}

/// The names that a run has met, each once, seen as the list of their texts in the order of
/// meeting.
///
/// There are at most `NAMES_LIMIT`, of at most `NAME_LIMIT` bytes each.
#[derive(Drop)]
pub struct Names {
    texts: IndexSet<Vec<u8>, RandomState>,
    recent: RecentNames,
}

impl Model for Names {
    ghost use Rattle.std.specs.Prelude.{List, ℕ};

    ghost Value = { List (List ℕ) };

    ghost use Rattle.ps_names.specs.Names.{texts_of, AreNames};

    ghost view = { λ names. texts_of names.texts.keys };

    ghost invariant = { λ names. AreNames (texts_of names.texts.keys) };
}

impl Names {
    /// No names yet. It takes no memory. The keys, which no program can know, decide which texts
    /// collide; nothing that is answered depends on them.
    pub fn new(alloc: Global, keys: RandomState) -> Names
        ensures { result ≡ [] }
    {
        Names {
            texts: IndexSet::with_hasher(alloc, keys),
            recent: RecentNames::none(),
        }
    }

    /// The names that every run has met at its start (PLRM2, 3.7). Fails where memory for them is
    /// refused.
    pub fn with_first(alloc: Global, keys: RandomState) -> Result<Names, AllocError>
        ensures { IfOk result (λ names. names ≡ first_names) }
    {
        let mut names = Names::new(alloc, keys);
        for number in 0..FIRST_COUNT {
            let Ok(_) = names.intern(first_name(number)) else {
                return Err(AllocError);
            };
        }
        Ok(names)
    }

    /// How many names there are.
    pub fn len(&self) -> usize
        ensures count { result ≡ length self.now }
        ensures names { AreNames self.now }
    {
        self.texts.len()
    }

    /// Whether a text has this number.
    #[inline(always)]
    fn is_at(&self, id: NameId, text: &[u8]) -> bool
        ensures is { IsTrue result ↔ (place_of text.now self.now ≡ Some id.0) }
        ensures names { AreNames self.now }
    {
        usize::from(id.0) < self.len() && self.text(id) == text
    }

    /// The number of a text, if it stands. It takes no memory. A text that every run knows isn't
    /// hashed, nor mostly one that was met since.
    #[inline]
    pub fn find(&self, text: &[u8]) -> Option<NameId>
        ensures place { option_map (λ id. id.0) result ≡ place_of text.now self.now }
        ensures within { IfSome result (λ id. id.0 < length self.now) }
        ensures stands { IfSome result (λ id. slice_get self.now id.0 ≡ Some text.now) }
        ensures names { AreNames self.now }
    {
        let id = guess(text);
        if self.is_at(id, text) {
            return Some(id);
        }
        let id = self.recent.guess(text);
        if self.is_at(id, text) {
            return Some(id);
        }
        self.search(text)
    }

    /// The number of a text, if it stands, by its hash. It takes no memory.
    #[inline(never)]
    fn search(&self, text: &[u8]) -> Option<NameId>
        ensures place { option_map (λ id. id.0) result ≡ place_of text.now self.now }
        ensures within { IfSome result (λ id. id.0 < length self.now) }
        ensures stands { IfSome result (λ id. slice_get self.now id.0 ≡ Some text.now) }
    {
        let place = self.texts.get_index_of(text)?;
        Some(NameId(place as u16))
    }

    /// The text of a number; no bytes, where no name has it, which is what a value of such a number
    /// means. It takes no memory.
    pub fn text(&self, id: NameId) -> &[u8]
        ensures bytes { result.now ≡ unwrap_or (slice_get self.now id.0) [] }
        ensures found { id.0 < length self.now → place_of result.now self.now ≡ Some id.0 }
        ensures names { AreNames self.now }
    {
        match self.texts.get_index(usize::from(id.0)) {
            Some(text) => text.as_slice(),
            None => &[],
        }
    }

    /// The number of a text, which goes behind the others where it is new.
    ///
    /// `TooLong` comes exactly where it has more than `NAME_LIMIT` bytes, and `Full` exactly where
    /// it is new, no longer than that, and `NAMES_LIMIT` names stand. `Memory` comes only where it
    /// is to be added.
    #[inline(always)]
    pub fn intern(&mut self, text: &[u8]) -> Result<NameId, NamesFault>
        // A text that stands keeps its number and the names stay; a new one goes last and has the
        // next.
        ensures number { IfOk result (λ id. id.0 ≡ position_or_len (bytes_eq text.now) self.old) }
        ensures names { OnOk result (self.new ≡ meet self.old text.now) }
        ensures stands { IfOk result (λ id. slice_get self.new id.0 ≡ Some text.now) }
        ensures found { IfOk result (λ id. place_of text.now self.new ≡ Some id.0) }
        ensures below { IfOk result (λ id. id.0 < names_limit) }
        ensures are { AreNames self.new }

        // Every number keeps its text.
        ensures kept { (number : ℕ) → number < length self.old → slice_get self.new number
            ≡ slice_get self.old number }

        // A text that stands is not refused, and after a fault nothing has changed.
        ensures known { IsSome (place_of text.now self.old) → IsOk result }
        ensures too_long { IsErrOf result NamesFault.TooLong ↔ (name_limit < length text.now) }
        ensures full { IsErrOf result NamesFault.Full
            ↔ ((place_of text.now self.old ≡ None) × (length text.now ≤ name_limit)
            × (length self.old ≡ names_limit)) }
        ensures memory { IsErrOf result NamesFault.Memory → (place_of text.now self.old ≡ None)
            × (length text.now ≤ name_limit) × (length self.old < names_limit) }
        ensures fault { OnErr result (self.new ≡ self.old) }
    {
        let place = self.len();
        if let Some(id) = self.find(text) {
            return Ok(id);
        }
        if text.len() > NAME_LIMIT {
            return Err(NamesFault::TooLong);
        }
        if place >= NAMES_LIMIT {
            return Err(NamesFault::Full);
        }
        match self.add(text) {
            Ok(()) => Ok(NameId(place as u16)),
            Err(AllocError) => Err(NamesFault::Memory),
        }
    }

    /// Puts a new text behind the others; where memory is refused, nothing has changed.
    #[inline(never)]
    fn add(&mut self, text: &[u8]) -> Result<(), AllocError>
        requires new { place_of text.now self.old ≡ None }
        requires short { length text.now ≤ name_limit }
        requires room { length self.old < names_limit }
        ensures added { OnOk result (self.new ≡ self.old ++ text.now ∷ []) }
        ensures are { AreNames self.new }
        ensures err { OnErr result (self.new ≡ self.old) }
    {
        let place = self.texts.len();
        let mut owned = Vec::with_capacity(*self.texts.allocator(), text.len())?;
        owned.extend_from_slice(text)?;
        self.texts.insert(owned)?;
        self.recent.note(text, NameId(place as u16));
        Ok(())
    }

    /// Takes back all but so many names, those that were met first.
    pub fn truncate(&mut self, count: usize)
        ensures { self.new ≡ take count self.old }
    {
        self.texts.truncate(count);
    }
}
