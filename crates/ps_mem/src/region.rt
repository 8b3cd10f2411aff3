//! Words in which objects stand one after another, with blank words behind them.

ghost use Rattle.std.specs.Prelude.{◌≡◌, ◌≢◌, ℕ, true, ◌+◌, ◌-◌, ◌^◌, ◌<◌, ◌≤◌, List, [], ◌∷◌, take, drop, replicate, length, slice_get, slice_range, Option, Some, None, OnOk, OnErr, IfOk, IfSome, IsSome};
ghost use Rattle.ps_word.specs.Headers.{birth_limit};
ghost use Rattle.ps_mem.specs.Objects.{wanting, all_headers, heap_in};
ghost use Rattle.ps_mem.specs.Heap.{Space, object_at, fields_at, birth_at, stored, made, made_body, IsKind, standing_words};
ghost use Rattle.ps_mem.specs.Stands.{IsAddressed};

use crate::FieldAt;
use ps_language::kinds::Kind;
use ps_raw::RawWords;
use ps_word::headers::Header;
use ps_word::words::Word;
use std::alloc::{AllocError, Global};

/// The words that stand in front of an object's fields.
const HEADERS: usize = 2;

/// The most words of a region: each address is below 2^24.
pub(crate) const REGION_LIMIT: u32 = 16_777_215;

/// Objects in words. An address is the index of an object's first word. Nothing is ever taken away.
#[derive(Drop)]
pub(crate) struct Region {
    words: RawWords,
    used: u32,
    next: u64,
    ghost within: { used ≤ length words },
    ghost limited: { length words < 2 ^ 24 },
    ghost whole: { wanting (take used words) 0 ≡ 0 },
    ghost headers: { all_headers (take used words) 0 ≡ true },
    ghost blank: { drop used words ≡ replicate (length words - used) 0 },
    ghost births: { next ≤ used },
}

impl Region {
    /// Room for so many words, in which nothing stands.
    pub(crate) fn new(alloc: Global, size: u32) -> Result<Region, AllocError>
        requires { size < 2 ^ 24 }
        ensures empty { IfOk result (λ r. (r.used ≡ 0) × (r.next ≡ 0)) }
        ensures size { IfOk result (λ r. length r.words ≡ size) }
    {
        let words = RawWords::new(alloc, size as usize)?;
        Ok(Region {
            words,
            used: 0,
            next: 0,
        })
    }

    /// No words, and nothing stands. It takes no memory.
    pub(crate) fn empty(alloc: Global) -> Region
        ensures { (result.words ≡ []) × (result.used ≡ 0) × (result.next ≡ 0) }
    {
        Region {
            words: RawWords::empty(alloc),
            used: 0,
            next: 0,
        }
    }

    /// The words that stand.
    #[inline]
    pub(crate) fn used(&self) -> u32
        ensures answer { result ≡ self.now.used }
        ensures counted { (space : Space)
            → standing_words (heap_in self.now.words self.now.used self.now.next space) ≡
            self.now.used }
        ensures addressed { (space : Space)
            → IsAddressed (heap_in self.now.words self.now.used self.now.next space) }
    {
        self.used
    }

    /// The words that there are.
    #[inline]
    pub(crate) fn size(&self) -> u32
        ensures { result ≡ length self.now.words }
    {
        self.words.len() as u32
    }

    /// The next birth number.
    #[inline]
    pub(crate) fn next(&self) -> u64
        ensures { result ≡ self.now.next }
    {
        self.next
    }

    /// The words in which objects stand. `AllocError`: room for them was refused.
    pub(crate) fn written(&self, alloc: Global) -> Result<Vec<u64>, AllocError>
        ensures { IfOk result (λ written. written.items ≡ take self.now.used self.now.words) }
    {
        let standing = &self.words.as_slice()[..self.used as usize];
        let mut written = Vec::with_capacity(alloc, standing.len())?;
        written.extend_from_slice(standing)?;
        Ok(written)
    }

    /// Takes so many words for the region; what stands stays.
    pub(crate) fn grow(&mut self, size: u32) -> Result<(), AllocError>
        requires grown { length self.old.words ≤ size }
        requires limit { size < 2 ^ 24 }
        ensures heap { (space : Space)
            → heap_in self.new.words self.new.used self.new.next space ≡ heap_in self.old.words
            self.old.used self.old.next space }
        ensures used { (self.new.used ≡ self.old.used) × (self.new.next ≡ self.old.next) }
        ensures ok { OnOk result (length self.new.words ≡ size) }
        ensures err { OnErr result (length self.new.words ≡ length self.old.words) }
    {
        self.words.grow(size as usize)
    }

    /// The word in a field of what stands at an address.
    #[inline]
    pub(crate) fn load(&self, address: u32, place: u32) -> Word
        requires { (space : Space)
            → place < length (fields_at (heap_in self.now.words self.now.used self.now.next space)
            address) }
        ensures { (space : Space)
            → slice_get (fields_at (heap_in self.now.words self.now.used self.now.next space)
            address) place ≡ Some result }
    {
        self.load_at(address, address as usize + place as usize)
    }

    /// The word in a field of what stands at an address, by the sum of the address and its place.
    #[inline]
    pub(crate) fn load_at(&self, address: u32, at: usize) -> Word
        requires from { address ≤ at }
        requires place { (space : Space)
            → at - address < length (fields_at (heap_in self.now.words self.now.used self.now.next
            space) address) }
        ensures { (space : Space)
            → slice_get (fields_at (heap_in self.now.words self.now.used self.now.next space)
            address) (at - address) ≡ Some result }
    {
        Word(self.words.load(at + HEADERS))
    }

    /// The header of what stands at an address.
    #[inline]
    pub(crate) fn header(&self, address: u32) -> Header
        requires { (s : Space)
            → IsSome (object_at (heap_in self.now.words self.now.used self.now.next s) address) }
        ensures birth { result.birth < birth_limit }
        ensures answer { (space : Space)
            → IfSome (object_at (heap_in self.now.words self.now.used self.now.next space) address)
            (λ o. result ≡ record { kind = o.kind; fields = length o.fields; birth = o.birth }) }
    {
        match Header::unpack(Word(self.words.load(address as usize))) {
            Some(header) => header,
            None => unreachable!(),
        }
    }

    /// Puts a word into a field of what stands at an address.
    #[inline]
    pub(crate) fn put(&mut self, address: u32, place: u32, word: Word)
        requires { (space : Space)
            → place < length (fields_at (heap_in self.old.words self.old.used self.old.next space)
            address) }
        ensures heap { (space : Space)
            → heap_in self.new.words self.new.used self.new.next space ≡ stored
            (heap_in self.old.words self.old.used self.old.next space) address place (word ∷ []) }
        ensures counts { (self.new.used ≡ self.old.used) × (self.new.next ≡ self.old.next)
            × (length self.new.words ≡ length self.old.words) }
    {
        self.words
            .store(address as usize + HEADERS + place as usize, word.0);
    }

    /// Puts words into the fields of what stands at an address, from a place on.
    pub(crate) fn write(&mut self, address: u32, place: u32, items: &[Word])
        requires { (space : Space)
            → place + length items.now ≤ length
            (fields_at (heap_in self.old.words self.old.used self.old.next space) address) }
        ensures heap { (space : Space)
            → heap_in self.new.words self.new.used self.new.next space ≡ stored
            (heap_in self.old.words self.old.used self.old.next space) address place items.now }
        ensures counts { (self.new.used ≡ self.old.used) × (self.new.next ≡ self.old.next)
            × (length self.new.words ≡ length self.old.words) }
    {
        let mut at = place;
        for word in items {
            self.put(address, at, *word);
            at += 1;
        }
    }

    /// Copies words from the fields of one object to those of another or the same, as if all were
    /// read first.
    pub(crate) fn copy(&mut self, from: FieldAt, to: FieldAt, count: u32)
        requires some { 1 ≤ count }
        requires source { (space : Space)
            → from.place + count ≤ length
            (fields_at (heap_in self.old.words self.old.used self.old.next space) from.address) }
        requires target { (space : Space)
            → to.place + count ≤ length
            (fields_at (heap_in self.old.words self.old.used self.old.next space) to.address) }
        ensures heap { (space : Space)
            → heap_in self.new.words self.new.used self.new.next space ≡ stored
            (heap_in self.old.words self.old.used self.old.next space) to.address to.place
            (slice_range (fields_at (heap_in self.old.words self.old.used self.old.next space)
            from.address) from.place (from.place + count)) }
        ensures counts { (self.new.used ≡ self.old.used) × (self.new.next ≡ self.old.next)
            × (length self.new.words ≡ length self.old.words) }
    {
        self.words.copy_within(
            from.address as usize + HEADERS + from.place as usize,
            to.address as usize + HEADERS + to.place as usize,
            count as usize,
        );
    }

    /// A new object of zero words behind what stands, with the next birth number.
    pub(crate) fn alloc(&mut self, kind: Kind, fields: u32) -> u32
        requires room { self.old.used + (2 + fields) ≤ length self.old.words }
        requires fields { fields < 2 ^ 16 }
        requires kind { kind ≢ Kind.Body }
        ensures address { result ≡ self.old.used }
        ensures free { (space : Space)
            → object_at (heap_in self.old.words self.old.used self.old.next space) result ≡ None }
        ensures heap { (space : Space)
            → heap_in self.new.words self.new.used self.new.next space ≡ made
            (heap_in self.old.words self.old.used self.old.next space) result kind fields }
        ensures counts { (self.new.used ≡ self.old.used + (2 + fields))
            × (self.new.next ≡ self.old.next + 1)
            × (length self.new.words ≡ length self.old.words) }
    {
        let address = self.used;
        let header = Header {
            kind,
            fields,
            birth: self.next,
        };
        self.words.store(address as usize, header.pack().0);
        self.used = address + 2 + fields;
        self.next += 1;
        address
    }

    /// A new body of zero words behind what stands, with this birth number.
    pub(crate) fn alloc_body(&mut self, birth: u64, fields: u32) -> u32
        requires room { self.old.used + (2 + fields) ≤ length self.old.words }
        requires fields { fields < 2 ^ 16 }
        requires birth { birth < birth_limit }
        ensures address { result ≡ self.old.used }
        ensures free { (space : Space)
            → object_at (heap_in self.old.words self.old.used self.old.next space) result ≡ None }
        ensures heap { (space : Space)
            → heap_in self.new.words self.new.used self.new.next space ≡ made_body
            (heap_in self.old.words self.old.used self.old.next space) result birth fields }
        ensures counts { (self.new.used ≡ self.old.used + (2 + fields))
            × (self.new.next ≡ self.old.next) × (length self.new.words ≡ length self.old.words) }
    {
        let body = self.used;
        let header = Header {
            kind: Kind::Body,
            fields,
            birth,
        };
        self.words.store(body as usize, header.pack().0);
        self.used = body + 2 + fields;
        body
    }
}
