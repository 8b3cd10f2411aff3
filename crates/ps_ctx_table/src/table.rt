//! A table of items by identifiers that rise from 1 and are never used again.
//!
//! It is seen as the list of all that were made, with nothing where one is gone. What is left, at
//! most 32 items, stands in the order of the identifiers, so that one is found at its own number,
//! or by halves where one before it is gone. All room
//! is reserved when the table is made: no later call takes memory, and what is gone holds nothing.

ghost use Rattle.std.specs.Prelude.{◌≡◌, ◌+◌, ◌<◌, ◌≤◌, [], ◌∷◌, ◌++◌, length, map, IfOk, IfErr};
ghost use Rattle.std.specs.Prelude.{IfNone, OnOk, OnSome, IsSome, Some, None, option_map};
ghost use Rattle.std.specs.Borrow.{sem};
ghost use Rattle.std.specs.Ordering.{nat_cmp};
ghost use Rattle.std.specs.List.Sorted.{IsBinarySearchResult, IsSearchInRange};
ghost use Rattle.ps_ctx_table.specs.Seats.{item_at, IsNextLeft, with_item, count_left, items_left};

use std::alloc::{AllocError, Global};
use std::marker::Model;
use std::mem::replace;

/// How many items may be left at a time (PLRM2, appendix B).
pub const CONTEXT_LIMIT: usize = 32;

/// The greatest identifier.
pub const IDENTIFIER_LIMIT: u32 = 2147483647;

/// What is done to each item of a table.
pub trait Change<T> {
    /// What an item is after it.
    ghost changed: { Self → T → T };

    /// Changes one.
    fn change(&self, item: &mut T)
        ensures { item.new ≡ changed self.now item.old };
}

/// Changes all of these.
fn change_all<T, C: Change<T>>(items: &mut [T], change: &C)
    ensures { items.new ≡ map (C.changed change.now) items.old }
{
    for item in items.iter_mut() {
        change.change(item);
    }
}

/// Where an identifier stands among identifiers that rise, or else where it would. Where none
/// before it is gone, it stands at its own number: there it is looked for first.
#[inline]
fn place_of(identifiers: &[u32], identifier: u32) -> Result<usize, usize>
    ensures bound { IsSearchInRange result (length identifiers.now) }
    ensures position { IsBinarySearchResult (λ one. nat_cmp one identifier) identifiers.now result }
{
    let place = (identifier as usize).wrapping_sub(1);
    if place < identifiers.len() && identifiers[place] == identifier {
        return Ok(place);
    }
    identifiers.binary_search(&identifier)
}

/// Items by identifiers.
#[derive(Drop)]
pub struct Table<T> {
    identifiers: Vec<u32>,
    items: Vec<T>,
    /// How many were made; the identifier of the last.
    made: u32,
}

impl<T> Model for Table<T> {
    ghost use Rattle.std.specs.Prelude.{List, Option, ◌≤◌, vec_capacity};
    ghost use Rattle.ps_ctx_table.specs.Seats.{AreSeats, listed};

    ghost Value = { List (Option T) };

    ghost view = { λ t. listed t.identifiers.items t.items.items t.made };

    ghost invariant = { λ t. AreSeats t.identifiers.items t.items.items t.made
        × (32 ≤ vec_capacity t.identifiers) × (32 ≤ vec_capacity t.items) };
}

impl<T> Table<T> {
    ghost use Rattle.ps_ctx_table.specs.Lends.{lends_item};

    /// An empty table. Fails where its room can't be had.
    pub fn new(alloc: Global) -> Result<Self, AllocError>
        ensures { IfOk result (λ table. table ≡ []) }
    {
        let identifiers = Vec::with_capacity(alloc, CONTEXT_LIMIT)?;
        let items = Vec::with_capacity(alloc, CONTEXT_LIMIT)?;
        Ok(Table {
            identifiers,
            items,
            made: 0,
        })
    }

    /// How many were made.
    pub fn made(&self) -> u32
        ensures made { result ≡ length self.now }
        ensures within { result ≤ 2147483647 }
    {
        self.made
    }

    /// The item of an identifier, unless it is gone.
    pub fn get(&self, identifier: u32) -> Option<&T>
        ensures item { option_map (λ item. item.now) result ≡ item_at self.now identifier }
        ensures within { length self.now ≤ 2147483647 }
    {
        match place_of(&self.identifiers, identifier) {
            Ok(place) => Some(&self.items[place]),
            Err(_) => None,
        }
    }

    /// The item of an identifier that is left, which is changed in place.
    pub fn get_mut(&mut self, identifier: u32) -> &mut T
        requires { IsSome (item_at self.old identifier) }
        ensures* writes_back { sem 𝓛 (lends_item T.row identifier self.entry result) }
        ensures value { Some result.now ≡ item_at self.old identifier }
        // no identifier that was made is above 2^31 - 1
        ensures within { length self.old ≤ 2147483647 }
    {
        let place = match place_of(&self.identifiers, identifier) {
            Ok(place) => place,
            Err(place) => place,
        };
        &mut self.items[place]
    }

    /// The least identifier under which an item is left.
    #[inline]
    fn first(&self) -> Option<u32>
        ensures { IsNextLeft self.now 0 result }
    {
        if 0 < self.identifiers.len() {
            Some(self.identifiers[0])
        } else {
            None
        }
    }

    /// The least identifier above another under which an item is left.
    pub fn next(&self, identifier: u32) -> Option<u32>
        ensures { IsNextLeft self.now identifier result }
    {
        if identifier == 0 {
            return self.first();
        }
        let place = match place_of(&self.identifiers, identifier) {
            Ok(place) => place + 1,
            Err(place) => place,
        };
        if place < self.identifiers.len() {
            Some(self.identifiers[place])
        } else {
            None
        }
    }

    /// How many are left.
    pub fn left(&self) -> usize
        ensures left { result ≡ count_left self.now }
        ensures within { result ≤ 32 }
    {
        self.identifiers.len()
    }

    /// Those that are left, in the order of the identifiers.
    pub fn items(&self) -> &[T]
        ensures { result.now ≡ items_left self.now }
    {
        &self.items
    }

    /// Changes each that is left, in the order of the identifiers.
    pub fn change_each<C: Change<T>>(&mut self, change: &C)
        ensures { self.new ≡ map (option_map (C.changed change.now)) self.old }
    {
        change_all(&mut self.items, change);
    }

    /// One more, for which there is room; its identifier is the next.
    pub fn push_reserved(&mut self, item: T)
        requires few { count_left self.old < 32 }
        requires within { length self.old < 2147483647 }
        ensures { self.new ≡ self.old ++ Some item ∷ [] }
    {
        self.made += 1;
        self.identifiers.push_reserved(self.made);
        self.items.push_reserved(item);
    }

    /// Puts an item in the place of another, which is handed out; it is handed back where none is
    /// left under this identifier.
    pub fn replace(&mut self, identifier: u32, item: T) -> Result<T, T>
        ensures replaced { IfOk result (λ old. Some old ≡ item_at self.old identifier) }
        ensures after { OnOk result (self.new ≡ with_item self.old identifier (Some item)) }
        ensures absent { IfErr result (λ back. (back ≡ item)
            × (None ≡ item_at self.old identifier) × (self.new ≡ self.old)) }
    {
        match place_of(&self.identifiers, identifier) {
            Ok(place) => {
                let old = replace(&mut self.items[place], item);
                Ok(old)
            }
            Err(_) => Err(item),
        }
    }

    /// Takes the item of an identifier out, if it is left.
    pub fn remove(&mut self, identifier: u32) -> Option<T>
        ensures removed { result ≡ item_at self.old identifier }
        ensures after { OnSome result (self.new ≡ with_item self.old identifier None) }
        ensures gone { IfNone result (self.new ≡ self.old) }
    {
        match place_of(&self.identifiers, identifier) {
            Ok(place) => {
                let _ = self.identifiers.remove(place);
                let item = self.items.remove(place);
                Some(item)
            }
            Err(_) => None,
        }
    }
}
