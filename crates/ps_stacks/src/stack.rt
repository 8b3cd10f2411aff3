//! Stacks of a bounded depth.

ghost use Rattle.std.specs.Prelude.{◌≡◌, ℕ, ◌+◌, ◌-◌, ◌<◌, ◌≤◌, ◌↔◌, IsTrue, List, [], ◌∷◌, ◌++◌};
ghost use Rattle.std.specs.Prelude.{length, take, drop, slice_get, reverse, IfOk, IfSome, IfNone};
ghost use Rattle.std.specs.Prelude.{OnOk, OnErr, Some, None, vec_len, vec_capacity, nat_le};
ghost use Rattle.ps_stacks.specs.Tops.{first_of, first_two_of, first_three_of, rotated};
ghost use Rattle.std.specs.Borrow.{sem};

use std::alloc::{AllocError, Global};
use std::marker::Model;
use thiserror::Error;

/// A stack has no room for another item.
#[derive(Clone, Copy, Debug, PartialEq, Eq, Error)]
#[error("the stack is full")]
pub struct StackFull;

/// A stack of at most `LIMIT` items, seen as a list with the topmost first.
///
/// All of its room is reserved when it is made, so no later call takes memory.
#[derive(Drop)]
pub struct Stack<T: Copy, const LIMIT: usize> {
    items: Vec<T>,
}

impl<T: Copy, const LIMIT: usize> Model for Stack<T, LIMIT> {
    ghost use Rattle.std.specs.Prelude.{List, reverse, ◌≤◌, vec_len, vec_capacity};

    ghost Value = { List T };

    ghost view = { λ s. reverse s.items.items };

    ghost invariant = { λ s. (vec_len s.items ≤ LIMIT) × (LIMIT ≤ vec_capacity s.items) };
}

impl<T: Copy, const LIMIT: usize> Stack<T, LIMIT> {
    ghost use Rattle.ps_stacks.specs.Lends.{lends_top};

    /// An empty stack. Fails where its room can't be had.
    pub fn new(alloc: Global) -> Result<Self, AllocError>
        ensures { IfOk result (λ stack. stack ≡ []) }
    {
        let items = Vec::with_capacity(alloc, LIMIT)?;
        Ok(Stack { items })
    }

    /// How many items there are.
    pub fn len(&self) -> usize
        ensures count { result ≡ length self.now }
        ensures within { result ≤ LIMIT }
    {
        self.items.len()
    }

    /// Whether there are none.
    pub fn is_empty(&self) -> bool
        ensures { IsTrue result ↔ (self.now ≡ []) }
    {
        self.items.is_empty()
    }

    /// Whether another item has no room.
    pub fn is_full(&self) -> bool
        ensures { result ≡ nat_le LIMIT (length self.now) }
    {
        self.items.len() >= LIMIT
    }

    /// The topmost item.
    pub fn top(&self) -> Option<T>
        ensures { result ≡ first_of self.now }
    {
        self.items.last().copied()
    }

    /// The two topmost items, the topmost first.
    pub fn top_two(&self) -> Option<(T, T)>
        ensures { result ≡ first_two_of self.now }
    {
        match self.items.as_slice() {
            [.., second, first] => Some((*first, *second)),
            _ => None,
        }
    }

    /// The three topmost items, the topmost first.
    pub fn top_three(&self) -> Option<(T, T, T)>
        ensures { result ≡ first_three_of self.now }
    {
        match self.items.as_slice() {
            [.., third, second, first] => Some((*first, *second, *third)),
            _ => None,
        }
    }

    /// So many of the topmost items, the topmost last.
    pub fn topmost(&self, count: usize) -> &[T]
        requires { count ≤ length self.now }
        ensures { result.now ≡ reverse (take count self.now) }
    {
        &self.items[self.items.len() - count..]
    }

    /// The item below so many others.
    pub fn peek(&self, depth: usize) -> Option<T>
        ensures { result ≡ slice_get self.now depth }
    {
        let count = self.items.len();
        if depth < count {
            Some(self.items[count - 1 - depth])
        } else {
            None
        }
    }

    /// Takes the topmost items off.
    pub fn discard(&mut self, count: usize)
        requires { count ≤ length self.old }
        ensures { self.new ≡ drop count self.old }
    {
        let left = self.items.len() - count;
        self.items.truncate(left);
    }

    /// Takes all items off.
    pub fn clear(&mut self)
        ensures { self.new ≡ [] }
    {
        self.items.clear();
    }

    /// Pushes an item, if there is room; else nothing changes. It takes no memory.
    pub fn push(&mut self, item: T) -> Result<(), StackFull>
        ensures pushed { OnOk result ((length self.old < LIMIT) × (self.new ≡ item ∷ self.old)) }
        ensures full { OnErr result ((LIMIT ≤ length self.old) × (self.new ≡ self.old)) }
    {
        if self.items.len() >= LIMIT {
            return Err(StackFull);
        }
        self.items.push_reserved(item);
        Ok(())
    }

    /// Puts an item in the place of the topmost ones.
    pub fn replace(&mut self, count: usize, item: T)
        requires some { 1 ≤ count }
        requires within { count ≤ length self.old }
        ensures { self.new ≡ item ∷ drop count self.old }
    {
        let left = self.items.len() - count;
        self.items.truncate(left);
        self.items.push_reserved(item);
    }

    /// Puts an item in the place of the topmost one.
    #[inline]
    pub fn set_top(&mut self, item: T)
        requires { 1 ≤ length self.old }
        ensures { self.new ≡ item ∷ drop 1 self.old }
    {
        let last = self.items.len() - 1;
        self.items[last] = item;
    }

    /// The topmost item, which is changed in place.
    #[inline]
    pub fn top_mut(&mut self) -> &mut T
        requires { 1 ≤ length self.old }
        ensures* writes_back { sem 𝓛 (lends_top T.row LIMIT.row self.entry result) }
        ensures value { first_of self.old ≡ Some result.now }
    {
        let last = self.items.len() - 1;
        &mut self.items[last]
    }

    /// Pushes an item for which there is room. It takes no memory.
    #[inline]
    pub fn push_reserved(&mut self, item: T)
        requires { length self.old < LIMIT }
        ensures { self.new ≡ item ∷ self.old }
    {
        self.items.push_reserved(item);
    }

    /// Moves the topmost items of a group behind the others of it.
    pub fn rotate(&mut self, count: usize, places: usize)
        requires within { count ≤ length self.old }
        requires places { places ≤ count }
        ensures { self.new ≡ rotated places (take count self.old) ++ drop count self.old }
    {
        let start = self.items.len() - count;
        rotate_from(self.items.as_mut_slice(), start, places);
    }

    /// Pushes a copy of the topmost items.
    pub fn repeat(&mut self, count: usize)
        requires within { count ≤ length self.old }
        requires room { length self.old + count ≤ LIMIT }
        ensures { self.new ≡ take count self.old ++ self.old }
    {
        let end = self.items.len();
        let _ = self.items.extend_from_within(end - count..end);
    }
}

/// Moves the last items of a slice in front of those from a place on.
fn rotate_from<T: Copy>(items: &mut [T], start: usize, places: usize)
    requires within { start + places ≤ length items.old }
    ensures { let rest = drop start items.old in let kept = length rest - places in
        items.new ≡ take start items.old ++ (drop kept rest ++ take kept rest) }
{
    turn(&mut items[start..], places);
}

/// Moves the last items of a group in front of the others: one item past all others in one loop,
/// more by reversals. Groups are short, so that this costs less than a copy of one part.
fn turn<T: Copy>(group: &mut [T], places: usize)
    requires within { places ≤ length group.old }
    ensures { let kept = length group.old - places in
        group.new ≡ drop kept group.old ++ take kept group.old }
{
    if places == 1 {
        last_to_front(group);
    } else if group.len() - places == 1 {
        first_to_end(group);
    } else {
        turn_by_reversals(group, places);
    }
}

/// Moves the last items of a group in front of the others: the whole is reversed, then each part.
#[inline(never)]
fn turn_by_reversals<T: Copy>(group: &mut [T], places: usize)
    requires within { places ≤ length group.old }
    ensures { let kept = length group.old - places in
        group.new ≡ drop kept group.old ++ take kept group.old }
{
    group.reverse();
    let (moved, others) = group.split_at_mut(places);
    moved.reverse();
    others.reverse();
}

/// Moves each item of a group one place upward, and the last in front of them.
fn last_to_front<T: Copy>(group: &mut [T])
    requires some { 1 ≤ length group.old }
    ensures { let kept = length group.old - 1 in
        group.new ≡ drop kept group.old ++ take kept group.old }
{
    let mut carried = group[group.len() - 1];
    for place in 0..group.len() {
        let item = group[place];
        group[place] = carried;
        carried = item;
    }
}

/// Moves each item of a group one place downward, and the first behind them.
fn first_to_end<T: Copy>(group: &mut [T])
    requires some { 1 ≤ length group.old }
    ensures { group.new ≡ drop 1 group.old ++ take 1 group.old }
{
    let mut carried = group[0];
    let mut place = group.len();
    while place > 0 {
        place -= 1;
        let item = group[place];
        group[place] = carried;
        carried = item;
    }
}
