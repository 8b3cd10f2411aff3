//! Where the objects that a token makes begin in the text, and their elements.
//!
//! A string makes one object, and a procedure those of its elements and then itself. So the objects
//! of a token have numbers in the order of their births, from 0 for the first.

ghost use Rattle.std.specs.Prelude.{◌≡◌, ◌++◌, ◌∷◌, [], ℕ, List, min, slice_get};
ghost use Rattle.ps_language.specs.Scan.{scan};
ghost use Rattle.ps_places.specs.Objects as objects;
ghost use Rattle.ps_places.specs.Objects.{IsSought, token_places, elements_in, objects_at};
ghost use Rattle.ps_places.specs.Objects.{objects_within};

use crate::tokens::{passed_at, token_begin};
use ps_scan::{NESTING_LIMIT, TokenClass};

/// What came of looking for the object of a number.
#[derive(Clone, Copy)]
enum Sought {
    /// It begins there.
    Begins(usize),
    /// It is behind those that were looked through: its number from there on.
    Behind(usize),
}

/// Where the token of an index begins, of those from a place on up to where none can be read.
fn nth_token(text: &[u8], at: usize, index: usize) -> Option<usize>
    ensures { result ≡ slice_get (token_places text.now at) index }
{
    let mut place = at;
    let mut left = index;
    while let Some(token) = passed_at(text, place) {
        if left == 0 {
            return Some(token_begin(text, place));
        }
        left -= 1;
        place = token.end;
    }
    None
}

/// An object more behind those that were looked through.
fn or_own(within: Sought, begin: usize) -> Sought
    ensures { (inner : List ℕ) (number : ℕ) → IsSought inner number within
        → IsSought (inner ++ begin ∷ []) number result }
{
    match within {
        Sought::Begins(place) => Sought::Begins(place),
        Sought::Behind(left) => {
            if left == 0 {
                return Sought::Begins(begin);
            }
            Sought::Behind(left - 1)
        }
    }
}

/// Looks for an object among those of the token that begins at a place, where so many may be one
/// in another.
#[cycle(objects)]
fn seek_at(text: &[u8], begin: usize, number: usize, room: u8) -> Sought
    ensures { IsSought (objects_at room text.now begin) number result }
{
    if room == 0 {
        return Sought::Behind(number);
    }
    let token = match passed_at(text, begin) {
        Some(token) => token,
        None => return Sought::Behind(number),
    };
    match token.class {
        TokenClass::Number(_) => Sought::Behind(number),
        TokenClass::Name => Sought::Behind(number),
        TokenClass::Text => or_own(Sought::Behind(number), begin),
        TokenClass::Procedure => or_own(seek_within(text, begin + 1, number, room - 1), begin),
    }
}

/// Looks for an object among those of the tokens from a place on, up to where none can be read.
#[cycle(objects)]
fn seek_within(text: &[u8], at: usize, number: usize, room: u8) -> Sought
    ensures { IsSought (objects_within room text.now at) number result }
{
    let mut place = at;
    let mut left = number;
    while let Some(token) = passed_at(text, place) {
        match seek_at(text, token_begin(text, place), left, room) {
            Sought::Begins(begin) => return Sought::Begins(begin),
            Sought::Behind(further) => left = further,
        }
        place = token.end;
    }
    Sought::Behind(left)
}

/// Where an object begins that the token at a place makes: a string or a procedure in it, or it
/// itself. `begin`: where that token begins. `object`: the object's number in the order of births,
/// from 0. `None`: the token can't be read, or makes fewer objects.
pub fn object_begin(text: &[u8], begin: usize, object: usize) -> Option<usize>
    ensures { result ≡ objects.object_begin text.now begin object }
{
    match seek_at(text, begin, object, NESTING_LIMIT + 1) {
        Sought::Begins(place) => Some(place),
        Sought::Behind(_) => None,
    }
}

/// How many objects the token at a place makes, with those in it, as far as a `usize` counts them.
/// `begin`: where that token begins. One that can't be read makes none.
pub fn object_count(text: &[u8], begin: usize) -> usize
    ensures { result ≡ min (objects.object_count text.now begin) usize.MAX }
{
    match seek_at(text, begin, usize::MAX, NESTING_LIMIT + 1) {
        Sought::Begins(_) => usize::MAX,
        Sought::Behind(left) => usize::MAX - left,
    }
}

/// Where an element begins of what a token at a place makes, a procedure.
fn own_element(text: &[u8], begin: usize, element: usize) -> Option<usize>
    ensures { result ≡ slice_get (elements_in text.now begin (scan text.now begin)) element }
{
    let token = match passed_at(text, begin) {
        Some(token) => token,
        None => return None,
    };
    match token.class {
        TokenClass::Procedure => nth_token(text, begin + 1, element),
        TokenClass::Number(_) => None,
        TokenClass::Name => None,
        TokenClass::Text => None,
    }
}

/// Where an element begins of an object that the token at a place makes. `begin`, `object`: as for
/// `object_begin`. `element`: the index of an element of the procedure, from 0. `None`: there is no
/// such object, it is a string, or it has fewer elements.
pub fn element_begin(text: &[u8], begin: usize, object: usize, element: usize) -> Option<usize>
    ensures { result ≡ objects.element_begin text.now begin object element }
{
    match object_begin(text, begin, object) {
        Some(place) => own_element(text, place, element),
        None => None,
    }
}
