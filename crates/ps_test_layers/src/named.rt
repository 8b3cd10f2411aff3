//! Rows of names: `first-names` and `no-names` begin anew, with the names that are met at the start
//! or with none; `meet NUMBER TEXT`: a text is met and has this number then; `find NUMBER TEXT`: it
//! has this number, `-` where it was not met; `text NUMBER TEXT`: the text of a number; `names
//! COUNT`: how many were met; `forget COUNT`: all but so many are forgotten.

use ps_names::{NameId, Names};
use std::alloc::{AllocError, Global};
use std::hash::RandomState;

/// The names that rows speak of.
#[derive(Drop)]
pub struct Named {
    alloc: Global,
    keys: RandomState,
    names: Names,
}

impl Named {
    /// No names.
    pub fn new(alloc: Global, keys: RandomState) -> Named {
        Named {
            alloc,
            keys,
            names: Names::new(alloc, keys),
        }
    }

    /// Whether the row of this name is so; none where it is no row of names.
    pub fn row(&mut self, name: &str, rest: &str) -> Result<Option<bool>, AllocError> {
        let (number, text) = rest.split_once(' ').unwrap_or((rest, ""));
        let id = match number.parse() {
            Ok(number) => Some(NameId(number)),
            Err(_) => None,
        };
        let text = text.as_bytes();
        Ok(Some(match name {
            "first-names" => {
                self.names = Names::with_first(self.alloc, self.keys)?;
                true
            }
            "no-names" => {
                self.names = Names::new(self.alloc, self.keys);
                true
            }
            "meet" => self.names.intern(text).ok() == id,
            "find" => self.names.find(text) == id,
            "text" => self.names.text(id.unwrap_or(NameId(0))) == text,
            "names" => Some(self.names.len()) == number.parse::<usize>().ok(),
            "forget" => {
                self.names.truncate(number.parse::<usize>().unwrap_or(0));
                true
            }
            _ => return Ok(None),
        }))
    }
}
