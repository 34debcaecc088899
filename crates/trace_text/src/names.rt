//! The names of a lane, numbered in order of first mention.
ghost use Rattle.std.specs.Prelude.{◌≡◌, ◌+◌, ◌<◌, ◌≤◌, ◌^◌, [], ◌∷◌, ◌++◌, None, position, length, IfOk, OnOk};
ghost use Rattle.std.specs.Str.{bytes_eq};
ghost use Rattle.trace_text.specs.Names.{number_of, with_name};

use std::alloc::{AllocError, Global};
use std::collections::BTreeMap;
use std::marker::Model;

/// The names that were mentioned, in this order, with the number of each. Contracts see their list.
#[derive(Drop)]
pub struct Names {
    texts: Vec<String>,
    numbers: BTreeMap<String, u32>,
}

impl Model for Names {
    ghost use Rattle.std.specs.Prelude.{List, ℕ, ◌≡◌, map, string_bytes, position};
    ghost use Rattle.std.specs.Str.{bytes_eq};
    ghost use Rattle.std.specs.BTreeMap.{get_by_text};

    ghost Value = { List (List ℕ) };

    ghost view = { λ n. map string_bytes n.texts.items };

    ghost invariant = { λ n. (q : List ℕ) →
        get_by_text n.numbers q ≡ position (bytes_eq q) (map string_bytes n.texts.items) };
}

impl Names {
    pub fn new(alloc: Global) -> Names
        ensures { result ≡ [] }
    {
        Names {
            texts: Vec::new(alloc),
            numbers: BTreeMap::new(alloc),
        }
    }

    /// The name's number. A new name gets the next one and is kept.
    #[tactic(auto, unfolding(crate::specs::Names::number_of, crate::specs::Names::with_name))]
    pub fn number(&mut self, alloc: Global, name: &str) -> Result<u32, AllocError>
        requires { length self.old < 2 ^ 32 }
        ensures number { IfOk result (λ n. n ≡ number_of self.old name.now) }
        ensures names { OnOk result (self.new ≡ with_name self.old name.now) }
        ensures few { OnOk result (length self.new ≤ length self.old + 1) }
    {
        match self.known(name) {
            Some(known) => Ok(known),
            None => self.push(alloc, name),
        }
    }

    fn known(&self, name: &str) -> Option<u32>
        ensures { result ≡ position (bytes_eq name.now) self.now }
    {
        match self.numbers.get(name) {
            Some(number) => Some(*number),
            None => None,
        }
    }

    /// Keeps a name that isn't known as the last.
    fn push(&mut self, alloc: Global, name: &str) -> Result<u32, AllocError>
        requires fresh { position (bytes_eq name.now) self.old ≡ None }
        requires few { length self.old < 2 ^ 32 }
        ensures number { IfOk result (λ n. n ≡ length self.old) }
        ensures names { OnOk result (self.new ≡ self.old ++ name.now ∷ []) }
    {
        let number = self.texts.len() as u32;
        let text = String::from_str(alloc, name)?;
        let key = String::from_str(alloc, name)?;
        self.texts.push(text)?;
        match self.numbers.insert(key, number) {
            Ok(_) => Ok(number),
            Err(_) => {
                self.texts.pop();
                Err(AllocError)
            }
        }
    }
}
