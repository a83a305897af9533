//! Names of 1 to 64 bytes, each with one number.

ghost use Rattle.std.specs.Prelude.{◌≡◌, ◌≤◌, ◌<◌, ℕ, List, [], ◌∷◌, ◌++◌, length, map, option_map, is_some, Some};
ghost use Rattle.std.specs.Prelude.{None, IfOk, IfErr, IfSome, OnErr, string_bytes, slice_get, OnOk};
ghost use Rattle.std.specs.List.{list_all};
ghost use Rattle.dds_base.specs.Names.{is_name_byte, is_name, number_of, refusal, IsRefused};

use crate::NoMemory;
use crate::limits::NAME_BYTES;
use indexmap::IndexSet;
use std::alloc::{AllocFailed, Global};
use std::marker::Model;

/// Why a name is not added, in the order in which it is tested.
#[derive(Clone, Copy, Debug, PartialEq, Eq)]
pub enum NameFault {
    /// 1: the name is there already.
    Duplicate,
    /// 2: the text is no name (`is_name`).
    BadName,
    /// 3: as many names as the limit allows are there already.
    TooMany,
    /// 4: no memory was left for a name that nothing else refuses.
    NoMemory,
}

/// Distinct names in the order in which they were added. The number of a name is its place, from 0, and stays.
#[derive(Drop)]
pub struct Names {
    set: IndexSet<String>,
    alloc: Global,
}

impl Model for Names {
    ghost Value = { List (List ℕ) };

    ghost view = { λ n. map string_bytes n.set.keys };
}

/// Whether the byte may stand in a name: an ASCII letter, a digit, or one of `_ . / -`.
pub fn is_name_byte(byte: u8) -> bool
    ensures { result ≡ is_name_byte byte }
{
    matches!(byte, b'a'..=b'z' | b'A'..=b'Z' | b'0'..=b'9' | b'_' | b'.' | b'/' | b'-')
}

/// Whether the text is a name: 1 to 64 bytes, each of which may stand in one.
pub fn is_name(text: &str) -> bool
    ensures { result ≡ is_name text.now }
{
    1 <= text.len() && text.len() <= NAME_BYTES && has_name_bytes(text)
}

fn has_name_bytes(text: &str) -> bool
    ensures { result ≡ list_all is_name_byte text.now }
{
    text.as_bytes().iter().all(|b| is_name_byte(*b))
}

impl Names {
    /// No names yet, which takes no memory. What is added later comes from `alloc`.
    pub fn new(alloc: Global) -> Names
        ensures { result ≡ [] }
    {
        Names {
            set: IndexSet::new(alloc),
            alloc,
        }
    }

    /// How many names there are.
    pub fn len(&self) -> usize
        ensures { result ≡ length self.now }
    {
        self.set.len()
    }

    /// The number of a name, `None` where the name is not there.
    pub fn number(&self, name: &str) -> Option<usize>
        ensures value { result ≡ number_of self.now name.now }
        ensures within { IfSome result (λ n. n < length self.now) }
    {
        self.set.get_index_of(name)
    }

    /// The name with this number, one that was given. Names are distinct: no name has two numbers.
    pub fn name(&self, number: usize) -> &str
        requires { number < length self.now }
        ensures value { Some result.now ≡ slice_get self.now number }
        ensures own { number_of self.now result.now ≡ Some number }
    {
        self.set.as_slice()[number].as_str()
    }

    /// The name with this number, `None` where no name has it.
    pub fn get(&self, number: usize) -> Option<&str>
        ensures { option_map (λ s. s.now) result ≡ slice_get self.now number }
    {
        if number < self.len() {
            Some(self.name(number))
        } else {
            None
        }
    }

    /// Adds a text that is not there yet, at the end, whatever its bytes are: the caller knows whether it is a name.
    /// Fails only where no memory is left, and then nothing changes.
    pub fn push(&mut self, name: String) -> Result<(), NoMemory>
        requires { number_of self.old (string_bytes name) ≡ None }
        ensures ok { IfOk result (λ _. self.new ≡ self.old ++ string_bytes name ∷ []) }
        ensures err { OnErr result (self.new ≡ self.old) }
    {
        self.set.insert(name)?;
        Ok(())
    }

    /// Adds a name under the number that comes next, where fewer than `limit` names are there. The faults are tested in
    /// their order, and NoMemory comes only for a name that none of the others refuses. An `Err` changes nothing.
    #[tactic(auto, using(crate::proofs::Places::numbered))]
    pub fn add(&mut self, name: &str, limit: usize) -> Result<usize, NameFault>
        ensures ok { OnOk result (self.new ≡ self.old ++ name.now ∷ []) }
        ensures next { IfOk result (λ n. n ≡ length self.old) }
        ensures number { IfOk result (λ n. number_of self.new name.now ≡ Some n) }
        ensures accepted { OnOk result (refusal limit self.old name.now ≡ None) }
        ensures refused { IfErr result (IsRefused (refusal limit self.old name.now)) }
        ensures err { OnErr result (self.new ≡ self.old) }
    {
        if self.number(name).is_some() {
            return Err(NameFault::Duplicate);
        }
        if !is_name(name) {
            return Err(NameFault::BadName);
        }
        if limit <= self.len() {
            return Err(NameFault::TooMany);
        }
        let number = self.len();
        let text = String::from_str(self.alloc, name).map_err(|_| NameFault::NoMemory)?;
        self.push(text).map_err(|_| NameFault::NoMemory)?;
        Ok(number)
    }
}
