//! What a plain cache consists of: the stored samples in order of admission, and the keys of all samples ever stored.

ghost use Rattle.std.specs.Prelude.{◌≡◌, ◌==◌, cond, [], ◌∷◌, ◌++◌, OnOk, OnErr, position};
ghost use Rattle.std.specs.List.{remove};
ghost use Rattle.dds_qos.specs.Samples.{first_of, in_instance};
ghost use Rattle.test_forms.specs.Keys.{has_key, learned};

use crate::keys::{is_among, learn};
use dds_base::{KeyNo, NoMemory, Sample};
use std::alloc::Global;

// The stored samples in order of admission, none twice, and the known keys, none twice.
#[derive(Drop)]
pub(crate) struct Contents {
    pub(crate) stored: Vec<Sample>,
    pub(crate) keys: Vec<KeyNo>,
}

impl Contents {
    // No samples and no keys. What is stored later comes from `alloc`.
    pub(crate) fn new(alloc: Global) -> Contents
        ensures stored { result.stored.items ≡ [] }
        ensures keys { result.keys.items ≡ [] }
    {
        Contents {
            stored: Vec::new(alloc),
            keys: Vec::new(alloc),
        }
    }

    pub(crate) fn knows(&self, key: KeyNo) -> bool
        ensures { result ≡ has_key self.now.keys.items key }
    {
        is_among(&self.keys, key)
    }

    // How many samples of the key are stored.
    pub(crate) fn unread(&self, key: KeyNo) -> usize
        ensures { result ≡ in_instance key self.now.stored.items }
    {
        self.stored.iter().filter(|s| s.key == key).count()
    }

    // Stores a sample, in place of the first of its key where asked, and makes its key known.
    pub(crate) fn store(&mut self, sample: &Sample, overwrites: bool) -> Result<(), NoMemory>
        ensures stored { OnOk result (self.new.stored.items
            ≡ (cond overwrites (remove self.old.stored.items
            (first_of sample.now.key self.old.stored.items)) self.old.stored.items) ++ sample.now ∷ []) }
        ensures keys { OnOk result (self.new.keys.items ≡ learned self.old.keys.items sample.now.key) }
        ensures stored_err { OnErr result (self.new.stored.items ≡ self.old.stored.items) }
        ensures keys_err { OnErr result (self.new.keys.items ≡ self.old.keys.items) }
    {
        self.stored.reserve(1)?;
        learn(&mut self.keys, sample.key)?;
        if overwrites {
            if let Some(at) = first_of(&self.stored, sample.key) {
                self.stored.remove(at);
            }
        }
        self.stored.push_reserved(*sample);
        Ok(())
    }
}

// The place of the sample of a key that was admitted first.
pub(crate) fn first_of(stored: &[Sample], key: KeyNo) -> Option<usize>
    ensures { result ≡ position (λ y. y.key == key) stored.now }
{
    stored.iter().position(|s| s.key == key)
}
