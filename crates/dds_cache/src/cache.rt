//! The cache, and what each call does to it.

ghost use Rattle.std.specs.Prelude.{◌≡◌, ◌↔◌, [], length, IfOk, OnErr, MatchOption, IsTrue};
ghost use Rattle.std.specs.FinSet as set;
ghost use Rattle.dds_qos.specs.Samples.{IsFresh, in_instance, without};
ghost use Rattle.dds_qos.specs.Admission.{admission, stored_after, keys_after};
ghost use Rattle.dds_qos.specs.Taking.{IsLeastOfWriter};
ghost use Rattle.dds_cache.specs.Released.{is_listed, opened, raised};
ghost use Rattle.dds_cache.specs.Cache.{available};

use crate::contents::Contents;
use crate::released::{Released, raise};
use dds_base::{KeyNo, NoMemory, Rejection, Sample, WriterNo, are_rising};
use dds_qos::admission::is_reached;
use dds_qos::{Admit, ReaderLimits};
use std::alloc::Global;
use std::marker::Model;

/// The samples that a reader has stored and not given yet, within its limits (OMG DDS 1.4, clauses 2.2.3.18 and
/// 2.2.3.19).
///
/// A sample is stored by `admit`, is available once `release` reaches its number, and leaves by `take` or because a
/// later one of its key is stored in its place. Whether available or not, it counts against the limits.
#[derive(Drop)]
pub struct Cache {
    limits: ReaderLimits,
    contents: Contents,
    writers: Vec<Released>,
    // Whether the writers stand in order of their numbers, so that one is found by halving.
    rising: bool,
}

impl Model for Cache {
    ghost use Rattle.std.specs.Coded.{codes, coded_ℕ};
    ghost use Rattle.std.specs.Ordering.{nat_cmp};
    ghost use Rattle.std.specs.FinSet as set;
    ghost use Rattle.dds_cache.specs.Cache.{CacheState};
    ghost use Rattle.dds_cache.specs.View.{view_of, IsSound};

    ghost Value = { CacheState };

    ghost coded = { Prim.hlevel (codes, set.code {R = nat_cmp} coded_ℕ) };

    ghost view = { view_of };

    ghost invariant = { IsSound };
}

impl Cache {
    /// An empty cache for the samples of these writers, which knows no key and has each writer's samples available up
    /// to 0, so none. Later samples take their memory from `alloc` too. `Err` where no memory is left for the list of
    /// writers.
    pub fn new(alloc: Global, limits: ReaderLimits, writers: &[WriterNo]) -> Result<Cache, NoMemory>
        ensures { IfOk result (λ c. c ≡ record {
          limits = limits;
          stored = [];
          keys = set.empty;
          writers = opened writers.now;
        }) }
    {
        let mut listed = Vec::with_capacity(alloc, writers.len())?;
        for writer in writers {
            listed.push_reserved(Released {
                writer: *writer,
                upto: 0,
            });
        }
        let rising = are_rising(&listed);
        Ok(Cache {
            limits,
            contents: Contents::new(alloc, limits.keep_last.is_some()),
            writers: listed,
            rising,
        })
    }

    /// How many samples are stored, available or not.
    pub fn stored(&self) -> usize
        ensures { result ≡ length self.now.stored }
    {
        self.contents.stored()
    }

    /// How many instances the cache has: the different keys of all samples that it ever stored, also of those that are
    /// gone.
    pub fn instances(&self) -> usize
        ensures { result ≡ set.len self.now.keys }
    {
        self.contents.instances()
    }

    /// How many samples of the key are stored, available or not.
    pub fn unread(&self, key: KeyNo) -> usize
        ensures { result ≡ in_instance key self.now.stored }
    {
        self.contents.count(key).unwrap_or(0)
    }

    /// What `admit` would answer on the sample, memory aside. It changes nothing: a caller that needs memory of its own
    /// for a sample that is stored asks here first, so that a rejection needs none.
    pub fn admission(&self, sample: &Sample) -> Admit
        ensures { result ≡ admission self.now.limits self.now.stored self.now.keys sample.now }
    {
        let count = self.contents.count(sample.key);
        let full = is_reached(self.limits.max_instances, self.instances());
        if full && count.is_none() {
            return Admit::Rejected(Rejection::InstancesLimit);
        }
        let unread = count.unwrap_or(0);
        if is_reached(self.limits.keep_last, unread) {
            return Admit::Overwrote(self.contents.oldest(sample));
        }
        if is_reached(self.limits.max_samples, self.stored()) {
            return Admit::Rejected(Rejection::SamplesLimit);
        }
        if is_reached(self.limits.max_samples_per_instance, unread) {
            return Admit::Rejected(Rejection::SamplesPerInstanceLimit);
        }
        Admit::Stored
    }

    /// Stores a sample where the limits allow it. The writer has to be listed, and no stored sample may have its writer
    /// and number.
    ///
    /// The first of these that holds is answered (OMG DDS 1.4, clauses 2.2.3.18, 2.2.3.19 and 2.2.4.1):
    ///
    /// 1. `Rejected(InstancesLimit)`: the key is new, and max_instances keys are known;
    /// 2. `Overwrote(old)`: by KEEP_LAST, depth samples of the key are stored; `old`, the one of them that was admitted
    ///    first, leaves, and the sample is stored as the last;
    /// 3. `Rejected(SamplesLimit)`: max_samples samples are stored;
    /// 4. `Rejected(SamplesPerInstanceLimit)`: max_samples_per_instance samples of the key are stored;
    /// 5. `Stored`: it is stored as the last, and its key is known from now on.
    ///
    /// A rejection changes nothing. `Err` where the sample would be stored and no memory is left for it; it changes
    /// nothing.
    pub fn admit(&mut self, sample: Sample) -> Result<Admit, NoMemory>
        requires listed { IsTrue (is_listed sample.writer self.old.writers) }
        requires fresh { IsFresh self.old.stored sample }
        ensures answer { IfOk result (λ a. a ≡ admission self.old.limits self.old.stored self.old.keys sample) }
        ensures state { IfOk result (λ a. self.new ≡ record self.old {
          stored = stored_after a self.old.stored sample;
          keys = keys_after a self.old.keys sample;
        }) }
        ensures err { OnErr result (self.new ≡ self.old) }
    {
        let answer = self.admission(&sample);
        if answer.is_rejected() {
            return Ok(answer);
        }
        self.contents.store(&sample, answer.is_overwrote())?;
        Ok(answer)
    }

    /// Makes the samples of a listed writer with numbers up to `upto`, 0 to 2^64 - 1, available, those stored later
    /// too. What is available already stays so: a number below an earlier one changes nothing.
    pub fn release(&mut self, writer: WriterNo, upto: u64)
        requires { IsTrue (is_listed writer self.old.writers) }
        ensures { self.new ≡ record self.old { writers = raised writer upto self.old.writers } }
    {
        raise(&mut self.writers, self.rising, writer, upto);
    }

    /// Gives an available sample of the key, which leaves the cache: of some writer, the one with the least number
    /// among that writer's available samples of the key (OMG DDS 1.4, clause 2.2.2.5.3). `None` exactly where no sample
    /// of the key is available, and then nothing changes.
    pub fn take(&mut self, key: KeyNo) -> Option<Sample>
        ensures answer { MatchOption result (available self.old key ≡ [])
            (λ x. IsLeastOfWriter x (available self.old key)) }
        ensures state { MatchOption result (self.new ≡ self.old)
            (λ x. self.new ≡ record self.old { stored = without x self.old.stored }) }
    {
        let place = self.contents.least(&self.writers, key)?;
        self.contents.remove(place)
    }
}
