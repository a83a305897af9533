//! What a rule takes and what it writes, and what it changes in the counts.
ghost use Rattle.std.specs.Prelude.{◌≡◌, ℕ, ◌+◌, ◌*◌, ◌<◌, ◌≤◌, ◌^◌, All, nat_lt, nat_le, IfOk};
ghost use Rattle.std.specs.List.{list_any};
ghost use Rattle.dds_lists.specs.Views.{rule_view};
ghost use Rattle.dds_match.specs.Network.{named};
ghost use Rattle.dds_rules.specs.Counts.{IsMoreBy, count_at};
ghost use Rattle.dds_rules.specs.Exchange.{HasPlace, IsAlone, IsPlaced, exchange_of, lacks_room, lacks_takes};

use crate::counts::Counts;
use dds_base::{NoMemory, Portion, ReaderNo, WriterNo};
use dds_lists::Rule;
use std::alloc::Global;
use std::marker::Model;

/// What a rule takes, and what it may write after that.
#[derive(Drop)]
pub(crate) struct Exchange {
    pub(crate) takes: Vec<Portion<ReaderNo>>,
    pub(crate) writes: Vec<Portion<WriterNo>>,
}

impl Model for Exchange {
    ghost use Rattle.dds_rules.specs.Exchange.{Exchange as Sides};

    ghost Value = { Sides };

    ghost view = { λ x. record { takes = x.takes.items; writes = x.writes.items } };
}

impl Exchange {
    /// The exchange of a rule.
    pub(crate) fn of(alloc: Global, rule: &Rule) -> Result<Exchange, NoMemory>
        ensures { IfOk result (λ x. x ≡ exchange_of (rule_view rule.now)) }
    {
        let takes = Vec::from_slice(alloc, &rule.takes)?;
        let writes = Vec::from_slice(alloc, &rule.writes)?;
        Ok(Exchange { takes, writes })
    }
}

/// Whether fewer takes are unspent than a portion needs.
fn is_short(spare: &Counts, needed: &Portion<ReaderNo>) -> bool
    ensures { result ≡ nat_lt (count_at spare.now needed.now.endpoint needed.now.key) needed.now.count }
{
    spare.at(needed.endpoint.number(), needed.key.number()) < u64::from(needed.count)
}

/// Whether fewer takes are unspent than some portion needs.
fn is_some_short(spare: &Counts, takes: &[Portion<ReaderNo>]) -> bool
    ensures { result ≡ list_any (λ e. nat_lt (count_at spare.now e.endpoint e.key) e.count) takes.now }
{
    takes.iter().any(|needed| is_short(spare, needed))
}

/// Whether a needed take is missing, or nothing is needed.
pub(crate) fn lacks_takes(spare: &Counts, takes: &[Portion<ReaderNo>]) -> bool
    requires { All (IsAlone takes.now) takes.now }
    ensures { result ≡ lacks_takes (count_at spare.now) takes.now }
{
    takes.is_empty() || is_some_short(spare, takes)
}

/// Whether the permits that a portion gives would pass 2^64 - 1.
fn is_full(permits: &Counts, given: &Portion<WriterNo>) -> bool
    ensures { result ≡ nat_le (2 ^ 64) (count_at permits.now given.now.endpoint given.now.key + given.now.count) }
{
    permits.at(given.endpoint.number(), given.key.number()) > u64::MAX - u64::from(given.count)
}

/// Whether the permits that some portion gives would pass 2^64 - 1.
fn is_some_full(permits: &Counts, writes: &[Portion<WriterNo>]) -> bool
    ensures { result ≡ list_any (λ e. nat_le (2 ^ 64) (count_at permits.now e.endpoint e.key + e.count)) writes.now }
{
    writes.iter().any(|given| is_full(permits, given))
}

/// Whether a count of permits would pass 2^64 - 1.
pub(crate) fn lacks_room(permits: &Counts, writes: &[Portion<WriterNo>]) -> bool
    requires { All (IsAlone writes.now) writes.now }
    ensures { result ≡ lacks_room (count_at permits.now) writes.now }
{
    is_some_full(permits, writes)
}

/// Spends what a rule takes.
pub(crate) fn spend(spare: &mut Counts, takes: &[Portion<ReaderNo>])
    requires places { All (HasPlace spare.old.endpoints) takes.now }
    requires there { (r k : ℕ) → named takes.now r k ≤ count_at spare.old r k }
    ensures { IsMoreBy (named takes.now) spare.new spare.old }
{
    for needed in takes {
        spare.subtract(
            needed.endpoint.number(),
            needed.key.number(),
            u64::from(needed.count),
        );
    }
}

/// Gives permits for what a rule writes, so many times.
pub(crate) fn give(permits: &mut Counts, writes: &[Portion<WriterNo>], times: u16)
    requires places { All (HasPlace permits.old.endpoints) writes.now }
    requires room { All (λ e. count_at permits.old e.endpoint e.key + named writes.now e.endpoint e.key * times
        < 2 ^ 64) writes.now }
    ensures { IsMoreBy (λ w k. named writes.now w k * times) permits.old permits.new }
{
    for given in writes {
        permits.add(
            given.endpoint.number(),
            given.key.number(),
            u64::from(given.count) * u64::from(times),
        );
    }
}
