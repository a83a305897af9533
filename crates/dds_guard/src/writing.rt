//! Writes: how one may be made, and the firing that comes before one.
ghost use Rattle.std.specs.Prelude.{◌≡◌, ◌+◌, ◌&&◌, ◌==◌, ◌<◌, ◌^◌, All, nat_lt, nat_le, Some, None, Ok};
ghost use Rattle.std.specs.Prelude.{Err, IfOk, IfSome, OnErr, OnOk};
ghost use Rattle.std.specs.List.{list_any};
ghost use Rattle.std.specs.Result.{result_err};
ghost use Rattle.dds_match.specs.Network.{is_named};
ghost use Rattle.dds_rules.specs.Counts.{count_at};
ghost use Rattle.dds_rules.specs.Exchange.{IsAlone, lacks_room, lacks_takes};
ghost use Rattle.dds_rules.specs.Ledger.{fire_refusal};
ghost use Rattle.dds_guard.specs.Guard.{permits_of};
ghost use Rattle.dds_guard.specs.Refusals.{IsFired, IsPaid, IsReady, IsServed, IsServing, IsTakenBack};
ghost use Rattle.dds_guard.specs.Refusals.{IsWritten, is_free, undo_refusal};
ghost use Rattle.dds_guard.specs.Refusals.{serves, serving, way_of};

use crate::account::Account;
use crate::guard::Guard;
use crate::refused::{UndoRefused, WriteRefused};
use crate::rules::GuardRule;
use dds_base::{KeyNo, Portion, ReaderNo, RuleNo, WriterNo};
use dds_rules::Ledger;

/// How a sample may be written.
#[derive(Clone, Copy, Debug, PartialEq, Eq)]
pub(crate) enum Way {
    /// The application may write it at any time.
    Free,
    /// There is a permit.
    Permit,
    /// This rule gives a permit once it is fired.
    Rule(RuleNo),
}

/// Whether some portion is of this writer and key.
fn names(portions: &[Portion<WriterNo>], writer: WriterNo, key: KeyNo) -> bool
    ensures { result ≡ is_named portions.now writer key }
{
    portions
        .iter()
        .any(|portion| portion.endpoint == writer && portion.key == key)
}

/// Whether fewer takes are unspent than a portion needs.
fn is_short(ledger: &Ledger, needed: &Portion<ReaderNo>) -> bool
    ensures { result ≡ nat_lt (count_at ledger.now.spare needed.now.endpoint needed.now.key) needed.now.count }
{
    ledger.spare(needed.endpoint, needed.key) < u64::from(needed.count)
}

/// Whether fewer takes are unspent than some portion needs.
fn is_some_short(ledger: &Ledger, takes: &[Portion<ReaderNo>]) -> bool
    ensures { result ≡ list_any (λ e. nat_lt (count_at ledger.now.spare e.endpoint e.key) e.count) takes.now }
{
    takes.iter().any(|needed| is_short(ledger, needed))
}

/// Whether a needed take is missing, or nothing is needed.
fn lacks_takes(ledger: &Ledger, takes: &[Portion<ReaderNo>]) -> bool
    requires { All (IsAlone takes.now) takes.now }
    ensures { result ≡ lacks_takes (count_at ledger.now.spare) takes.now }
{
    takes.is_empty() || is_some_short(ledger, takes)
}

/// Whether the permits that a portion gives would pass 2^64 - 1.
fn is_full(ledger: &Ledger, given: &Portion<WriterNo>) -> bool
    ensures { result ≡ nat_le (2 ^ 64)
        (count_at ledger.now.permits given.now.endpoint given.now.key + given.now.count) }
{
    ledger.permits(given.endpoint, given.key) > u64::MAX - u64::from(given.count)
}

/// Whether the permits that some portion gives would pass 2^64 - 1.
fn is_some_full(ledger: &Ledger, writes: &[Portion<WriterNo>]) -> bool
    ensures { result ≡ list_any
        (λ e. nat_le (2 ^ 64) (count_at ledger.now.permits e.endpoint e.key + e.count)) writes.now }
{
    writes.iter().any(|given| is_full(ledger, given))
}

/// Whether a count of permits would pass 2^64 - 1.
fn lacks_room(ledger: &Ledger, writes: &[Portion<WriterNo>]) -> bool
    requires { All (IsAlone writes.now) writes.now }
    ensures { result ≡ lacks_room (count_at ledger.now.permits) writes.now }
{
    is_some_full(ledger, writes)
}

/// Whether a rule of the application gives a permit for the key at the writer, and can be fired.
fn serves(account: &Account, rule: &GuardRule, writer: WriterNo, key: KeyNo) -> bool
    requires takes { All (IsAlone rule.now.takes) rule.now.takes }
    requires writes { All (IsAlone rule.now.writes) rule.now.writes }
    ensures { result ≡ serves account.now.ledger writer key rule.now }
{
    rule.own
        && names(&rule.writes, writer, key)
        && !lacks_takes(&account.ledger, &rule.takes)
        && !lacks_room(&account.ledger, &rule.writes)
}

impl Guard {
    /// Whether the application may write the key at the writer at any time.
    fn is_free(&self, writer: WriterNo, key: KeyNo) -> bool
        ensures { result ≡ is_free self.now.rules writer key }
    {
        self.rules
            .iter()
            .any(|rule| rule.free && names(&rule.writes, writer, key))
    }

    /// The first rule that gives a permit for the key at the writer and can be fired.
    fn serving(&self, writer: WriterNo, key: KeyNo) -> Option<RuleNo>
        ensures first { result ≡ serving self.now writer key }
        ensures ready { IfSome result (IsServing self.now writer key) }
    {
        for u in 0..self.rules.len() {
            let rule = &self.rules[u];
            if serves(&self.account, rule, writer, key) {
                return Some(RuleNo::new(u));
            }
        }
        None
    }

    /// How a sample may be written, or why not.
    fn way(&self, writer: WriterNo, key: KeyNo) -> Result<Way, WriteRefused>
        ensures value { result ≡ way_of self.now writer key }
        ensures ready { IfOk result (IsReady self.now writer key) }
    {
        if !self.writers.contains(&writer) {
            return Err(WriteRefused::Foreign);
        }
        if self.is_free(writer, key) {
            return Ok(Way::Free);
        }
        if self.left(writer, key) > 0 {
            return Ok(Way::Permit);
        }
        match self.serving(writer, key) {
            Some(rule) => Ok(Way::Rule(rule)),
            None => Err(WriteRefused::NoPermit),
        }
    }

    /// Uses a permit, one that is there: it is held instead of the last one.
    fn pay(&mut self, writer: WriterNo, key: KeyNo)
        requires { 0 < permits_of self.old writer key }
        ensures { IsPaid writer key self.old self.new }
    {
        self.account.pay(writer, key);
    }

    /// Fires a rule that can be fired.
    fn fire_ready(&mut self, rule: RuleNo)
        requires { fire_refusal self.old.ledger rule ≡ None }
        ensures { IsFired rule self.old self.new }
    {
        self.account.fire(rule).unwrap();
    }

    /// Whether the application may write a sample of a key now: what `write` would answer.
    pub fn may_write(&self, writer: WriterNo, key: KeyNo) -> Result<(), WriteRefused>
        ensures { result_err result ≡ result_err (way_of self.now writer key) }
    {
        self.way(writer, key)?;
        Ok(())
    }

    /// The application is about to write a sample of a key. Where the write isn't free it uses a permit; where none is
    /// left, the first rule of the application that gives one and can be fired is fired before. A refusal changes
    /// nothing, and then the sample may not be written.
    pub fn write(&mut self, writer: WriterNo, key: KeyNo) -> Result<(), WriteRefused>
        ensures answer { result_err result ≡ result_err (way_of self.old writer key) }
        ensures written { IsWritten (way_of self.old writer key) writer key self.old self.new }
        ensures err { OnErr result (self.new ≡ self.old) }
    {
        match self.way(writer, key) {
            Ok(way) => {
                self.go(way, writer, key);
                Ok(())
            }
            Err(refused) => Err(refused),
        }
    }

    /// What a write in this way changes.
    fn go(&mut self, way: Way, writer: WriterNo, key: KeyNo)
        requires { IsReady self.old writer key way }
        ensures { IsWritten (Ok way) writer key self.old self.new }
    {
        match way {
            Way::Free => {}
            Way::Permit => self.pay(writer, key),
            Way::Rule(rule) => self.serve(rule, writer, key),
        }
    }

    /// Fires a rule that gives a permit, and uses one.
    fn serve(&mut self, rule: RuleNo, writer: WriterNo, key: KeyNo)
        requires { IsServing self.old writer key rule }
        ensures { IsServed rule writer key self.old self.new }
    {
        self.fire_ready(rule);
        self.pay(writer, key);
    }
    /// Takes back a write that `write` let through, and that DDS refused. It has to be the last one that used a permit;
    /// a free write used none. Then the guard is as it was before that permit was used: a rule that was fired for the
    /// write stays fired. A refusal changes nothing.
    pub fn undo_write(&mut self, writer: WriterNo, key: KeyNo) -> Result<(), UndoRefused>
        ensures answer { result_err result ≡ undo_refusal self.old writer key }
        ensures undone { OnOk result (IsTakenBack (is_free self.old.rules writer key) writer key self.old self.new) }
        ensures err { OnErr result (self.new ≡ self.old) }
    {
        if !self.writers.contains(&writer) {
            return Err(UndoRefused::Foreign);
        }
        if self.is_free(writer, key) {
            return Ok(());
        }
        if !self.account.holds(writer, key) {
            return Err(UndoRefused::NotWritten);
        }
        self.account.give_back(writer, key);
        Ok(())
    }
}
