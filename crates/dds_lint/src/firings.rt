//! How often each rule can fire at most, by how much can come of what it takes.
ghost use Rattle.std.specs.Prelude.{◌≡◌, ◌≢◌, ◌+◌, ◌*◌, ◌^◌, ◌<◌, ◌≤◌, ℕ, true, length};
ghost use Rattle.std.specs.Prelude.{replicate, slice_index, IfNone, IfOk};
ghost use Rattle.std.specs.Prelude.{IfSome};
ghost use Rattle.std.specs.List.{list_all, sum_by};
ghost use Rattle.dds_base.specs.Grid.{most_endpoints, most_keys, most_places};
ghost use Rattle.dds_match.specs.Plan.{network_of};
ghost use Rattle.dds_lint.specs.Firings.{AreClosed, AreLimits, ShowsSent, can_fire, can_fire_by, capped};
ghost use Rattle.dds_lint.specs.Firings.{comes_by, covers_by, has_takes, most_firings, opens, rounds, sends, share};

use dds_base::grid::{KEYS, PLACES};
use dds_base::limits::RULES;
use dds_base::{KeyNo, NoMemory, Portion, ReaderNo, RuleNo, WriterNo};
use dds_conditions::{readers_of, rules_of};
use dds_lists::Rule;
use dds_match::Plan;
use std::alloc::Global;

/// So many firings of a rule are counted. One that can fire more often counts as one that fires without end.
pub(crate) const MOST_FIRINGS: u16 = 1_000;

/// What comes of a rule that writes without end: more than so many firings, and one, take of anything.
const PLENTY: u32 = 2_147_483_648;

/// Whether a rule takes something.
pub(crate) fn has_takes(plan: &Plan, rule: RuleNo) -> bool
    requires { rule < (network_of plan.now).rules }
    ensures { result ≡ has_takes (network_of plan.now) rule }
{
    0 < plan.rule(rule).takes.len()
}

/// Whether a rule permits writes at the opening, or at any time.
pub(crate) fn opens(plan: &Plan, rule: RuleNo) -> bool
    requires { rule < (network_of plan.now).rules }
    ensures { result ≡ opens (network_of plan.now) rule }
{
    let rule = plan.rule(rule);
    rule.free || 0 < rule.start
}

/// How often a rule permits its writes, where it fires so often.
fn rounds(plan: &Plan, rule: RuleNo, firings: u16) -> u32
    requires { rule < (network_of plan.now).rules }
    ensures { result ≡ rounds (network_of plan.now) rule firings }
{
    let rule = plan.rule(rule);
    let often = u32::from(rule.start) + u32::from(firings);
    if rule.free || MOST_FIRINGS < firings {
        often + PLENTY
    } else {
        often
    }
}

/// The sum, as far as it's counted.
fn capped_sum(cell: u32, more: u64) -> u32
    requires { more < 2 ^ 60 }
    ensures { result ≡ capped (cell + more) }
{
    let sum = u64::from(cell) + more;
    if sum < u64::from(u32::MAX) {
        sum as u32
    } else {
        u32::MAX
    }
}

/// So many times a count.
fn product(count: u16, times: u32) -> u64
    ensures value { result ≡ count * times }
    ensures small { result < 2 ^ 60 }
{
    let product = u64::from(count) * u64::from(times);
    product
}

/// Adds what one write comes to at a reader, so many times.
#[tactic(auto, using(crate::proofs::FiringLaws::nowhere))]
fn add_write(
    cells: &mut [u32],
    plan: &Plan,
    reader: ReaderNo,
    write: &Portion<WriterNo>,
    times: u32,
)
    requires len { length cells.old ≡ most_places }
    requires reader { reader < most_endpoints }
    ensures len { length cells.new ≡ most_places }
    ensures added { (k : ℕ) → k < most_keys → capped (slice_index cells.new (reader * most_keys + k))
        ≡ capped (slice_index cells.old (reader * most_keys + k)
        + share (network_of plan.now) reader k write.now * times) }
    ensures others { (r k : ℕ) → r ≢ reader → k < most_keys
        → slice_index cells.new (r * most_keys + k) ≡ slice_index cells.old (r * most_keys + k) }
{
    let row = reader.number();
    let key = write.key.number();
    if KEYS <= key {
        return;
    }
    if !plan.matched(write.endpoint, reader) {
        return;
    }
    let place = row * KEYS + key;
    cells[place] = capped_sum(cells[place], product(write.count, times));
}

/// Adds what one write comes to at each reader, so many times.
fn spread(cells: &mut [u32], plan: &Plan, write: &Portion<WriterNo>, times: u32)
    requires { length cells.old ≡ most_places }
    ensures len { length cells.new ≡ most_places }
    ensures added { (r k : ℕ) → r < (network_of plan.now).readers → k < most_keys
        → capped (slice_index cells.new (r * most_keys + k))
        ≡ capped (slice_index cells.old (r * most_keys + k) + share (network_of plan.now) r k write.now * times) }
{
    for r in 0..readers_of(plan) {
        add_write(cells, plan, ReaderNo::new(r), write, times);
    }
}

/// Adds what the writes of a rule come to, so many times.
fn add_writes(cells: &mut [u32], plan: &Plan, rule: &Rule, times: u32)
    requires { length cells.old ≡ most_places }
    ensures len { length cells.new ≡ most_places }
    ensures added { (r k : ℕ) → r < (network_of plan.now).readers → k < most_keys
        → capped (slice_index cells.new (r * most_keys + k))
        ≡ capped (slice_index cells.old (r * most_keys + k)
        + sum_by (share (network_of plan.now) r k) rule.now.writes.items * times) }
{
    for write in &rule.writes {
        spread(cells, plan, write, times);
    }
}

/// The same of the rule with this number.
fn add(cells: &mut [u32], plan: &Plan, rule: RuleNo, times: u32)
    requires len { length cells.old ≡ most_places }
    requires rule { rule < (network_of plan.now).rules }
    ensures len { length cells.new ≡ most_places }
    ensures added { (r k : ℕ) → r < (network_of plan.now).readers → k < most_keys
        → capped (slice_index cells.new (r * most_keys + k))
        ≡ capped (slice_index cells.old (r * most_keys + k) + sends (network_of plan.now) r k rule * times) }
{
    add_writes(cells, plan, plan.rule(rule), times);
}

/// Adds what comes of a rule that fires more often than before.
fn raise(cells: &mut [u32], plan: &Plan, rule: RuleNo, from: u16, to: u16)
    requires rule { rule < (network_of plan.now).rules }
    requires more { from ≤ to }
    requires len { length cells.old ≡ most_places }
    ensures { (old new : ℕ → ℕ) → old rule ≡ from → new rule ≡ to → ((u : ℕ) → u ≢ rule → new u ≡ old u)
        → ShowsSent (network_of plan.now) old cells.old → ShowsSent (network_of plan.now) new cells.new }
{
    let before = rounds(plan, rule, from);
    let after = rounds(plan, rule, to);
    let times = after - before;
    add(cells, plan, rule, times);
}

/// Adds what is sent where no rule has fired, where nothing is there yet.
fn open(cells: &mut [u32], plan: &Plan)
    requires { cells.old ≡ replicate most_places 0 }
    ensures { (limit : ℕ → ℕ) → ((u : ℕ) → limit u ≡ 0) → ShowsSent (network_of plan.now) limit cells.new }
{
    for u in 0..rules_of(plan) {
        let rule = RuleNo::new(u);
        let times = rounds(plan, rule, 0);
        add(cells, plan, rule, times);
    }
}

/// How many samples of a key can come to a reader, as far as that's counted.
#[tactic(auto, using(crate::proofs::FiringLaws::nothing_past, crate::proofs::FiringLaws::nothing_heard))]
fn comes(cells: &[u32], plan: &Plan, reader: ReaderNo, key: KeyNo) -> u32
    requires { length cells.now ≡ most_places }
    ensures { result ≡ comes_by (network_of plan.now) cells.now reader key }
{
    // A key that a reader hears is there, and so is the reader.
    plan.assert_well_formed();
    let row = reader.number();
    let column = key.number();
    if readers_of(plan) <= row {
        return 0;
    }
    if !plan.hears(reader, key) {
        return 0;
    }
    let place = row * KEYS + column;
    cells[place]
}

/// Whether so many times what is taken there can come.
fn covers(cells: &[u32], plan: &Plan, firings: u16, take: &Portion<ReaderNo>) -> bool
    requires few { firings ≤ most_firings + 1 }
    requires len { length cells.now ≡ most_places }
    ensures { result ≡ covers_by (network_of plan.now) cells.now firings take.now }
{
    u32::from(firings) * u32::from(take.count) <= comes(cells, plan, take.endpoint, take.key)
}

/// Whether so many times all that a rule takes can come.
fn covers_all(cells: &[u32], plan: &Plan, rule: RuleNo, firings: u16) -> bool
    requires rule { rule < (network_of plan.now).rules }
    requires few { firings ≤ most_firings + 1 }
    requires len { length cells.now ≡ most_places }
    ensures { result
        ≡ list_all (covers_by (network_of plan.now) cells.now firings) ((network_of plan.now).rule rule).takes }
{
    plan.rule(rule)
        .takes
        .iter()
        .all(|take| covers(cells, plan, firings, take))
}

/// Whether a rule can fire so often.
fn can_fire(cells: &[u32], plan: &Plan, rule: RuleNo, firings: u16) -> bool
    requires rule { rule < (network_of plan.now).rules }
    requires few { firings ≤ most_firings + 1 }
    requires len { length cells.now ≡ most_places }
    ensures { result ≡ can_fire_by (network_of plan.now) cells.now rule firings }
{
    has_takes(plan, rule) && covers_all(cells, plan, rule, firings)
}

/// The least number of firings for which there's enough of everything that a rule takes, as far as they're counted.
fn most_covered(cells: &[u32], plan: &Plan, rule: RuleNo) -> u16
    requires rule { rule < (network_of plan.now).rules }
    requires len { length cells.now ≡ most_places }
    ensures { result ≤ most_firings + 1 }
{
    let mut most = MOST_FIRINGS + 1;
    for take in &plan.rule(rule).takes {
        let there = comes(cells, plan, take.endpoint, take.key);
        let covered = there.checked_div(u32::from(take.count)).unwrap_or(there);
        if covered < u32::from(most) {
            most = covered as u16;
        }
    }
    most
}

/// A number of firings above a limit that a rule can come to, if it can fire more often than that.
fn next_firings(cells: &[u32], plan: &Plan, rule: RuleNo, limit: u16) -> Option<u16>
    requires rule { rule < (network_of plan.now).rules }
    requires len { length cells.now ≡ most_places }
    ensures few { IfSome result (λ n. n ≤ most_firings + 1) }
    ensures more { IfSome result (λ n. limit < n) }
    ensures fires { IfSome result (λ n. can_fire_by (network_of plan.now) cells.now rule n ≡ true) }
    ensures none { IfNone result
        ((n : ℕ) → n ≤ most_firings + 1 → can_fire_by (network_of plan.now) cells.now rule n ≡ true → n ≤ limit) }
{
    if MOST_FIRINGS < limit {
        return None;
    }
    if !can_fire(cells, plan, rule, limit + 1) {
        return None;
    }
    let most = most_covered(cells, plan, rule);
    if limit < most && can_fire(cells, plan, rule, most) {
        Some(most)
    } else {
        Some(limit + 1)
    }
}

/// A rule that can fire more often than its limit says, and how often.
#[derive(Clone, Copy)]
struct Rise {
    rule: usize,
    firings: u16,
}

/// A rule that can fire more often than its limit says, if there is one.
fn next_rise(cells: &[u32], plan: &Plan, limits: &[u16; RULES]) -> Option<Rise>
    requires { ShowsSent (network_of plan.now) (slice_index limits.now) cells.now }
    ensures inside { IfSome result (λ p. p.rule < (network_of plan.now).rules) }
    ensures few { IfSome result (λ p. p.rule < 256) }
    ensures most { IfSome result (λ p. p.firings ≤ most_firings + 1) }
    ensures more { IfSome result (λ p. slice_index limits.now p.rule < p.firings) }
    ensures fires { IfSome result
        (λ p. can_fire (network_of plan.now) (slice_index limits.now) p.rule p.firings ≡ true) }
    ensures closed { IfNone result (AreClosed (network_of plan.now) (slice_index limits.now)) }
{
    // Its lists name nothing that isn't there.
    plan.assert_well_formed();
    for u in 0..rules_of(plan) {
        let limit = limits[u];
        if let Some(firings) = next_firings(cells, plan, RuleNo::new(u), limit) {
            return Some(Rise { rule: u, firings });
        }
    }
    None
}

/// How often each rule can fire at most, found in a table with nothing in it.
fn settle(cells: &mut [u32], plan: &Plan) -> [u16; RULES]
    requires { cells.old ≡ replicate most_places 0 }
    ensures { AreLimits (network_of plan.now) (slice_index result) }
{
    let mut limits = [0; RULES];
    open(cells, plan);
    while let Some(rise) = next_rise(cells, plan, &limits) {
        let before = limits[rise.rule];
        raise(cells, plan, RuleNo::new(rise.rule), before, rise.firings);
        limits[rise.rule] = rise.firings;
    }
    limits
}

/// How often each rule can fire at most, by its number, as far as firings are counted. `NoMemory` is the only error.
pub(crate) fn limits_of(alloc: Global, plan: &Plan) -> Result<[u16; RULES], NoMemory>
    ensures { IfOk result (λ limits. AreLimits (network_of plan.now) (slice_index limits)) }
{
    let mut cells = vec![in alloc; 0; PLACES]?;
    Ok(settle(&mut cells, plan))
}
