//! Where the policies of two endpoints keep samples from coming, or let one hold up the other.
ghost use Rattle.std.specs.Prelude.{◌≡◌, ◌<◌};
ghost use Rattle.dds_match.specs.Plan.{network_of};
ghost use Rattle.dds_lint.specs.Delivery.{are_incompatible, is_held_up, is_lasting_writer, is_latched, is_of_policies};
ghost use Rattle.dds_lint.specs.Delivery.{is_reliable, is_unheard, is_volatile, is_volatile_reader, keeps_within_limit};
ghost use Rattle.dds_lint.specs.Delivery.{may_lose, may_refuse, misses_history, stalls};

use crate::renewal::ends_at;
use dds_base::{ReaderNo, WriterNo};
use dds_check::written;
use dds_match::{Plan, WhyNot};
use dds_qos::{Durability, ReaderLimits, Reliability, WriterLimits};

/// Whether the reason is that policies are incompatible.
fn is_of_policies(reason: WhyNot) -> bool
    ensures { result ≡ is_of_policies reason }
{
    matches!(reason, WhyNot::Policies(_))
}

/// Whether nothing but their policies keeps the two apart, and no connection names them.
pub(crate) fn are_incompatible(plan: &Plan, writer: WriterNo, reader: ReaderNo) -> bool
    ensures { result ≡ are_incompatible plan.now writer reader }
{
    let differ = match plan.why_not(writer, reader) {
        Some(reason) => is_of_policies(reason),
        None => false,
    };
    differ && !plan.intended(writer, reader)
}

/// Whether rules write at a writer, and no reader matches it.
pub(crate) fn is_unheard(plan: &Plan, writer: WriterNo) -> bool
    ensures { result ≡ is_unheard (network_of plan.now) writer }
{
    0 < written(plan, writer) && plan.readers_of(writer).len() == 0
}

/// Whether the deployment says of a reader that it may lose samples.
pub(crate) fn may_lose(plan: &Plan, reader: ReaderNo) -> bool
    ensures { result ≡ may_lose plan.now reader }
{
    let lists = plan.lists();
    reader.number() < lists.readers() && lists.reader(reader).may_lose
}

/// Whether a reader is there, and asks its writers to repeat what it hasn't got.
fn is_reliable(plan: &Plan, reader: ReaderNo) -> bool
    ensures { result ≡ is_reliable plan.now reader }
{
    let lists = plan.lists();
    if reader.number() >= lists.readers() {
        return false;
    }
    let requested = lists.reader(reader).qos.requested;
    !matches!(requested.reliability, Reliability::BestEffort)
}

/// Whether a reader with these limits refuses what comes when it's full.
fn may_refuse(limits: &ReaderLimits) -> bool
    ensures { result ≡ may_refuse limits.now }
{
    limits.max_samples.is_some()
        || limits.max_instances.is_some()
        || limits.keep_last.is_none() && limits.max_samples_per_instance.is_some()
}

/// Whether a reader may lose samples, and yet its writers repeat to it what it refuses.
pub(crate) fn stalls(plan: &Plan, reader: ReaderNo) -> bool
    requires { reader < (network_of plan.now).readers }
    ensures { result ≡ stalls plan.now reader }
{
    may_lose(plan, reader) && is_reliable(plan, reader) && may_refuse(&plan.reader_limits(reader))
}

/// Whether a writer with these limits keeps all, within a limit of samples.
fn keeps_within_limit(limits: &WriterLimits) -> bool
    ensures { result ≡ keeps_within_limit limits.now }
{
    limits.keep_last.is_none()
        && (limits.max_samples.is_some() || limits.max_samples_per_instance.is_some())
}

/// Whether a writer keeps all within a limit, and waits for what a reader acknowledges.
pub(crate) fn is_held_up(plan: &Plan, writer: WriterNo, reader: ReaderNo) -> bool
    requires { writer < (network_of plan.now).writers }
    ensures { result ≡ is_held_up plan.now writer reader }
{
    plan.matched(writer, reader)
        && is_reliable(plan, reader)
        && keeps_within_limit(&plan.writer_limits(writer))
}

fn is_volatile(durability: Durability) -> bool
    ensures { result ≡ is_volatile durability }
{
    matches!(durability, Durability::Volatile)
}

/// Whether a reader is there, and asks for nothing that was written before it came.
fn is_volatile_reader(plan: &Plan, reader: ReaderNo) -> bool
    ensures { result ≡ is_volatile_reader plan.now reader }
{
    let lists = plan.lists();
    reader.number() < lists.readers() && is_volatile(lists.reader(reader).qos.requested.durability)
}

/// Whether a writer is there, and keeps what it wrote for readers to come.
fn is_lasting_writer(plan: &Plan, writer: WriterNo) -> bool
    ensures { result ≡ is_lasting_writer plan.now writer }
{
    let lists = plan.lists();
    writer.number() < lists.writers() && !is_volatile(lists.writer(writer).qos.offered.durability)
}

/// Whether a writer keeps what it wrote for readers to come, and the rules that write there end.
pub(crate) fn is_latched(plan: &Plan, writer: WriterNo) -> bool
    ensures { result ≡ is_latched plan.now writer }
{
    is_lasting_writer(plan, writer) && ends_at(plan, writer)
}

/// Whether a reader matches a writer, must lose nothing, and yet asks for nothing that was written before it came. If
/// one of them may come at any time, the checker refuses the pair instead.
pub(crate) fn misses_history(plan: &Plan, writer: WriterNo, reader: ReaderNo) -> bool
    requires writer { writer < (network_of plan.now).writers }
    requires reader { reader < (network_of plan.now).readers }
    ensures { result ≡ misses_history plan.now writer reader }
{
    plan.matched(writer, reader)
        && !plan.watcher(reader)
        && is_volatile_reader(plan, reader)
        && !plan.is_late(writer, reader)
}
