//! What a writer offers and a reader requests where their policies don't agree, field by field (OMG DDS 1.4, clause
//! 2.2.3).
ghost use Rattle.std.specs.Prelude.{◌≡◌, IfOk, codes, option_map, string_bytes};
ghost use Rattle.dds_explain.specs.Values.{compared_lines, duration_line, duration_text, flag_line, kind_line};
ghost use Rattle.dds_explain.specs.Values.{lease_line, liveliness_lines, offer_of, policy_lines, presentation_lines};
ghost use Rattle.dds_explain.specs.Values.{request_of, scope_line, set_lines, unmet_lines, value_line};
ghost use Rattle.dds_explain.specs.Values.{value_lines};

use dds_base::{ReaderNo, WriterNo};
use dds_match::Plan;
use dds_qos::{Duration, Liveliness, Policies, Policy, PolicySet, Presentation};
use dds_show::times::time_text;
use dds_text::texts::{TextResult, text_of_each};
use dds_text::words::{
    access_scope_word, destination_order_word, durability_word, liveliness_word, ownership_word,
    reliability_word,
};
use std::alloc::Global;

/// A field of the file, with what is offered and what is requested there.
fn value_line(alloc: Global, field: &str, offered: &str, requested: &str) -> TextResult
    ensures { IfOk result (λ text. string_bytes text ≡ value_line field.now offered.now requested.now) }
{
    format!(in alloc; "  {field}: offered {offered}, requested {requested}\n")
}

fn duration_text(alloc: Global, duration: Duration) -> TextResult
    ensures { IfOk result (λ text. string_bytes text ≡ duration_text duration) }
{
    match duration {
        Duration::Nanoseconds(n) => time_text(alloc, n),
        Duration::Infinite => String::from_str(alloc, "infinite"),
    }
}

/// A field that holds a length of time.
fn duration_line(alloc: Global, field: &str, offered: Duration, requested: Duration) -> TextResult
    ensures { IfOk result (λ text. string_bytes text ≡ duration_line field.now offered requested) }
{
    let offered = duration_text(alloc, offered)?;
    let requested = duration_text(alloc, requested)?;
    value_line(alloc, field, offered.as_str(), requested.as_str())
}

/// A field that holds true or false, where true is requested and isn't offered.
fn flag_line(alloc: Global, field: &str, offered: bool, requested: bool) -> TextResult
    ensures { IfOk result (λ text. string_bytes text ≡ flag_line field.now offered requested) }
{
    if requested && !offered {
        value_line(alloc, field, "false", "true")
    } else {
        Ok(String::new(alloc))
    }
}

/// The scope of PRESENTATION, where a narrower one is offered than requested.
fn scope_line(alloc: Global, offered: Presentation, requested: Presentation) -> TextResult
    ensures { IfOk result (λ text. string_bytes text ≡ scope_line offered requested) }
{
    if offered.access_scope >= requested.access_scope {
        return Ok(String::new(alloc));
    }
    let offered = access_scope_word(offered.access_scope);
    let requested = access_scope_word(requested.access_scope);
    value_line(alloc, "access_scope", offered, requested)
}

/// The fields of PRESENTATION whose offer doesn't meet the request.
fn presentation_lines(alloc: Global, offered: Presentation, requested: Presentation) -> TextResult
    ensures { IfOk result (λ text. string_bytes text ≡ presentation_lines offered requested) }
{
    let scope = scope_line(alloc, offered, requested)?;
    let coherent = flag_line(alloc, "coherent", offered.coherent, requested.coherent)?;
    let ordered = flag_line(alloc, "ordered", offered.ordered, requested.ordered)?;
    format!(in alloc; "{scope}{coherent}{ordered}")
}

/// The kind of LIVELINESS, where a weaker one is offered than requested.
fn kind_line(alloc: Global, offered: Liveliness, requested: Liveliness) -> TextResult
    ensures { IfOk result (λ text. string_bytes text ≡ kind_line offered requested) }
{
    if offered.kind >= requested.kind {
        return Ok(String::new(alloc));
    }
    let offered = liveliness_word(offered.kind);
    let requested = liveliness_word(requested.kind);
    value_line(alloc, "liveliness", offered, requested)
}

/// The lease of LIVELINESS, where a longer one is offered than requested.
fn lease_line(alloc: Global, offered: Liveliness, requested: Liveliness) -> TextResult
    ensures { IfOk result (λ text. string_bytes text ≡ lease_line offered requested) }
{
    if offered.lease <= requested.lease {
        return Ok(String::new(alloc));
    }
    duration_line(alloc, "lease", offered.lease, requested.lease)
}

/// The fields of LIVELINESS whose offer doesn't meet the request.
fn liveliness_lines(alloc: Global, offered: Liveliness, requested: Liveliness) -> TextResult
    ensures { IfOk result (λ text. string_bytes text ≡ liveliness_lines offered requested) }
{
    let kind = kind_line(alloc, offered, requested)?;
    let lease = lease_line(alloc, offered, requested)?;
    format!(in alloc; "{kind}{lease}")
}

/// The fields of a policy whose offer doesn't meet the request, if it doesn't.
fn policy_lines(
    alloc: Global,
    offered: &Policies,
    requested: &Policies,
    policy: Policy,
) -> TextResult
    ensures { IfOk result (λ text. string_bytes text ≡ policy_lines offered.now requested.now policy) }
{
    match policy {
        Policy::Durability => value_line(
            alloc,
            "durability",
            durability_word(offered.durability),
            durability_word(requested.durability),
        ),
        Policy::Presentation => {
            presentation_lines(alloc, offered.presentation, requested.presentation)
        }
        Policy::Deadline => duration_line(alloc, "deadline", offered.deadline, requested.deadline),
        Policy::LatencyBudget => duration_line(
            alloc,
            "latency_budget",
            offered.latency_budget,
            requested.latency_budget,
        ),
        Policy::Ownership => value_line(
            alloc,
            "ownership",
            ownership_word(offered.ownership),
            ownership_word(requested.ownership),
        ),
        Policy::Liveliness => liveliness_lines(alloc, offered.liveliness, requested.liveliness),
        Policy::Reliability => value_line(
            alloc,
            "reliability",
            reliability_word(offered.reliability),
            reliability_word(requested.reliability),
        ),
        Policy::DestinationOrder => value_line(
            alloc,
            "destination_order",
            destination_order_word(offered.destination_order),
            destination_order_word(requested.destination_order),
        ),
    }
}

/// The fields of a policy of the set.
fn unmet_lines(
    alloc: Global,
    set: PolicySet,
    offered: &Policies,
    requested: &Policies,
    policy: Policy,
) -> TextResult
    ensures { IfOk result (λ text. string_bytes text ≡ unmet_lines set offered.now requested.now policy) }
{
    if set.contains(policy) {
        policy_lines(alloc, offered, requested, policy)
    } else {
        Ok(String::new(alloc))
    }
}

/// The fields of the policies of the set, in the order of the standard.
fn set_lines(alloc: Global, set: PolicySet, offered: &Policies, requested: &Policies) -> TextResult
    ensures { IfOk result (λ text. string_bytes text ≡ set_lines set offered.now requested.now) }
{
    text_of_each(
        alloc,
        &Policy::ALL,
        |policy|
            ensures { IfOk result (λ text. string_bytes text
                ≡ unmet_lines set offered.entry.now requested.entry.now policy.now) }
        { unmet_lines(alloc, set, offered, requested, *policy) },
    )
}

/// What a writer offers, if there is such a writer.
fn offer_of(plan: &Plan, writer: WriterNo) -> Option<&Policies>
    ensures { option_map (λ policies. policies.now) result ≡ offer_of plan.now writer }
{
    let lists = plan.lists();
    if writer.number() < lists.writers() {
        Some(&lists.writer(writer).qos.offered)
    } else {
        None
    }
}

/// What a reader requests, if there is such a reader.
fn request_of(plan: &Plan, reader: ReaderNo) -> Option<&Policies>
    ensures { option_map (λ policies. policies.now) result ≡ request_of plan.now reader }
{
    let lists = plan.lists();
    if reader.number() < lists.readers() {
        Some(&lists.reader(reader).qos.requested)
    } else {
        None
    }
}

/// The fields of the policies of the set, of an offer and a request if there are some.
fn compared_lines(
    alloc: Global,
    set: PolicySet,
    offer: Option<&Policies>,
    request: Option<&Policies>,
) -> TextResult
    ensures { IfOk result
        (λ text. string_bytes text ≡ compared_lines set (option_map (λ policies. policies.now) offer.entry)
        (option_map (λ policies. policies.now) request.entry)) }
{
    match offer {
        Some(offered) => match request {
            Some(requested) => set_lines(alloc, set, offered, requested),
            None => Ok(String::new(alloc)),
        },
        None => Ok(String::new(alloc)),
    }
}

/// The fields in which the policies of the set, of a writer and of a reader, don't agree: a line each.
pub(crate) fn value_lines(
    alloc: Global,
    plan: &Plan,
    set: PolicySet,
    writer: WriterNo,
    reader: ReaderNo,
) -> TextResult
    ensures { IfOk result (λ text. string_bytes text ≡ value_lines plan.now set writer reader) }
{
    let offer = offer_of(plan, writer);
    let request = request_of(plan, reader);
    compared_lines(alloc, set, offer, request)
}
