//! The fields of an endpoint's policies in JSON, each with its value, in the order of the file's format.
ghost use Rattle.std.specs.Prelude.{◌≡◌, IfOk, string_bytes};
ghost use Rattle.dds_show.specs.Policies.{delivery_fields, history_fields, limits_fields, liveliness_fields};
ghost use Rattle.dds_show.specs.Policies.{policies_fields, presentation_fields, timing_fields};

use crate::pieces::{duration_text, limit_text};
use dds_qos::{History, Liveliness, Policies, Presentation, ResourceLimits};
use dds_text::texts::TextResult;
use dds_text::words::{
    access_scope_word, destination_order_word, durability_word, flag_word, history_word,
    liveliness_word, ownership_word, reliability_word,
};
use std::alloc::Global;

fn presentation_fields(alloc: Global, x: Presentation) -> TextResult
    ensures { IfOk result (λ text. string_bytes text ≡ presentation_fields x) }
{
    let scope = access_scope_word(x.access_scope);
    let coherent = flag_word(x.coherent);
    let ordered = flag_word(x.ordered);
    format!(in alloc;
        "\"access_scope\": \"{scope}\", \"coherent\": {coherent}, \"ordered\": {ordered}"
    )
}

// What is said of the past and of time.
fn timing_fields(alloc: Global, p: &Policies) -> TextResult
    ensures { IfOk result (λ text. string_bytes text ≡ timing_fields p.now) }
{
    let durability = durability_word(p.durability);
    let presentation = presentation_fields(alloc, p.presentation)?;
    let deadline = duration_text(alloc, p.deadline)?;
    let budget = duration_text(alloc, p.latency_budget)?;
    format!(in alloc;
        "\"durability\": \"{durability}\", {presentation}, \"deadline\": {deadline}, \"latency_budget\": {budget}"
    )
}

fn liveliness_fields(alloc: Global, x: Liveliness) -> TextResult
    ensures { IfOk result (λ text. string_bytes text ≡ liveliness_fields x) }
{
    let kind = liveliness_word(x.kind);
    let lease = duration_text(alloc, x.lease)?;
    format!(in alloc; "\"liveliness\": \"{kind}\", \"lease\": {lease}")
}

// What is said of who writes and how samples come.
fn delivery_fields(alloc: Global, p: &Policies) -> TextResult
    ensures { IfOk result (λ text. string_bytes text ≡ delivery_fields p.now) }
{
    let ownership = ownership_word(p.ownership);
    let liveliness = liveliness_fields(alloc, p.liveliness)?;
    let reliability = reliability_word(p.reliability);
    let order = destination_order_word(p.destination_order);
    format!(in alloc;
        "\"ownership\": \"{ownership}\", {liveliness}, \"reliability\": \"{reliability}\", \
         \"destination_order\": \"{order}\""
    )
}

fn history_fields(alloc: Global, x: History) -> TextResult
    ensures { IfOk result (λ text. string_bytes text ≡ history_fields x) }
{
    let kind = history_word(x.kind);
    let depth = x.depth;
    format!(in alloc; "\"history\": \"{kind}\", \"depth\": {depth}")
}

fn limits_fields(alloc: Global, x: ResourceLimits) -> TextResult
    ensures { IfOk result (λ text. string_bytes text ≡ limits_fields x) }
{
    let samples = limit_text(alloc, x.max_samples)?;
    let instances = limit_text(alloc, x.max_instances)?;
    let of_one = limit_text(alloc, x.max_samples_per_instance)?;
    format!(in alloc;
        "\"max_samples\": {samples}, \"max_instances\": {instances}, \"max_samples_per_instance\": {of_one}"
    )
}

/// All policies but the partitions.
pub(crate) fn policies_fields(alloc: Global, p: &Policies) -> TextResult
    ensures { IfOk result (λ text. string_bytes text ≡ policies_fields p.now) }
{
    let timing = timing_fields(alloc, p)?;
    let delivery = delivery_fields(alloc, p)?;
    let history = history_fields(alloc, p.history)?;
    let limits = limits_fields(alloc, p.resource_limits)?;
    format!(in alloc; "{timing}, {delivery}, {history}, {limits}")
}
