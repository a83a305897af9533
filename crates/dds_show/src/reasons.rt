//! Why a writer and a reader don't match, in words.
ghost use Rattle.std.specs.Prelude.{◌≡◌, ◌++◌, ◌∷◌, [], IfOk, codes, filter, map, string_bytes};
ghost use Rattle.std.specs.List.{join_by};
ghost use Rattle.dds_qos.specs.Compatibility.{contains, name_of, policies};
ghost use Rattle.dds_show.specs.Reasons.{reason_words};

use dds_base::NoMemory;
use dds_match::WhyNot;
use dds_qos::{Policy, PolicySet};
use dds_text::texts::TextResult;
use std::alloc::Global;

/// Adds the name of a policy, if it is in the set.
fn push_name(names: &mut Vec<&'static str>, set: PolicySet, policy: &Policy) -> Result<(), NoMemory>
    ensures { IfOk result
        (λ _. map (λ s. s.now) names.new.items
        ≡ map (λ s. s.now) names.old.items ++ map name_of (filter (contains set) (policy.now ∷ []))) }
{
    if set.contains(*policy) {
        names.push(policy.name())?;
    }
    Ok(())
}

/// The names of the policies of a set, with commas between them.
fn policies_text(alloc: Global, set: PolicySet) -> TextResult
    ensures { IfOk result (λ text. string_bytes text ≡ join_by name_of (codes ",") (filter (contains set) policies)) }
{
    let mut names = Vec::new(alloc);
    for policy in &Policy::ALL {
        push_name(&mut names, set, policy)?;
    }
    names.join(alloc, ",")
}

/// Why a writer and a reader don't match, in words: `domain`, `topic`, `partition`, or `policies` and the names of the
/// incompatible ones, with commas between them (OMG DDS 1.4, clause 2.2.3). `NoMemory` is the only error.
pub fn reason_text(alloc: Global, reason: WhyNot) -> TextResult
    ensures { IfOk result (λ text. string_bytes text ≡ reason_words reason) }
{
    match reason {
        WhyNot::OtherDomain => String::from_str(alloc, "domain"),
        WhyNot::OtherTopic => String::from_str(alloc, "topic"),
        WhyNot::Partitions => String::from_str(alloc, "partition"),
        WhyNot::Policies(set) => {
            let names = policies_text(alloc, set)?;
            format!(in alloc; "policies {names}")
        }
    }
}
