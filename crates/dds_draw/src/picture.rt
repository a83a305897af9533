//! The picture of a deployment, as a document in DOT.
ghost use Rattle.std.specs.Prelude.{◌≡◌, IfOk, option_map, string_bytes};
ghost use Rattle.dds_weights.specs.Views.{certificate_view};
ghost use Rattle.dds_draw.specs.Picture.{drawing};

use crate::clusters::participant_clusters;
use crate::edges::{all_pair_edges, all_rule_edges};
use dds_match::Plan;
use dds_text::texts::TextResult;
use dds_weights::Certificate;
use std::alloc::Global;

/// A deployment as a document in DOT, which Graphviz renders: `dot -Tsvg`. Each participant is a cluster, with a dashed
/// border where it may come at any time, and in it each of its applications with the names of its writers and readers
/// and with its rules. Writers and readers have their topics and limits in their labels, and readers also what the
/// certificate shows of them, where one is given. Edges lead from readers over rules to writers, with counts of samples
/// and keys, and from writers to the readers that match or that a connection names (OMG DDS 1.4, clause 2.2.3); where
/// only one of the two holds, the edge is red and says so. `NoMemory` is the only error.
pub fn drawing(alloc: Global, plan: &Plan, certificate: Option<&Certificate>) -> TextResult
    ensures { IfOk result
        (λ text. string_bytes text ≡ drawing plan.now (option_map (λ c. certificate_view c.now) certificate.entry)) }
{
    let lists = plan.lists();
    let clusters = participant_clusters(alloc, lists, certificate)?;
    let rules = all_rule_edges(alloc, lists)?;
    let pairs = all_pair_edges(alloc, plan)?;
    format!(in alloc;
        "digraph deployment {{\n  rankdir=LR;\n  node [shape=box];\n{clusters}{rules}{pairs}}}\n"
    )
}
