//! What rules take and write, and which endpoints match, as edges.
ghost use Rattle.std.specs.Prelude.{◌≡◌, IfOk, string_bytes};
ghost use Rattle.dds_lists.specs.Views.{rule_view};
ghost use Rattle.dds_draw.specs.Edges.{all_pair_edges, all_rule_edges, connection_edge, edge_of, pair_edge, pair_edges};
ghost use Rattle.dds_draw.specs.Edges.{rule_edges, take_edge, write_edge};

use dds_base::{Portion, ReaderNo, RuleNo, WriterNo};
use dds_lists::{Deployment, Rule};
use dds_match::{Plan, WhyNot};
use dds_show::reasons::reason_text;
use dds_text::names::{reader_key, reader_name, writer_key, writer_name};
use dds_text::texts::{TextResult, text_below, text_of_each};
use std::alloc::Global;

/// What a rule takes of a key at a reader.
fn take_edge(alloc: Global, lists: &Deployment, rule: RuleNo, x: &Portion<ReaderNo>) -> TextResult
    ensures { IfOk result (λ text. string_bytes text ≡ take_edge lists.now rule x.now) }
{
    let reader = reader_name(lists, x.endpoint);
    let key = reader_key(lists, x.endpoint, x.key);
    let number = rule.number();
    let count = x.count;
    format!(in alloc; "  \"reader {reader}\" -> \"rule {number}\" [label=\"{count} {key}\"];\n")
}

/// What a rule writes of a key at a writer.
fn write_edge(alloc: Global, lists: &Deployment, rule: RuleNo, x: &Portion<WriterNo>) -> TextResult
    ensures { IfOk result (λ text. string_bytes text ≡ write_edge lists.now rule x.now) }
{
    let writer = writer_name(lists, x.endpoint);
    let key = writer_key(lists, x.endpoint, x.key);
    let number = rule.number();
    let count = x.count;
    format!(in alloc; "  \"rule {number}\" -> \"writer {writer}\" [label=\"{count} {key}\"];\n")
}

/// What a rule takes, then what it writes.
fn rule_edges(alloc: Global, lists: &Deployment, number: RuleNo, x: &Rule) -> TextResult
    ensures { IfOk result (λ text. string_bytes text ≡ rule_edges lists.now number (rule_view x.now)) }
{
    let takes = text_of_each(alloc, x.takes.as_slice(), |take| {
        take_edge(alloc, lists, number, take)
    })?;
    let writes = text_of_each(alloc, x.writes.as_slice(), |write| {
        write_edge(alloc, lists, number, write)
    })?;
    format!(in alloc; "{takes}{writes}")
}

/// The edges of all rules, in their order.
#[tactic(auto, unfolding(crate::specs::Edges::all_rule_edges))]
pub(crate) fn all_rule_edges(alloc: Global, lists: &Deployment) -> TextResult
    ensures { IfOk result (λ text. string_bytes text ≡ all_rule_edges lists.now) }
{
    text_below(alloc, lists.rules(), |u| {
        let number = RuleNo::new(u);
        rule_edges(alloc, lists, number, lists.rule(number))
    })
}

/// The edge from a writer to a reader, with these attributes.
fn connection_edge(alloc: Global, writer: &str, reader: &str, attributes: &str) -> TextResult
    ensures { IfOk result (λ text. string_bytes text ≡ connection_edge writer.now reader.now attributes.now) }
{
    format!(in alloc; "  \"writer {writer}\" -> \"reader {reader}\"{attributes};\n")
}

/// The edge of a writer and a reader with these names, which match or don't for this reason; `named` says whether a
/// connection names them. It is red where only one of the two holds, and there is none where neither does.
fn edge_of(
    alloc: Global,
    writer: &str,
    reader: &str,
    named: bool,
    reason: Option<WhyNot>,
) -> TextResult
    ensures { IfOk result (λ text. string_bytes text ≡ edge_of writer.now reader.now named reason) }
{
    match reason {
        None if named => connection_edge(alloc, writer, reader, ""),
        None => connection_edge(
            alloc,
            writer,
            reader,
            " [style=dotted, color=red, label=\"no connection\"]",
        ),
        Some(reason) if named => {
            let reason = reason_text(alloc, reason)?;
            let attributes = format!(in alloc; " [style=dashed, color=red, label=\"{reason}\"]")?;
            connection_edge(alloc, writer, reader, attributes.as_str())
        }
        Some(_) => Ok(String::new(alloc)),
    }
}

/// The edge of the writer and the reader with these numbers.
fn pair_edge(alloc: Global, plan: &Plan, writer: WriterNo, reader: ReaderNo) -> TextResult
    ensures { IfOk result (λ text. string_bytes text ≡ pair_edge plan.now writer reader) }
{
    let lists = plan.lists();
    edge_of(
        alloc,
        writer_name(lists, writer),
        reader_name(lists, reader),
        plan.intended(writer, reader),
        plan.why_not(writer, reader),
    )
}

/// The edges of a writer, by readers in file order.
fn pair_edges(alloc: Global, plan: &Plan, writer: WriterNo) -> TextResult
    ensures { IfOk result (λ text. string_bytes text ≡ pair_edges plan.now writer) }
{
    text_below(alloc, plan.lists().readers(), |r| {
        pair_edge(alloc, plan, writer, ReaderNo::new(r))
    })
}

/// The edges from all writers to readers, by writers in file order.
#[tactic(auto, unfolding(crate::specs::Edges::all_pair_edges))]
pub(crate) fn all_pair_edges(alloc: Global, plan: &Plan) -> TextResult
    ensures { IfOk result (λ text. string_bytes text ≡ all_pair_edges plan.now) }
{
    text_below(alloc, plan.lists().writers(), |w| {
        pair_edges(alloc, plan, WriterNo::new(w))
    })
}
