//! The connections that a deployment would have if exactly the pairs were meant that match: the tables of a deployment
//! file.
ghost use Rattle.std.specs.Prelude.{◌≡◌, ◌++◌, ◌<◌, IfOk, length, string_bytes};
ghost use Rattle.dds_show.specs.Connections.{connection_piece, connection_table, connections_text, matching_pairs};
ghost use Rattle.dds_show.specs.Connections.{pair_at, pairs_of_writer};

use dds_base::{NoMemory, ReaderNo, WriterNo};
use dds_match::Plan;
use dds_text::names::name_at;
use dds_text::texts::{TextResult, start_of, text_below};
use std::alloc::Global;

/// Adds a pair, if it matches.
fn push_pair(
    found: &mut Vec<(usize, usize)>,
    plan: &Plan,
    w: usize,
    r: usize,
) -> Result<(), NoMemory>
    ensures { IfOk result (λ _. found.new.items ≡ found.old.items ++ pair_at plan.now w r) }
{
    if plan.matched(WriterNo::new(w), ReaderNo::new(r)) {
        found.push((w, r))?;
    }
    Ok(())
}

/// Adds the pairs of a writer.
fn push_pairs_of_writer(
    found: &mut Vec<(usize, usize)>,
    plan: &Plan,
    w: usize,
) -> Result<(), NoMemory>
    ensures { IfOk result (λ _. found.new.items ≡ found.old.items ++ pairs_of_writer plan.now w) }
{
    for r in 0..plan.lists().readers() {
        push_pair(found, plan, w, r)?;
    }
    Ok(())
}

/// The pairs that match, by writer and then by reader, each in file order.
fn matching_pairs(alloc: Global, plan: &Plan) -> Result<Vec<(usize, usize)>, NoMemory>
    ensures { IfOk result (λ found. found.items ≡ matching_pairs plan.now) }
{
    let mut found = Vec::new(alloc);
    for w in 0..plan.lists().writers() {
        push_pairs_of_writer(&mut found, plan, w)?;
    }
    Ok(found)
}

/// The table of a pair.
fn connection_table(alloc: Global, plan: &Plan, pair: (usize, usize)) -> TextResult
    ensures { IfOk result (λ text. string_bytes text ≡ connection_table plan.now pair) }
{
    let writer = name_at(plan.lists().writer_names(), pair.0);
    let reader = name_at(plan.lists().reader_names(), pair.1);
    format!(in alloc; "[[connections]]\nwriter = \"{writer}\"\nreader = \"{reader}\"\n")
}

/// The table of the pair at a place, with an empty line before it where it isn't the first.
fn connection_piece(
    alloc: Global,
    plan: &Plan,
    pairs: &[(usize, usize)],
    place: usize,
) -> TextResult
    requires there { place < length pairs.now }
    requires pairs { pairs.now ≡ matching_pairs plan.now }
    ensures { IfOk result (λ text. string_bytes text ≡ connection_piece plan.now place) }
{
    let start = start_of(place, "", "\n");
    let table = connection_table(alloc, plan, pairs[place])?;
    format!(in alloc; "{start}{table}")
}

/// The tables `[[connections]]` of the pairs that match, by writer and then by reader, each in file order, with an
/// empty line between two: a deployment file with them, and no other connections, is as intended. Names have no byte
/// that TOML escapes. `NoMemory` is the only error.
pub fn connections_text(alloc: Global, plan: &Plan) -> TextResult
    ensures { IfOk result (λ text. string_bytes text ≡ connections_text plan.now) }
{
    let pairs = matching_pairs(alloc, plan)?;
    text_below(alloc, pairs.len(), |i| {
        connection_piece(alloc, plan, pairs.as_slice(), i)
    })
}
