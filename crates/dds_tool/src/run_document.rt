//! The document of a run.
ghost use Rattle.std.specs.Prelude.{◌≡◌, IfOk, length, map, option_map, string_bytes};
ghost use Rattle.std.specs.List.{range_with_len};
ghost use Rattle.serde_json.specs.Data.{array};
ghost use Rattle.serde_json.specs.View.{items_of, view};
ghost use Rattle.dds_json.specs.Line.{line_of};
ghost use Rattle.dds_apps.specs.Kept.{entries_of};
ghost use Rattle.dds_tool.specs.RunDocument.{app_document, document_at, run_document};

use crate::running::{end_word, taken_by, written_by};
use dds_base::NoMemory;
use dds_book::{Entry, Journal};
use dds_json::{answer_word, line_of};
use dds_peers::AppEnd;
use serde_json::{Value, json};
use std::alloc::Global;

/// The document of an application.
fn app_document(
    alloc: Global,
    name: &str,
    seat: usize,
    entries: &[Entry],
    end: AppEnd,
) -> Result<Value, NoMemory>
    ensures { IfOk result (λ v. view v ≡ app_document name.now (entries_of seat entries.now) end) }
{
    let written = written_by(seat, entries);
    let taken = taken_by(seat, entries);
    let end = end_word(end);
    json!(in alloc; {"application": name, "written": written, "taken": taken, "end": end})
}

/// The documents of all applications.
fn app_documents(
    alloc: Global,
    names: &[String],
    journal: &Journal,
    ends: &[AppEnd],
) -> Result<Vec<Value>, NoMemory>
    requires { length ends.now ≡ length names.now }
    ensures { IfOk result
        (λ documents. map view documents.items
        ≡ map (document_at (map string_bytes names.now) journal.now ends.now)
        (range_with_len 0 (length names.now))) }
{
    let mut documents = Vec::new(alloc);
    for app in 0..names.len() {
        let name = names[app].as_str();
        let document = app_document(alloc, name, app, journal.entries(), ends[app])?;
        documents.push(document)?;
    }
    Ok(documents)
}

/// The document of a run: yes or no, with each application, and what its journal came to, if that's there.
fn run_document(
    alloc: Global,
    is_yes: bool,
    because: &Option<String>,
    names: &[String],
    journal: &Journal,
    ends: &[AppEnd],
) -> Result<Value, NoMemory>
    requires { length ends.now ≡ length names.now }
    ensures { IfOk result
        (λ v. view v ≡ run_document is_yes (option_map string_bytes because.now) (map string_bytes names.now)
        journal.now ends.now) }
{
    let applications = Value::Array(app_documents(alloc, names, journal, ends)?);
    let answer = answer_word(is_yes);
    match because {
        None => json!(in alloc; {"answer": answer, "applications": applications}),
        Some(because) => {
            let because = because.as_str();
            json!(in alloc; {"answer": answer, "applications": applications, "because": because})
        }
    }
}

/// The line of the document of a run.
pub(crate) fn run_line(
    alloc: Global,
    is_yes: bool,
    because: &Option<String>,
    names: &[String],
    journal: &Journal,
    ends: &[AppEnd],
) -> Result<String, NoMemory>
    requires { length ends.now ≡ length names.now }
    ensures { IfOk result
        (λ text. string_bytes text
        ≡ line_of (run_document is_yes (option_map string_bytes because.now) (map string_bytes names.now) journal.now
        ends.now)) }
{
    let document = run_document(alloc, is_yes, because, names, journal, ends)?;
    line_of(alloc, &document)
}
