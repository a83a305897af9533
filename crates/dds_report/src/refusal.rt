//! The line of a refusal.
ghost use Rattle.std.specs.Prelude.{◌≡◌, IfOk, string_bytes};
ghost use Rattle.dds_weights.specs.Views.{certificate_view};
ghost use Rattle.dds_report.specs.Refusal.{refusal_line, subject_text};

use dds_base::NoMemory;
use dds_check::{No, Subject};
use dds_lists::Deployment;
use dds_text::names::{reader_key, reader_name, rule_text, writer_key, writer_name};
use dds_weights::Certificate;
use dds_weights::naming::row_name;
use std::alloc::Global;

/// The names of what a condition speaks of, with blanks between them.
fn subject_text(
    alloc: Global,
    lists: &Deployment,
    certificate: &Certificate,
    subject: Subject,
) -> Result<String, NoMemory>
    ensures { IfOk result
        (λ text. string_bytes text ≡ subject_text lists.now (certificate_view certificate.now) subject) }
{
    match subject {
        Subject::Pair { writer, reader } => {
            let writer = writer_name(lists, writer);
            let reader = reader_name(lists, reader);
            format!(in alloc; "{writer} {reader}")
        }
        Subject::PairKey {
            writer,
            reader,
            key,
        } => {
            let key = reader_key(lists, reader, key);
            let writer = writer_name(lists, writer);
            let reader = reader_name(lists, reader);
            format!(in alloc; "{writer} {reader} {key}")
        }
        Subject::Instance { reader, key } => {
            let key = reader_key(lists, reader, key);
            let reader = reader_name(lists, reader);
            format!(in alloc; "{reader} {key}")
        }
        Subject::Reader(reader) => String::from_str(alloc, reader_name(lists, reader)),
        Subject::Writer(writer) => String::from_str(alloc, writer_name(lists, writer)),
        Subject::RowInstance { row, reader, key } => {
            let row = row_name(certificate, row);
            let key = reader_key(lists, reader, key);
            let reader = reader_name(lists, reader);
            format!(in alloc; "{row} {reader} {key}")
        }
        Subject::RowRule { row, rule } => {
            let row = row_name(certificate, row);
            let rule = rule_text(alloc, lists, rule)?;
            format!(in alloc; "{row} {rule}")
        }
        Subject::RowWriterKey { row, writer, key } => {
            let row = row_name(certificate, row);
            let key = writer_key(lists, writer, key);
            let writer = writer_name(lists, writer);
            format!(in alloc; "{row} {writer} {key}")
        }
    }
}

/// The line of a refusal: `no`, the condition's number and name, and the names of what it speaks of. The names of a row
/// come from the certificate, all others from the lists. `NoMemory` is the only error.
pub fn refusal_text(
    alloc: Global,
    no: No,
    lists: &Deployment,
    certificate: &Certificate,
) -> Result<String, NoMemory>
    ensures { IfOk result (λ text. string_bytes text ≡ refusal_line lists.now (certificate_view certificate.now) no) }
{
    let subject = subject_text(alloc, lists, certificate, no.subject)?;
    let number = no.number.number();
    let name = no.number.name();
    format!(in alloc; "no {number} {name} {subject}\n")
}
