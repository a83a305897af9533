//! How a fault of a command is printed, in lines or as a document.
ghost use Rattle.std.specs.Prelude.{◌≡◌, ◌≢◌, ◌⊎◌, Err, IfErr, OnOk, false, true};
ghost use Rattle.std.specs.Io.KnownBytes.{Appends};
ghost use Rattle.dds_answers.specs.Exit.{exit_status};
ghost use Rattle.dds_answers.specs.Fault.{exit_of, fault_line};
ghost use Rattle.dds_answers.specs.Telling.{TellsFault};
ghost use Rattle.dds_json.specs.Fault.{fault_document};
ghost use Rattle.dds_json.specs.Line.{line_of};

use dds_answers::{Exit, Output, ToolFault, print, tell_fault};
use dds_json::fault_line;
use dds_options::Style;
use std::alloc::Global;

/// Writes the document of a fault, unless it is that the output failed. `NoMemory` comes where there is no memory for
/// the document.
fn print_fault<O: Output>(alloc: Global, fault: &ToolFault, out: &mut O) -> Result<(), ToolFault>
    ensures written { OnOk result
        (Appends (O.contents out.old) (O.contents out.new) (line_of (fault_document fault.now))) }
    ensures kept { fault.now ≡ ToolFault.Write → (out.new ≡ out.old) × (result ≡ Err ToolFault.Write) }
    ensures fault { IfErr result
        (λ e. ((e ≡ ToolFault.Write) × ((fault.now ≡ ToolFault.Write) ⊎ (O.has_failed out.new ≡ true)))
        ⊎ (e ≡ ToolFault.NoMemory)) }
{
    if matches!(fault, ToolFault::Write) {
        return Err(ToolFault::Write);
    }
    match fault_line(alloc, fault) {
        Ok(line) => print(out, line.as_str()),
        Err(_) => Err(ToolFault::NoMemory),
    }
}

/// Prints a fault, in this style: where a document is asked for, it goes to the output too.
pub(crate) fn tell_in_style<O: Output, E: Output>(
    alloc: Global,
    fault: &ToolFault,
    style: Style,
    out: &mut O,
    err: &mut E,
) -> Exit
    ensures exit { (result ≡ exit_of fault.now)
        ⊎ ((result ≡ Exit.NoMemory) ⊎ ((result ≡ Exit.Device) × (O.has_failed out.new ≡ true))) }
    ensures lines { style ≡ Style.Text → out.new ≡ out.old }
    ensures document { style ≡ Style.Json → exit_status result ≢ 3
        → Appends (O.contents out.old) (O.contents out.new) (line_of (fault_document fault.now)) }
    ensures kept { fault.now ≡ ToolFault.Write → out.new ≡ out.old }
    ensures told { E.has_failed err.new ≡ false → TellsFault result (E.contents err.old) (E.contents err.new) }
    ensures bad_file { exit_status result ≡ 2
        → (result ≡ exit_of fault.now)
        × (E.has_failed err.new ≡ false
        → Appends (E.contents err.old) (E.contents err.new) (fault_line fault.now)) }
{
    match style {
        Style::Text => tell_fault(alloc, err, fault),
        Style::Json => match print_fault(alloc, fault, out) {
            Ok(()) => tell_fault(alloc, err, fault),
            Err(other) => tell_fault(alloc, err, &other),
        },
    }
}
