//! How an answer or a fault is printed.
ghost use Rattle.std.specs.Prelude.{◌≡◌, ◌≢◌, ◌≤◌, ◌⊎◌, true, false, OnOk, OnErr, IfNone, IfOk, IfErr, IfSome, Err};
ghost use Rattle.std.specs.Prelude.{string_bytes};
ghost use Rattle.std.specs.Io.KnownBytes.{Appends, Keeps};
ghost use Rattle.dds_answers.specs.Answers.{Gives};
ghost use Rattle.dds_answers.specs.Exit.{exit_status};
ghost use Rattle.dds_answers.specs.Fault.{exit_of, fault_line};
ghost use Rattle.dds_answers.specs.Outcome.{Outcome};
ghost use Rattle.dds_answers.specs.Telling.{TellsFault};
ghost use Rattle.dds_answers.specs.Report.{Ends, output_of, status_of};

use crate::answer::Answer;
use crate::exit::Exit;
use crate::fault::{NO_MEMORY, ToolFault, exit_of, fault_text};
use crate::output::Output;
use std::alloc::Global;

/// Writes a text and nothing else. `Write` comes only from an output that has failed.
pub fn print<O: Output>(out: &mut O, text: &str) -> Result<(), ToolFault>
    ensures written { OnOk result (Appends (O.contents out.old) (O.contents out.new) text.now) }
    ensures fault { IfErr result (λ e. (e ≡ ToolFault.Write) × (O.has_failed out.new ≡ true)) }
{
    match out.put(text) {
        Ok(()) => Ok(()),
        Err(_) => Err(ToolFault::Write),
    }
}

/// Writes a text to the error output. Where that doesn't take it, it's lost.
pub(crate) fn say<E: Output>(err: &mut E, text: &str)
    ensures said { E.has_failed err.new ≡ false → Appends (E.contents err.old) (E.contents err.new) text.now }
    ensures failed { E.has_failed err.new ≡ false → E.has_failed err.old ≡ false }
{
    match err.put(text) {
        Ok(()) | Err(_) => {}
    }
}

/// Writes the text of an answer to `out` and nothing else, and says how the command ended: yes or no. Only a failed
/// write can leave a part of the text written. What the answer has besides goes to `err`, which a fault leaves as it
/// is.
pub fn give<O: Output, E: Output>(
    answer: Result<Answer, ToolFault>,
    out: &mut O,
    err: &mut E,
) -> Result<Exit, ToolFault>
    ensures answer { (end : Outcome) → Gives answer end
        → IfOk result (λ exit. (exit_status exit ≡ status_of end)
        × Appends (O.contents out.old) (O.contents out.new) (output_of end)) }
    ensures fault { (end : Outcome) → Gives answer end → IfErr result (λ e. Ends e end) }
    ensures passed { IfErr answer (λ e. result ≡ Err e) }
    ensures failed { OnOk answer (IfErr result (λ e. (e ≡ ToolFault.Write) × (O.has_failed out.new ≡ true))) }
    ensures exit { IfOk result (λ exit. exit_status exit ≤ 1) }
    ensures nothing { IfErr result (λ e. (e ≡ ToolFault.Write) ⊎ Keeps (O.contents out.old) (O.contents out.new)) }
    ensures untold { OnErr result (err.new ≡ err.old) }
    ensures noted { IfOk answer (λ a. OnOk result (IfNone a.note (err.new ≡ err.old) × IfSome a.note (λ note.
        E.has_failed err.new ≡ false → Appends (E.contents err.old) (E.contents err.new) (string_bytes note)))) }
{
    match answer {
        Ok(answer) => {
            print(out, answer.text.as_str())?;
            if let Some(note) = &answer.note {
                say(err, note.as_str());
            }
            Ok(answer.exit())
        }
        Err(fault) => Err(fault),
    }
}

/// Prints a fault in a line of its own, and says how the command ends with it. Where there is no memory for that line,
/// that is printed, and the command ends so. Where the error output doesn't take the line, it's lost.
pub fn tell_fault<E: Output>(alloc: Global, err: &mut E, fault: &ToolFault) -> Exit
    ensures exit { (result ≡ exit_of fault.now) ⊎ (result ≡ Exit.NoMemory) }
    ensures told { E.has_failed err.new ≡ false → TellsFault result (E.contents err.old) (E.contents err.new) }
    ensures which { E.has_failed err.new ≡ false → result ≢ Exit.NoMemory
        → Appends (E.contents err.old) (E.contents err.new) (fault_line fault.now) }
{
    match fault_text(alloc, fault) {
        Ok(text) => {
            say(err, text.as_str());
            exit_of(fault)
        }
        Err(_) => {
            say(err, NO_MEMORY);
            Exit::NoMemory
        }
    }
}
