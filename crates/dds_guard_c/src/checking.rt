//! The check of a deployment for a program in C.
ghost use Rattle.std.specs.Prelude.{◌≡◌, ◌<◌, ◌≤◌, IfErr, IfOk, string_bytes};
ghost use Rattle.dds_answers.specs.Answers.{Gives, answer_status};
ghost use Rattle.dds_answers.specs.Fault.{fault_line};
ghost use Rattle.dds_answers.specs.Outcome.{check_file_outcome};
ghost use Rattle.dds_options.specs.declared.detail.Detail.TheVariants.{Plain};
ghost use Rattle.dds_guard_c.specs.Checking.{IsCheckFault, IsChecked, Says, put_over};

use crate::status::{NO_MEMORY, OK};
use dds_answers::{Answer, MAX_FILE, ToolFault, check_answer, fault_text};
use dds_base::NoMemory;
use dds_options::Detail;
use std::alloc::Global;

const YES: u32 = 0;

const NO: u32 = 1;

const BAD_FILE: u32 = 2;

/// Yes, no or a bad file, and the text that comes with it.
#[derive(Drop)]
struct Verdict {
    number: u32,
    text: String,
}

/// Puts as much of a text as there is room for over what is there.
pub(crate) fn put(text: &[u8], room: &mut [u8])
    ensures { room.new ≡ put_over text.now room.old }
{
    let count = text.len().min(room.len());
    room[..count].copy_from_slice(&text[..count]);
}

/// The answer of the check of two files with these bytes.
#[tactic(auto, using(dds_answers::proofs::FileEnds::ends), unfolding(dds_answers::specs::Outcome::check_file_outcome))]
fn answer_of(alloc: Global, deployment: &[u8], certificate: &[u8]) -> Result<Answer, ToolFault>
    ensures gives { Gives result (check_file_outcome Plain deployment.now certificate.now) }
    ensures fault { IfErr result IsCheckFault }
{
    if MAX_FILE < deployment.len() {
        return Err(ToolFault::TooLarge);
    }
    if MAX_FILE < certificate.len() {
        return Err(ToolFault::TooLarge);
    }
    check_answer(alloc, deployment, certificate, Detail::Plain)
}

/// The verdict for a fault of a file.
fn refuse(alloc: Global, fault: &ToolFault) -> Result<Verdict, NoMemory>
    ensures text { IfOk result (λ v. (v.number ≡ 2) × (string_bytes v.text ≡ fault_line fault.now)) }
    ensures there { fault.now ≡ ToolFault.NoMemory → IfOk result (λ _. ⊥) }
{
    if matches!(fault, ToolFault::NoMemory) {
        return Err(NoMemory);
    }
    let text = fault_text(alloc, fault)?;
    Ok(Verdict {
        number: BAD_FILE,
        text,
    })
}

/// The verdict of an answer.
fn accept(answer: Answer) -> Verdict
    ensures text { string_bytes result.text ≡ string_bytes answer.text }
    ensures number { result.number ≡ answer_status answer.is_yes }
{
    let Answer { text, is_yes, note } = answer;
    drop(note);
    Verdict {
        number: if is_yes { YES } else { NO },
        text,
    }
}

/// The verdict on two files with these bytes.
fn judge(alloc: Global, deployment: &[u8], certificate: &[u8]) -> Result<Verdict, NoMemory>
    ensures { IfOk result
        (λ v. Says (check_file_outcome Plain deployment.now certificate.now) v.number (string_bytes v.text)) }
{
    match answer_of(alloc, deployment, certificate) {
        Ok(answer) => Ok(accept(answer)),
        Err(fault) => {
            let verdict = refuse(alloc, &fault);
            drop(fault);
            verdict
        }
    }
}

/// Checks a deployment by a certificate, both given as the bytes of their files. The verdict is the status with which
/// `ddscheck check` ends: 0 yes, 1 no, 2 where a file has a fault. As much as there is room for of what it prints is
/// put into `text`, and `length` is the length of the whole in bytes. Where memory ran out nothing changes.
#[unsafe(no_mangle)]
pub extern "C" fn ddscheck_check_deployment(
    alloc: Global,
    deployment: &[u8],
    certificate: &[u8],
    verdict: &mut u32,
    text: &mut [u8],
    length: &mut usize,
) -> u32
    ensures checked { result ≡ 0
        → IsChecked deployment.now certificate.now verdict.new length.new text.old text.new }
    ensures memory { 0 < result → result ≡ 2 }
    ensures same { 0 < result
        → (verdict.new ≡ verdict.old) × (text.new ≡ text.old) × (length.new ≡ length.old) }
{
    let Ok(said) = judge(alloc, deployment, certificate) else {
        return NO_MEMORY;
    };
    let Verdict { number, text: line } = said;
    put(line.as_bytes(), text);
    *length = line.len();
    *verdict = number;
    drop(line);
    OK
}
