//! The line of a condition that fails whatever the certificate.
ghost use Rattle.std.specs.Prelude.{◌≡◌, IfOk, string_bytes};
ghost use Rattle.dds_answers.specs.Structure.{nothing};
ghost use Rattle.dds_report.specs.Refusal.{refusal_line};

use dds_base::NoMemory;
use dds_check::No;
use dds_lists::Deployment;
use dds_report::refusal_text;
use dds_weights::Certificate;
use std::alloc::Global;

/// The line of a refusal, as `check` prints it, where there is no certificate. `NoMemory` is the only error.
pub fn structure_text(alloc: Global, lists: &Deployment, no: No) -> Result<String, NoMemory>
    ensures { IfOk result (λ text. string_bytes text ≡ refusal_line lists.now nothing no) }
{
    let nothing = Certificate {
        rows: Vec::new(alloc),
        bounds: Vec::new(alloc),
        totals: Vec::new(alloc),
    };
    refusal_text(alloc, no, lists, &nothing)
}
