//! The document of a condition that fails whatever the certificate.
ghost use Rattle.std.specs.Prelude.{◌≡◌, IfOk, None};
ghost use Rattle.serde_json.specs.View.{view};
ghost use Rattle.dds_answers.specs.Structure.{nothing};
ghost use Rattle.dds_json.specs.Checking.{refusal_document};

use crate::checking::refusal_document;
use dds_base::NoMemory;
use dds_check::No;
use dds_lists::Deployment;
use dds_weights::Certificate;
use serde_json::Value;
use std::alloc::Global;

/// The document of a refusal where there is no certificate. `NoMemory` is the only error.
pub fn structure_document(alloc: Global, lists: &Deployment, no: No) -> Result<Value, NoMemory>
    ensures { IfOk result (λ v. view v ≡ refusal_document lists.now nothing no None) }
{
    let nothing = Certificate {
        rows: Vec::new(alloc),
        bounds: Vec::new(alloc),
        totals: Vec::new(alloc),
    };
    refusal_document(alloc, lists, &nothing, no, None)
}
