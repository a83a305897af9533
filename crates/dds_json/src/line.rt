//! The text of a document.
ghost use Rattle.std.specs.Prelude.{◌≡◌, IfOk, false, string_bytes};
ghost use Rattle.serde_json.specs.View.{view};
ghost use Rattle.serde_json.specs.Written.{has_float};
ghost use Rattle.dds_json.specs.Line.{line_of};

use dds_base::NoMemory;
use serde_json::Value;
use std::alloc::Global;

/// The text of a document without fractions, without blanks, on a line of its own. `NoMemory` is the only error.
#[tactic(auto, unfolding(crate::specs::Line::line_of))]
pub fn line_of(alloc: Global, document: &Value) -> Result<String, NoMemory>
    requires { has_float (view document.now) ≡ false }
    ensures { IfOk result (λ text. string_bytes text ≡ line_of (view document.now)) }
{
    let mut text = document.to_string(alloc)?;
    text.push_str("\n")?;
    Ok(text)
}
