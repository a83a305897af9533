//! The texts of paths.
#![tactic(auto)]

ghost use Rattle.std.specs.Prelude.{◌≡◌, IfOk, string_bytes};
ghost use Rattle.dds_fields.specs.Paths.{key_path, index_path};

use dds_base::NoMemory;
use std::alloc::Global;

/// The path of a key below a path.
#[tactic(auto, unfolding(crate::specs::Paths::key_path))]
pub fn key_path(alloc: Global, path: &str, key: &str) -> Result<String, NoMemory>
    ensures { IfOk result (λ s. string_bytes s ≡ key_path path.now key.now) }
{
    if path.is_empty() {
        String::from_str(alloc, key)
    } else {
        format!(in alloc; "{path}.{key}")
    }
}

/// The path of an item.
#[tactic(auto, unfolding(crate::specs::Paths::index_path))]
pub fn index_path(alloc: Global, path: &str, index: usize) -> Result<String, NoMemory>
    ensures { IfOk result (λ s. string_bytes s ≡ index_path path.now index) }
{
    format!(in alloc; "{path}[{index}]")
}
