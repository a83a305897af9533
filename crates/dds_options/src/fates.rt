//! The fates of packets, in a circle.
ghost use Rattle.std.specs.Prelude.{◌≡◌, ◌<◌, length, IfSome, IfNone};
ghost use Rattle.dds_options.specs.Fates.{AreFates};

use dds_base::Fate;
use std::marker::Model;

/// How many fates a circle has at most.
const MOST: usize = 64;

/// What happens to packets, one after the other and then from the first one again: 1 to 64 fates. A contract sees the
/// list.
#[derive(Drop)]
pub struct Fates {
    all: [Fate; MOST],
    len: usize,
}

impl Model for Fates {
    ghost use Rattle.std.specs.Prelude.{◌≡◌, List, take, length};
    ghost use Rattle.dds_base.specs.declared.events.Fate.{Fate};
    ghost use Rattle.dds_options.specs.Fates.{AreFates};

    ghost Value = { List Fate };

    ghost view = { λ f. take f.len f.all };

    ghost invariant = { λ f. AreFates (take f.len f.all) × (length (take f.len f.all) ≡ f.len) };
}

impl Fates {
    /// These fates, or `None` unless there are 1 to 64.
    pub fn new(fates: &[Fate]) -> Option<Fates>
        ensures same { IfSome result (λ f. f ≡ fates.now) }
        ensures none { IfNone result (¬ AreFates fates.now) }
    {
        if fates.is_empty() || fates.len() > MOST {
            return None;
        }
        let mut all = [Fate::Pass; MOST];
        all[..fates.len()].copy_from_slice(fates);
        Some(Fates {
            all,
            len: fates.len(),
        })
    }

    /// The fates, in order.
    pub fn as_slice(&self) -> &[Fate]
        ensures all { result.now ≡ self.now }
        ensures some { 0 < length result.now }
    {
        &self.all[..self.len]
    }
}
