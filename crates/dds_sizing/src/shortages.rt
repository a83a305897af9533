//! What a search ran out of.
ghost use Rattle.std.specs.Prelude.{◌≡◌};
ghost use Rattle.dds_sizing.specs.Shortages.{shortage_word};

use dds_search::Shortage;

/// The word for what a search ran out of.
pub fn shortage_word(shortage: Shortage) -> &'static str
    ensures { result.now ≡ shortage_word shortage }
{
    match shortage {
        Shortage::Seconds => "seconds",
        Shortage::Pivots => "pivots",
        Shortage::Markings => "markings",
        Shortage::Events => "events",
        Shortage::Bits => "bits",
        Shortage::Rows => "rows",
        Shortage::Ways => "ways",
    }
}
