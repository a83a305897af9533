//! Columns that are kept where the variables of the others are 0 for good.
ghost use Rattle.std.specs.Prelude.{◌≡◌};
ghost use Rattle.dds_simplex.specs.Keeping.{kept_columns};

use crate::line::Line;

/// Keeps the items in whose columns a sum has no number below 0, in their order.
pub(crate) fn keep_columns<T: Copy>(items: &mut Vec<T>, sum: &Line)
    ensures { items.new.items ≡ kept_columns sum.now.numbers.items items.old.items }
{
    let mut kept = 0;
    for column in 0..items.len() {
        if 0 <= sum.number(column) {
            items[kept] = items[column];
            kept += 1;
        }
    }
    items.truncate(kept);
}
