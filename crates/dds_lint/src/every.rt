//! Lists of those that are there of several.
ghost use Rattle.std.specs.Prelude.{◌≡◌, ◌<◌, ◌++◌, ℕ, Option, OnOk};
ghost use Rattle.std.specs.Option.{option_to_list};
ghost use Rattle.dds_lint.specs.Every.{those_below};

use dds_base::NoMemory;

/// Adds the element, if there is one. An error leaves the list with what it had.
pub(crate) fn push_some<T: Drop>(items: &mut Vec<T>, found: Option<T>) -> Result<(), NoMemory>
    ensures { OnOk result (items.new.items ≡ items.old.items ++ option_to_list found) }
{
    if let Some(found) = found {
        items.push(found)?;
    }
    Ok(())
}

/// Adds those that are there of the answers of `at` to the numbers below `n`, in order. An error leaves the first of
/// them added.
pub(crate) fn push_below<T: Drop, F: Fn(usize) -> Option<T>>(
    items: &mut Vec<T>,
    n: usize,
    at: F,
) -> Result<(), NoMemory>
    requires { (i : ℕ) → i < n → F.pre at i }
    ensures { (end : ℕ) (f : ℕ → Option T) → n ≡ end → ((i : ℕ) (r : Option T) → i < n → F.post at i r → r ≡ f i)
        → OnOk result (items.new.items ≡ items.old.items ++ those_below end f) }
{
    for i in 0..n {
        push_some(items, at(i))?;
    }
    Ok(())
}
