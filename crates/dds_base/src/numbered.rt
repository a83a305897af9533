//! Entries of lists that are found by their numbers.

ghost use Rattle.std.specs.Prelude.{◌≡◌, ◌↔◌, ℕ, ◌==◌, IsTrue, position};
ghost use Rattle.dds_base.specs.Numbered.{AreRising};

/// An entry of a list with a number, by which it is found. Its number never changes.
pub trait Numbered {
    ghost number_of: { Self → ℕ };

    /// The number.
    fn number(&self) -> usize
        ensures { result ≡ number_of self.now };
}

/// Whether each entry has a greater number than the one before it. No number stands twice then.
pub fn are_rising<T: Numbered>(entries: &[T]) -> bool
    ensures { IsTrue result ↔ AreRising T.number_of entries.now }
{
    for at in 1..entries.len() {
        if entries[at].number() <= entries[at - 1].number() {
            return false;
        }
    }
    true
}

/// The place of the first entry with a number. Among entries whose numbers rise it is found by halving, among others by
/// a walk.
pub fn place_of<T: Numbered>(entries: &[T], rising: bool, number: usize) -> Option<usize>
    requires { IsTrue rising → AreRising T.number_of entries.now }
    ensures { result ≡ position (λ x. T.number_of x == number) entries.now }
{
    if rising {
        risen_place(entries, number)
    } else {
        entries.iter().position(|x| x.number() == number)
    }
}

// The place of the entry with a number, of entries whose numbers rise.
fn risen_place<T: Numbered>(entries: &[T], number: usize) -> Option<usize>
    requires { AreRising T.number_of entries.now }
    ensures { result ≡ position (λ x. T.number_of x == number) entries.now }
{
    match entries.binary_search_by_key(&number, |x| x.number()) {
        Ok(at) => Some(at),
        Err(_) => None,
    }
}
