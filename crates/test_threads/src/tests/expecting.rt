//! Comparisons that end a test. One that stands in a function of its own is proved once, and not again wherever it is
//! made.

use std::fmt::Debug;
use std::process::Abort;

/// What there is is what is wanted.
pub(crate) fn expect_equal<T: Copy + Debug + PartialEq>(
    rt: &impl Abort,
    have: T,
    wanted: T,
    about: &str,
) {
    assert_eq!(rt; have, wanted, "{about}");
}
