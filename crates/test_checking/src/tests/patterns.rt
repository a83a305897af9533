//! Which names have a pattern.

use crate::tests::expecting::expect_equal;
use dds_match::name_matches;
use std::process::Abort;

/// A pattern, a name, and whether the name has the pattern.
type Case = (&'static str, &'static str, bool);

/// A `*` is any run of bytes, also the empty one, and a `?` is one byte; a `*` goes back as far as it must.
const CASES: [Case; 12] = [
    ("*", "", true),
    ("a*b", "ab", true),
    ("a?b", "ab", false),
    ("**", "x", true),
    ("?", "", false),
    ("line*", "line1", true),
    ("*a*ab", "aaaaaaaaaaaaaaaaaaaaaaab", true),
    ("*a*ab", "aaaaaaaaaaaaaaaaaaaaaaa", false),
    ("a*b*", "axxbxxbxx", true),
    ("*a*a*a*", "aa", false),
    ("a*?e", "ae", false),
    ("A", "a", false),
];

fn expect(rt: &impl Abort, case: &Case) {
    let (pattern, name, wanted) = *case;
    let have = (pattern, name, name_matches(pattern, name));
    expect_equal(rt, have, (pattern, name, wanted), "a pattern and a name");
}

#[test]
fn names_have_patterns(rt: HostRuntime) {
    for case in &CASES {
        expect(&rt, case);
    }
}
