//! Names that are added one after the other, under a limit: each gets the next number, or is refused for the first of
//! the reasons.

use crate::tests::expecting::expect_equal;
use dds_base::{NameFault, Names};

/// 64 bytes, the longest that a name has.
const LONGEST: &str = "abcdefghijklmnopqrstuvwxyzABCDEFGHIJKLMNOPQRSTUVWXYZ0123456789_.";

/// One byte more.
const TOO_LONG: &str = "abcdefghijklmnopqrstuvwxyzABCDEFGHIJKLMNOPQRSTUVWXYZ0123456789_./";

#[test]
fn names_are_added_or_refused_in_order(rt: HostRuntime) {
    let rows: [(&str, Result<usize, NameFault>); 11] = [
        ("ping", Ok(0)),
        ("a.b/c_d-9", Ok(1)),
        ("ping", Err(NameFault::Duplicate)),
        ("", Err(NameFault::BadName)),
        ("pi ng", Err(NameFault::BadName)),
        ("ping*", Err(NameFault::BadName)),
        (TOO_LONG, Err(NameFault::BadName)),
        (LONGEST, Ok(2)),
        ("pong", Err(NameFault::TooMany)),
        ("ping", Err(NameFault::Duplicate)),
        ("", Err(NameFault::BadName)),
    ];
    let mut names = Names::new(rt.alloc());
    for (name, number) in rows {
        expect_equal(&rt, names.add(name, 3), number, name);
    }
    expect_equal(&rt, names.len(), 3, "names");
    expect_equal(&rt, names.number(LONGEST), Some(2), LONGEST);
}
