//! When the partitions of a writer and a reader match (OMG DDS 1.4, clause 2.2.3.13).
ghost use Rattle.std.specs.Prelude.{◌≡◌, ◌==◌, ◌&&◌, ◌||◌, not, map, string_bytes};
ghost use Rattle.std.specs.List.{list_all, list_any};
ghost use Rattle.dds_match.specs.Partitions.{is_pattern, lists_match, name_matches, partition_names};

use crate::right_parts::{MOST_BYTES, RightParts};

/// The `*` that was passed last, for another try.
#[derive(Clone, Copy)]
struct Star {
    /// The place in the pattern after it.
    after: usize,
    /// The place in the name where what follows it was tried last.
    tried: usize,
}

/// Whether a name has a pattern: `*` is any run of bytes, also the empty one, `?` is one byte, and every other byte
/// stands for itself, `/` and a leading dot too. Bytes are compared, not characters. The steps are at most about the
/// product of the lengths.
pub fn name_matches(pattern: &str, name: &str) -> bool
    ensures { result ≡ name_matches pattern.now name.now }
{
    bytes_match(pattern.as_bytes(), name.as_bytes())
}

// One scan of the name. After a mismatch the `*` that was passed last takes one byte more.
fn bytes_match(pattern: &[u8], name: &[u8]) -> bool
    ensures { result ≡ name_matches pattern.now name.now }
{
    let mut at = 0;
    let mut place = 0;
    let mut star: Option<Star> = None;
    while place < name.len() {
        if at < pattern.len() && pattern[at] == b'*' {
            at += 1;
            star = Some(Star {
                after: at,
                tried: place,
            });
        } else if at < pattern.len() && (pattern[at] == b'?' || pattern[at] == name[place]) {
            at += 1;
            place += 1;
        } else if let Some(last) = star {
            at = last.after;
            place = last.tried + 1;
            star = Some(Star {
                after: at,
                tried: place,
            });
        } else {
            return false;
        }
    }
    has_only_stars(&pattern[at..])
}

// Whether the empty run has the pattern.
fn has_only_stars(pattern: &[u8]) -> bool
    ensures { result ≡ list_all (λ b. b == 42) pattern.now }
{
    pattern.iter().all(|byte| *byte == b'*')
}

/// Whether partition lists match: some name of one matches some name of the other. An empty list counts as one empty
/// name. Two names match when they are equal where neither has a `*` or `?`, by the pattern where exactly one has, and
/// never where both have.
pub fn lists_match(writer: &[String], reader: &[String]) -> bool
    ensures { result ≡ lists_match (map string_bytes writer.now) (map string_bytes reader.now) }
{
    some_meets(writer, reader) || has_patterns(writer) && some_has_pattern(reader, writer)
}

// Whether some name without wildcards is another name, or has it as its pattern.
fn some_meets(names: &[String], others: &[String]) -> bool
    ensures { result ≡ list_any
        (λ x. not (is_pattern x) && list_any (λ y. name_matches y x) (partition_names (map string_bytes others.now)))
        (partition_names (map string_bytes names.now)) }
{
    if names.is_empty() {
        return meets_some("", others);
    }
    names.iter().any(|name| !is_pattern(name.as_str()) && meets_some(name.as_str(), others))
}

// Whether a name is some name of a list, or has it as its pattern.
fn meets_some(name: &str, others: &[String]) -> bool
    ensures { result ≡ list_any (λ y. name_matches y name.now) (partition_names (map string_bytes others.now)) }
{
    if others.is_empty() {
        return name_matches("", name);
    }
    if name.len() > MOST_BYTES || !has_patterns(others) {
        return others
            .iter()
            .any(|other| name_matches(other.as_str(), name));
    }
    let parts = RightParts::of(name.as_bytes());
    others.iter().any(|other| parts.have(other.as_bytes()))
}

// Whether some name without wildcards has a pattern of the list.
fn some_has_pattern(names: &[String], patterns: &[String]) -> bool
    ensures { result ≡ list_any
        (λ y. not (is_pattern y) && list_any (λ x. is_pattern x && name_matches x y) (map string_bytes patterns.now))
        (partition_names (map string_bytes names.now)) }
{
    if names.is_empty() {
        return has_some_pattern("", patterns);
    }
    names.iter().any(|name| !is_pattern(name.as_str()) && has_some_pattern(name.as_str(), patterns))
}

// Whether a name has a pattern of the list.
fn has_some_pattern(name: &str, patterns: &[String]) -> bool
    ensures { result ≡ list_any (λ x. is_pattern x && name_matches x name.now) (map string_bytes patterns.now) }
{
    if name.len() > MOST_BYTES {
        return patterns.iter().any(|other| is_pattern(other.as_str())
            && name_matches(other.as_str(), name));
    }
    let parts = RightParts::of(name.as_bytes());
    patterns.iter().any(|other| is_pattern(other.as_str()) && parts.have(other.as_bytes()))
}

fn has_patterns(names: &[String]) -> bool
    ensures { result ≡ list_any is_pattern (map string_bytes names.now) }
{
    names.iter().any(|name| is_pattern(name.as_str()))
}

fn is_pattern(name: &str) -> bool
    ensures { result ≡ is_pattern name.now }
{
    name.as_bytes()
        .iter()
        .any(|byte| *byte == b'*' || *byte == b'?')
}
