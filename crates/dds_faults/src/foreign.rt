//! Words that users know from DDS's interfaces, ROS 2 or other tools, and what the files have in their place.

use crate::fields::Entry;
use crate::nearest::begins_with_part;
use dds_base::NoMemory;
use std::alloc::Global;

/// What the files call a field or a section that goes by this name elsewhere.
pub(crate) fn own_word(key: &str) -> Option<&'static str> {
    match key {
        "liveliness_lease_duration" | "liveliness_lease" => Some("lease"),
        "publisher" | "publication" | "datawriter" => Some("writer"),
        "subscriber" | "subscription" | "datareader" => Some("reader"),
        "publishers" | "publications" | "datawriters" => Some("writers"),
        "subscribers" | "subscriptions" | "datareaders" => Some("readers"),
        _ => None,
    }
}

static UNCOVERED: [&str; 3] = ["lifespan", "time_based_filter", "durability_service"];

/// Whether a key is a policy, or a part of one, that the files don't have and a yes doesn't cover.
pub(crate) fn is_uncovered(key: &str) -> bool {
    UNCOVERED
        .iter()
        .any(|policy| key == *policy || begins_with_part(key, policy))
}

// The entries with fields that no other kind of entry has.
static OWNERS: [Entry; 4] = [Entry::Participant, Entry::Topic, Entry::Reader, Entry::Rule];

fn is_own_field(entry: Entry, key: &str) -> bool {
    entry.fields().own.iter().any(|field| field.key == key)
}

fn is_policy(key: &str) -> bool {
    Entry::Writer
        .fields()
        .more
        .iter()
        .any(|field| field.key == key)
}

/// Whose field a key is, in words, where entries of other kinds than this one have it alone.
pub(crate) fn whose_field(alloc: Global, key: &str) -> Result<Option<String>, NoMemory> {
    if is_policy(key) {
        let help = String::from_str(alloc, "it's a field of writers and readers")?;
        return Ok(Some(help));
    }
    if is_own_field(Entry::Writer, key) {
        return Ok(None);
    }
    match OWNERS.iter().find(|entry| is_own_field(**entry, key)) {
        Some(owner) => {
            let noun = owner.noun();
            Ok(Some(format!(in alloc; "it's {noun}'s field")?))
        }
        None => Ok(None),
    }
}

/// The first 64 characters of a text in capitals.
pub(crate) fn in_capitals(alloc: Global, text: &str) -> Result<String, NoMemory> {
    let mut capitals = String::new(alloc);
    for c in text.chars().take(64) {
        capitals.push(c.to_ascii_uppercase())?;
    }
    Ok(capitals)
}

fn default_reliability(entry: Entry) -> &'static str {
    match entry {
        Entry::Writer => "RELIABLE",
        _ => "BEST_EFFORT",
    }
}

// The word of DDS's default for a policy.
fn default_word(entry: Entry, key: &str) -> Option<&'static str> {
    match key {
        "durability" => Some("VOLATILE"),
        "access_scope" => Some("INSTANCE"),
        "ownership" => Some("SHARED"),
        "liveliness" => Some("AUTOMATIC"),
        "reliability" => Some(default_reliability(entry)),
        "destination_order" => Some("BY_RECEPTION_TIMESTAMP"),
        "history" => Some("KEEP_LAST"),
        _ => None,
    }
}

/// What ROS 2's SYSTEM_DEFAULT comes to, where the word, which stands in capitals, is that.
pub(crate) fn help_with_default(
    alloc: Global,
    entry: Entry,
    key: &str,
    capitals: &str,
) -> Result<Option<String>, NoMemory> {
    if !capitals.ends_with("SYSTEM_DEFAULT") {
        return Ok(None);
    }
    match default_word(entry, key) {
        Some(word) => {
            let noun = entry.noun();
            Ok(Some(format!(in alloc;
                "what the middleware's profile says; without one it's \"{word}\" at {noun}"
            )?))
        }
        None => Ok(None),
    }
}
