//! The event of each kind that a text says. A function answers `None` only where the text is no event of its kind.
ghost use Rattle.std.specs.Prelude.{◌≡◌, ◌≢◌, ◌<◌, ◌↔◌, ℕ, Bool, true, List, length, IfNone, IfSome};
ghost use Rattle.dds_lists.specs.Lists.{Lists};
ghost use Rattle.dds_text.specs.Names.{reader_key, reader_keys, writer_key, writer_keys};
ghost use Rattle.dds_text.specs.Names.{reader_name, rule_text, writer_name};
ghost use Rattle.dds_text.specs.Texts.{two_words};
ghost use Rattle.dds_events.specs.Reading.{IsOfDeployment, IsSaidBy, IsUnsaidBy};

use crate::words::{after_word, number_of, numbered_pair_of, pair_of, place_after};
use dds_base::{Data, Event, KeyNo, ReaderNo, RuleNo, WriterNo};
use dds_lists::Deployment;
use dds_text::names::{keys_of_reader, keys_of_writer, name_at, reader_name, writer_name};

/// What a write carries that is read from a text.
const NO_DATA: Data = [0; 32];

/// The writer and the key of its topic whose names the text is.
#[tactic(auto, using(crate::proofs::WordLaws::one_more))]
fn writer_and_key(lists: &Deployment, text: &str) -> Option<(WriterNo, KeyNo)>
    ensures within { IfSome result
        (λ x. (x.0 < length lists.now.writers.entries) × (x.1 < length (writer_keys lists.now x.0))) }
    ensures some { IfSome result
        (λ x. two_words (writer_name lists.now x.0) (writer_key lists.now x.0 x.1) ≡ text.now) }
    ensures none { IfNone result ((w k : ℕ) → w < length lists.now.writers.entries
        → k < length (writer_keys lists.now w)
        → two_words (writer_name lists.now w) (writer_key lists.now w k) ≢ text.now) }
{
    for number in 0..lists.writers() {
        let writer = WriterNo::new(number);
        let keys = keys_of_writer(lists, writer);
        if let Some(key) = place_after(keys, writer_name(lists, writer), text) {
            return Some((writer, KeyNo::new(key)));
        }
    }
    None
}

/// The reader and the key of its topic whose names the text is.
#[tactic(auto, using(crate::proofs::WordLaws::one_more))]
fn reader_and_key(lists: &Deployment, text: &str) -> Option<(ReaderNo, KeyNo)>
    ensures within { IfSome result
        (λ x. (x.0 < length lists.now.readers.entries) × (x.1 < length (reader_keys lists.now x.0))) }
    ensures some { IfSome result
        (λ x. two_words (reader_name lists.now x.0) (reader_key lists.now x.0 x.1) ≡ text.now) }
    ensures none { IfNone result ((r k : ℕ) → r < length lists.now.readers.entries
        → k < length (reader_keys lists.now r)
        → two_words (reader_name lists.now r) (reader_key lists.now r k) ≢ text.now) }
{
    for number in 0..lists.readers() {
        let reader = ReaderNo::new(number);
        let keys = keys_of_reader(lists, reader);
        if let Some(key) = place_after(keys, reader_name(lists, reader), text) {
            return Some((reader, KeyNo::new(key)));
        }
    }
    None
}

/// Whether this is the text of a rule.
fn is_rule_text(lists: &Deployment, rule: RuleNo, text: &str) -> bool
    ensures { result ≡ true ↔ rule_text lists.now rule ≡ text.now }
{
    let Some(origin) = lists.rule_origin(rule) else {
        return text.is_empty();
    };
    let name = name_at(lists.rule_names(), origin.name);
    match origin.key {
        Some((topic, key)) => match after_word(text, name) {
            Some(rest) => rest == lists.key_name(topic, key),
            None => false,
        },
        None => text == name,
    }
}

/// The rule whose text this is.
#[tactic(auto, using(crate::proofs::WordLaws::one_more))]
fn rule_of(lists: &Deployment, text: &str) -> Option<RuleNo>
    ensures within { IfSome result (λ u. u < length lists.now.rules.entries) }
    ensures some { IfSome result (λ u. rule_text lists.now u ≡ text.now) }
    ensures none { IfNone result ((u : ℕ) → u < length lists.now.rules.entries → rule_text lists.now u ≢ text.now) }
{
    for number in 0..lists.rules() {
        let rule = RuleNo::new(number);
        if is_rule_text(lists, rule, text) {
            return Some(rule);
        }
    }
    None
}

/// The write that the text says.
pub(crate) fn write_of(lists: &Deployment, text: &str) -> Option<Event>
    ensures known { IfSome result (IsOfDeployment lists.now) }
    ensures some { IfSome result (IsSaidBy lists.now text.now) }
    ensures none { IfNone result ((w k : ℕ) (payload : List ℕ)
        → IsUnsaidBy lists.now text.now (Event.Write w k payload)) }
{
    let (writer, key) = writer_and_key(lists, after_word(text, "write")?)?;
    Some(Event::Write {
        writer,
        key,
        payload: NO_DATA,
    })
}

/// The firing of a rule that the text says.
pub(crate) fn fire_of(lists: &Deployment, text: &str) -> Option<Event>
    ensures known { IfSome result (IsOfDeployment lists.now) }
    ensures some { IfSome result (IsSaidBy lists.now text.now) }
    ensures none { IfNone result ((u : ℕ) → IsUnsaidBy lists.now text.now (Event.Fire u)) }
{
    let rule = rule_of(lists, after_word(text, "fire")?)?;
    Some(Event::Fire { rule })
}

/// The take that the text says.
pub(crate) fn take_of(lists: &Deployment, text: &str) -> Option<Event>
    ensures known { IfSome result (IsOfDeployment lists.now) }
    ensures some { IfSome result (IsSaidBy lists.now text.now) }
    ensures none { IfNone result ((r k : ℕ) → IsUnsaidBy lists.now text.now (Event.Take r k)) }
{
    let (reader, key) = reader_and_key(lists, after_word(text, "take")?)?;
    Some(Event::Take { reader, key })
}

/// The sending of a DATA that the text says.
pub(crate) fn data_of(lists: &Deployment, text: &str) -> Option<Event>
    ensures known { IfSome result (IsOfDeployment lists.now) }
    ensures some { IfSome result (IsSaidBy lists.now text.now) }
    ensures none { IfNone result ((w r n : ℕ) → IsUnsaidBy lists.now text.now (Event.SendData w r n)) }
{
    // Each name has an endpoint.
    lists.assert_well_formed();
    let words = after_word(text, "send")?;
    let (writer, reader, sn) = numbered_pair_of(lists.writer_names(), lists.reader_names(), words)?;
    Some(Event::SendData {
        writer: WriterNo::new(writer),
        reader: ReaderNo::new(reader),
        sn,
    })
}

/// The sending of a GAP that the text says.
pub(crate) fn gap_of(lists: &Deployment, text: &str) -> Option<Event>
    ensures known { IfSome result (IsOfDeployment lists.now) }
    ensures some { IfSome result (IsSaidBy lists.now text.now) }
    ensures none { IfNone result ((w r n : ℕ) → IsUnsaidBy lists.now text.now (Event.SendGap w r n)) }
{
    // Each name has an endpoint.
    lists.assert_well_formed();
    let words = after_word(text, "gap")?;
    let (writer, reader, start) = numbered_pair_of(
        lists.writer_names(),
        lists.reader_names(),
        words,
    )?;
    Some(Event::SendGap {
        writer: WriterNo::new(writer),
        reader: ReaderNo::new(reader),
        start,
    })
}

/// The sending of a HEARTBEAT that the text says.
pub(crate) fn heartbeat_of(lists: &Deployment, text: &str) -> Option<Event>
    ensures known { IfSome result (IsOfDeployment lists.now) }
    ensures some { IfSome result (IsSaidBy lists.now text.now) }
    ensures none { IfNone result ((w r : ℕ) → IsUnsaidBy lists.now text.now (Event.SendHeartbeat w r)) }
{
    // Each name has an endpoint.
    lists.assert_well_formed();
    let words = after_word(text, "heartbeat")?;
    let (writer, reader) = pair_of(lists.writer_names(), lists.reader_names(), words)?;
    Some(Event::SendHeartbeat {
        writer: WriterNo::new(writer),
        reader: ReaderNo::new(reader),
    })
}

/// The sending of an ACKNACK that the text says.
pub(crate) fn acknack_of(lists: &Deployment, text: &str) -> Option<Event>
    ensures known { IfSome result (IsOfDeployment lists.now) }
    ensures some { IfSome result (IsSaidBy lists.now text.now) }
    ensures none { IfNone result ((r w : ℕ) → IsUnsaidBy lists.now text.now (Event.SendAckNack r w)) }
{
    // Each name has an endpoint.
    lists.assert_well_formed();
    let words = after_word(text, "acknack")?;
    let (reader, writer) = pair_of(lists.reader_names(), lists.writer_names(), words)?;
    Some(Event::SendAckNack {
        reader: ReaderNo::new(reader),
        writer: WriterNo::new(writer),
    })
}

/// The delivery of a packet that the text says.
pub(crate) fn delivery_of(text: &str) -> Option<Event>
    ensures known { (d : Lists) → IfSome result (IsOfDeployment d) }
    ensures some { (d : Lists) → IfSome result (IsSaidBy d text.now) }
    ensures none { IfNone result ((d : Lists) (place : ℕ) (keep : Bool)
        → IsUnsaidBy d text.now (Event.Deliver place keep)) }
{
    let words = after_word(text, "deliver")?;
    if let Some(place) = number_of(words) {
        return Some(Event::Deliver {
            place: place as usize,
            keep: false,
        });
    }
    let place = number_of(words.strip_suffix(" keep")?)?;
    Some(Event::Deliver {
        place: place as usize,
        keep: true,
    })
}

/// The loss of a packet that the text says.
pub(crate) fn loss_of(text: &str) -> Option<Event>
    ensures known { (d : Lists) → IfSome result (IsOfDeployment d) }
    ensures some { (d : Lists) → IfSome result (IsSaidBy d text.now) }
    ensures none { IfNone result ((d : Lists) (place : ℕ) → IsUnsaidBy d text.now (Event.Lose place)) }
{
    let place = number_of(after_word(text, "lose")?)?;
    Some(Event::Lose {
        place: place as usize,
    })
}
