//! Whose each event is: which seat may make it.
ghost use Rattle.std.specs.Prelude.{◌≡◌, ◌<◌, ◌≤◌, false, length, nat_lt};
ghost use Rattle.dds_book.specs.Owning.{has_reader, has_rule, has_writer, is_own, is_participant, names_unknown, owns};
ghost use Rattle.dds_book.specs.Owning.{participant_of, seat_count, sends_of_reader, sends_of_writer};

use dds_base::{AppNo, Event, ParticipantNo, ReaderNo, RuleNo, WriterNo};
use dds_lists::Deployment;

/// How many seats there are: one for each application, and then one for each participant.
pub(crate) fn seat_count(lists: &Deployment) -> usize
    ensures { result ≡ seat_count lists.now }
{
    // What is known of every deployment: each name has an entry.
    let _well_formed = lists.writers();
    lists.applications() + lists.participants()
}

/// Whether the seat is a participant's.
pub(crate) fn is_participant(lists: &Deployment, seat: usize) -> bool
    ensures { result ≡ is_participant lists.now seat }
{
    lists.applications() <= seat && seat < seat_count(lists)
}

/// The participant whose seat this is.
pub(crate) fn participant_of(lists: &Deployment, seat: usize) -> ParticipantNo
    requires { length lists.now.applications.entries ≤ seat }
    ensures { result ≡ participant_of lists.now seat }
{
    ParticipantNo::new(seat - lists.applications())
}

/// Whether the event is one of the seat's own: an application's seat writes and takes at the endpoints that it owns and
/// fires its rules, a participant's sends from its endpoints and moves packets of the bus. An event that names an
/// endpoint or a rule that isn't there is every seat's. It walks at most the lists of one application.
pub(crate) fn owns(lists: &Deployment, seat: usize, event: &Event) -> bool
    ensures { result ≡ owns lists.now seat event.now }
{
    seat < seat_count(lists) && (names_unknown(lists, event) || is_own(lists, seat, event))
}

// Whether the event names an endpoint or a rule that isn't there.
fn names_unknown(lists: &Deployment, event: &Event) -> bool
    ensures { result ≡ names_unknown lists.now event.now }
{
    match *event {
        Event::Write { writer, .. } => !is_writer(lists, writer),
        Event::Fire { rule } => rule.number() >= lists.rules(),
        Event::Take { reader, .. } => !is_reader(lists, reader),
        Event::SendData { writer, reader, .. }
        | Event::SendGap { writer, reader, .. }
        | Event::SendHeartbeat { writer, reader }
        | Event::SendAckNack { reader, writer } => {
            !(is_writer(lists, writer) && is_reader(lists, reader))
        }
        Event::Deliver { .. } | Event::Lose { .. } => false,
    }
}

fn is_writer(lists: &Deployment, writer: WriterNo) -> bool
    ensures { result ≡ nat_lt writer (length lists.now.writers.entries) }
{
    writer.number() < lists.writers()
}

fn is_reader(lists: &Deployment, reader: ReaderNo) -> bool
    ensures { result ≡ nat_lt reader (length lists.now.readers.entries) }
{
    reader.number() < lists.readers()
}

// Whether the event happens at the seat's application or participant, where all that it names is there.
fn is_own(lists: &Deployment, seat: usize, event: &Event) -> bool
    requires { names_unknown lists.now event.now ≡ false }
    ensures { result ≡ is_own lists.now seat event.now }
{
    match *event {
        Event::Write { writer, .. } => has_writer(lists, seat, writer),
        Event::Fire { rule } => lists.rule(rule).application.number() == seat,
        Event::Take { reader, .. } => has_reader(lists, seat, reader),
        Event::SendData { writer, .. }
        | Event::SendGap { writer, .. }
        | Event::SendHeartbeat { writer, .. } => sends_of_writer(lists, seat, writer),
        Event::SendAckNack { reader, .. } => sends_of_reader(lists, seat, reader),
        Event::Deliver { .. } | Event::Lose { .. } => seat >= lists.applications(),
    }
}

// Whether the seat belongs to the application that owns the writer.
fn has_writer(lists: &Deployment, seat: usize, writer: WriterNo) -> bool
    ensures { result ≡ has_writer lists.now seat writer }
{
    if seat >= lists.applications() {
        return false;
    }
    lists
        .application(AppNo::new(seat))
        .writers
        .contains(&writer)
}

// Whether the seat belongs to the application that owns the reader.
fn has_reader(lists: &Deployment, seat: usize, reader: ReaderNo) -> bool
    ensures { result ≡ has_reader lists.now seat reader }
{
    if seat >= lists.applications() {
        return false;
    }
    lists
        .application(AppNo::new(seat))
        .readers
        .contains(&reader)
}

// Whether the seat is the writer's participant's.
fn sends_of_writer(lists: &Deployment, seat: usize, writer: WriterNo) -> bool
    requires { writer < length lists.now.writers.entries }
    ensures { result ≡ sends_of_writer lists.now seat writer }
{
    let first = lists.applications();
    seat >= first && lists.writer(writer).participant.number() == seat - first
}

// Whether the seat is the reader's participant's.
fn sends_of_reader(lists: &Deployment, seat: usize, reader: ReaderNo) -> bool
    requires { reader < length lists.now.readers.entries }
    ensures { result ≡ sends_of_reader lists.now seat reader }
{
    let first = lists.applications();
    seat >= first && lists.reader(reader).participant.number() == seat - first
}
