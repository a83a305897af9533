//! What writers and readers have in common, for what names endpoints of either kind: applications and rules.
ghost use Rattle.std.specs.Prelude.{codes, ◌≡◌, ◌==◌, ◌&&◌, ◌<◌, ◌++◌, ◌∷◌, [], IfOk, List, Option, ℕ, length};
ghost use Rattle.std.specs.List.{list_any};
ghost use Rattle.dds_base.specs.Names.{number_of};
ghost use Rattle.dds_base.specs.declared.portion.Portion.{Portion as PortionView};
ghost use Rattle.dds_base.specs.Section.{Listed, listed};
ghost use Rattle.dds_lists.specs.Lists.{Application as ApplicationView, Topic as TopicView, keys_at, has};
ghost use Rattle.dds_lists.specs.Lists.{writer_topic, reader_topic};
ghost use Rattle.dds_deploy.specs.Applications.{writer_participant, reader_participant};
ghost use Rattle.dds_deploy.specs.Endpoints.{key_to_write, key_to_take};
ghost use Rattle.dds_deploy.specs.Rules.{is_named};
ghost use Rattle.dds_lists.specs.Views.{topic_view, writer_view, reader_view, application_view};

use dds_base::{
    Endpoint, KeyNo, Names, NoMemory, ParticipantNo, Portion, ReaderNo, Section, WriterNo,
};
use dds_lists::{Application, Reader, Topic, Writer};

/// The writers or the readers of a file.
pub(crate) trait Endpoints {
    /// The number of one of them.
    type Number: Endpoint;

    // how a file calls one of them
    ghost word: { List ℕ };

    ghost names: { Self → List (List ℕ) };

    ghost participant_of: { Self → ℕ → ℕ };

    ghost topic_of: { Self → ℕ → ℕ };

    // the key with a name that can be taken or written at the one with this number
    ghost key_at: { Self → Listed TopicView → List ℕ → ℕ → Option ℕ };

    // those that an application owns
    ghost owned_by: { ApplicationView → List ℕ };

    // lists of them, with the numbers seen as such
    ghost numbers: { List Self.Number → List ℕ };

    ghost portions: { List (PortionView Self.Number) → List (PortionView ℕ) };

    ghost shares: { List (Self.Number × ℕ) → List (ℕ × ℕ) };

    /// How a file calls one of them.
    fn word() -> &'static str
        ensures { result.now ≡ word };

    /// Their names.
    fn names(&self) -> &Names
        ensures { result.now ≡ names self.now };

    /// The participant of the one with this number.
    fn participant_of(&self, number: usize) -> ParticipantNo
        requires { number < length (names self.now) }
        ensures { result ≡ participant_of self.now number };

    /// The topic of the one with this number, 0 where there is none.
    fn topic_of(&self, number: usize) -> usize
        ensures { result ≡ topic_of self.now number };

    /// The key with this name that can be taken or written at the one with this number.
    fn key_at(&self, topics: &Section<Topic>, name: &str, number: usize) -> Option<usize>
        ensures { result ≡ key_at self.now (listed topic_view topics.now) name.now number };

    /// Those that the application owns.
    fn owned_by(application: &Application) -> &[Self::Number]
        ensures { numbers result.now ≡ owned_by (application_view application.now) };

    /// Whether the list has the one with this number.
    fn has_number(own: &[Self::Number], number: usize) -> bool
        ensures { result ≡ has (numbers own.now) number };

    /// Adds the one with this number to the list.
    fn push_number(own: &mut Vec<Self::Number>, number: usize) -> Result<(), NoMemory>
        ensures { IfOk result (λ _. numbers own.new.items ≡ numbers own.old.items ++ number ∷ []) };

    /// Whether one of the portions is of the endpoint with this number and this key.
    fn is_named(so_far: &[Portion<Self::Number>], number: usize, key: KeyNo) -> bool
        ensures { result ≡ is_named (portions so_far.now) number key };

    /// Adds a portion at the endpoint with this number.
    fn push_portion(
        so_far: &mut Vec<Portion<Self::Number>>,
        number: usize,
        key: KeyNo,
        count: u16,
    ) -> Result<(), NoMemory>
        ensures { IfOk result
            (λ _. portions so_far.new.items
            ≡ portions so_far.old.items ++ record { endpoint = number; key = key; count = count } ∷ []) };

    /// Whether one of the shares is of the endpoint with this number.
    fn is_shared(so_far: &[(Self::Number, u16)], number: usize) -> bool
        ensures { result ≡ list_any (λ x. x.0 == number) (shares so_far.now) };

    /// Adds a share of the endpoint with this number.
    fn push_share(
        so_far: &mut Vec<(Self::Number, u16)>,
        number: usize,
        count: u16,
    ) -> Result<(), NoMemory>
        ensures { IfOk result (λ _. shares so_far.new.items ≡ shares so_far.old.items ++ (number, count) ∷ []) };
}

// The number of the key with this name, where the topic has it.
fn key_number(topics: &Section<Topic>, topic: usize, name: &str) -> Option<usize>
    ensures { result ≡ number_of (keys_at (listed topic_view topics.now) topic) name.now }
{
    match topics.entries.get(topic) {
        Some(topic) => topic.keys.number(name),
        None => None,
    }
}

fn one_is_of<N: Endpoint>(portions: &[Portion<N>], number: usize, key: KeyNo) -> bool
    ensures { result ≡ list_any (λ x. N.number_of x.endpoint == number && x.key == key) portions.now }
{
    for portion in portions {
        if portion.endpoint.place() == number && portion.key == key {
            return true;
        }
    }
    false
}

fn one_is_at<N: Endpoint>(shares: &[(N, u16)], number: usize) -> bool
    ensures { result ≡ list_any (λ x. N.number_of x.0 == number) shares.now }
{
    for share in shares {
        if share.0.place() == number {
            return true;
        }
    }
    false
}

impl Endpoints for Section<Writer> {
    type Number = WriterNo;

    ghost word = { codes "writer" };

    ghost names = { λ all. all.names };

    ghost participant_of = { λ all. writer_participant (listed writer_view all) };

    ghost topic_of = { λ all. writer_topic (listed writer_view all) };

    ghost key_at = { λ all topics. key_to_write topics (listed writer_view all) };

    ghost owned_by = { λ a. a.writers };

    ghost numbers = { λ own. own };

    ghost portions = { λ all. all };

    ghost shares = { λ all. all };

    fn word() -> &'static str {
        "writer"
    }

    fn names(&self) -> &Names {
        &self.names
    }

    fn participant_of(&self, number: usize) -> ParticipantNo {
        self.entries[number].participant
    }

    fn topic_of(&self, number: usize) -> usize {
        match self.entries.get(number) {
            Some(writer) => writer.topic.number(),
            None => 0,
        }
    }

    fn key_at(&self, topics: &Section<Topic>, name: &str, number: usize) -> Option<usize> {
        key_number(topics, self.topic_of(number), name)
    }

    fn owned_by(application: &Application) -> &[WriterNo] {
        &application.writers
    }

    fn has_number(own: &[WriterNo], number: usize) -> bool {
        own.contains(&WriterNo::new(number))
    }

    fn push_number(own: &mut Vec<WriterNo>, number: usize) -> Result<(), NoMemory> {
        own.push(WriterNo::new(number))?;
        Ok(())
    }

    fn is_named(so_far: &[Portion<WriterNo>], number: usize, key: KeyNo) -> bool {
        one_is_of(so_far, number, key)
    }

    fn push_portion(
        so_far: &mut Vec<Portion<WriterNo>>,
        number: usize,
        key: KeyNo,
        count: u16,
    ) -> Result<(), NoMemory> {
        so_far.push(Portion {
            endpoint: WriterNo::new(number),
            key,
            count,
        })?;
        Ok(())
    }

    fn is_shared(so_far: &[(WriterNo, u16)], number: usize) -> bool {
        one_is_at(so_far, number)
    }

    fn push_share(
        so_far: &mut Vec<(WriterNo, u16)>,
        number: usize,
        count: u16,
    ) -> Result<(), NoMemory> {
        so_far.push((WriterNo::new(number), count))?;
        Ok(())
    }
}

impl Endpoints for Section<Reader> {
    type Number = ReaderNo;

    ghost word = { codes "reader" };

    ghost names = { λ all. all.names };

    ghost participant_of = { λ all. reader_participant (listed reader_view all) };

    ghost topic_of = { λ all. reader_topic (listed reader_view all) };

    ghost key_at = { λ all topics. key_to_take topics (listed reader_view all) };

    ghost owned_by = { λ a. a.readers };

    ghost numbers = { λ own. own };

    ghost portions = { λ all. all };

    ghost shares = { λ all. all };

    fn word() -> &'static str {
        "reader"
    }

    fn names(&self) -> &Names {
        &self.names
    }

    fn participant_of(&self, number: usize) -> ParticipantNo {
        self.entries[number].participant
    }

    fn topic_of(&self, number: usize) -> usize {
        match self.entries.get(number) {
            Some(reader) => reader.topic.number(),
            None => 0,
        }
    }

    fn key_at(&self, topics: &Section<Topic>, name: &str, number: usize) -> Option<usize> {
        let key = key_number(topics, self.topic_of(number), name)?;
        match self.entries.get(number) {
            Some(reader) if reader.filter.contains(&KeyNo::new(key)) => Some(key),
            _ => None,
        }
    }

    fn owned_by(application: &Application) -> &[ReaderNo] {
        &application.readers
    }

    fn has_number(own: &[ReaderNo], number: usize) -> bool {
        own.contains(&ReaderNo::new(number))
    }

    fn push_number(own: &mut Vec<ReaderNo>, number: usize) -> Result<(), NoMemory> {
        own.push(ReaderNo::new(number))?;
        Ok(())
    }

    fn is_named(so_far: &[Portion<ReaderNo>], number: usize, key: KeyNo) -> bool {
        one_is_of(so_far, number, key)
    }

    fn push_portion(
        so_far: &mut Vec<Portion<ReaderNo>>,
        number: usize,
        key: KeyNo,
        count: u16,
    ) -> Result<(), NoMemory> {
        so_far.push(Portion {
            endpoint: ReaderNo::new(number),
            key,
            count,
        })?;
        Ok(())
    }

    fn is_shared(so_far: &[(ReaderNo, u16)], number: usize) -> bool {
        one_is_at(so_far, number)
    }

    fn push_share(
        so_far: &mut Vec<(ReaderNo, u16)>,
        number: usize,
        count: u16,
    ) -> Result<(), NoMemory> {
        so_far.push((ReaderNo::new(number), count))?;
        Ok(())
    }
}
