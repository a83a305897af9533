//! A whole deployment. Its lists name nothing that is not there.
ghost use Rattle.std.specs.Prelude.{◌≡◌, ◌<◌, length, slice_get, Some};
ghost use Rattle.dds_base.specs.Pairs.{stands};
ghost use Rattle.dds_lists.specs.Lists.{Lists, profile_of, keys_at, key_name};
ghost use Rattle.dds_lists.specs.Views.{participant_view, topic_view, writer_view, reader_view, application_view};
ghost use Rattle.dds_lists.specs.Views.{rule_view, lists_of};
ghost use Rattle.dds_lists.specs.WellFormed.{IsDeployment, IsWellFormed, NamesOnce, IsConsistent, IsOwned};

use crate::lists::{
    Application, Origin, Participant, Reader, Rule, Rules, Topic, Writer, key_name,
};
use dds_base::{
    AppNo, KeyNo, Names, Pairs, ParticipantNo, ReaderNo, RuleNo, Section, TopicNo, WriterNo,
};
use dds_qos::Profile;
use std::marker::Model;

/// The lists of a deployment. Every value is well formed: the lists keep their limits, every number names what is
/// there, nothing is named twice, each endpoint is consistent and has exactly one owner, at its participant, and rules
/// keep to what their application owns. The contracts of `writers`, `readers` and `applications` say so.
#[derive(Drop)]
pub struct Deployment {
    version: u32,
    participants: Section<Participant>,
    topics: Section<Topic>,
    writers: Section<Writer>,
    readers: Section<Reader>,
    applications: Section<Application>,
    rules: Rules,
    connections: Pairs,
}

impl Model for Deployment {
    ghost use Rattle.dds_lists.specs.Lists.{Lists};
    ghost use Rattle.dds_lists.specs.Views.{lists_of};
    ghost use Rattle.dds_lists.specs.WellFormed.{IsDeployment};

    ghost Value = { Lists };

    ghost view = { λ d.
        lists_of d.version d.participants d.topics d.writers d.readers d.applications d.rules d.connections };

    ghost invariant = { λ d. IsDeployment
        (lists_of d.version d.participants d.topics d.writers d.readers d.applications d.rules d.connections) };
}

impl Deployment {
    /// The deployment of these lists of a file of this version. They keep all that a deployment keeps: the reader of a
    /// file has seen to it.
    pub fn new(
        version: u32,
        participants: Section<Participant>,
        topics: Section<Topic>,
        writers: Section<Writer>,
        readers: Section<Reader>,
        applications: Section<Application>,
        rules: Rules,
        connections: Pairs,
    ) -> Deployment
        requires { IsDeployment (lists_of version participants topics writers readers applications rules connections) }
        ensures { result ≡ lists_of version participants topics writers readers applications rules connections }
    {
        Deployment {
            version,
            participants,
            topics,
            writers,
            readers,
            applications,
            rules,
            connections,
        }
    }

    /// What holds of every deployment, by this contract alone: each number names what is there, nothing is named twice,
    /// and all agrees. A caller whose proof rests on that says so by this call, which does nothing.
    pub fn assert_well_formed(&self)
        ensures well_formed { IsWellFormed self.now }
        ensures names_once { NamesOnce self.now }
        ensures consistent { IsConsistent self.now }
        ensures owned { IsOwned self.now }
    {
        let _ = &self.version;
    }

    /// The version of the file.
    pub fn version(&self) -> u32
        ensures { result ≡ self.now.version }
    {
        self.version
    }

    /// What the version of the file asks of its writers.
    pub fn profile(&self) -> Profile
        ensures { result ≡ profile_of self.now.version }
    {
        if self.version <= 2 {
            Profile::ReliableKeepAll
        } else {
            Profile::AnyWriter
        }
    }

    /// How many participants there are, at most 64.
    pub fn participants(&self) -> usize
        ensures { result ≡ length self.now.participants.entries }
    {
        self.participants.entries.len()
    }

    /// How many topics there are, at most 256.
    pub fn topics(&self) -> usize
        ensures { result ≡ length self.now.topics.entries }
    {
        self.topics.entries.len()
    }

    /// How many writers there are, at most 256.
    pub fn writers(&self) -> usize
        ensures count { result ≡ length self.now.writers.entries }
        ensures well_formed { IsWellFormed self.now }
    {
        self.writers.entries.len()
    }

    /// How many readers there are, at most 256.
    pub fn readers(&self) -> usize
        ensures count { result ≡ length self.now.readers.entries }
        ensures well_formed { IsWellFormed self.now }
    {
        self.readers.entries.len()
    }

    /// How many applications there are, at most 64.
    pub fn applications(&self) -> usize
        ensures count { result ≡ length self.now.applications.entries }
        ensures names_once { NamesOnce self.now }
        ensures consistent { IsConsistent self.now }
        ensures owned { IsOwned self.now }
    {
        self.applications.entries.len()
    }

    /// How many rules there are, at most 256.
    pub fn rules(&self) -> usize
        ensures { result ≡ length self.now.rules.entries }
    {
        self.rules.entries.len()
    }

    /// The names of the participants, in file order.
    pub fn participant_names(&self) -> &Names
        ensures { result.now ≡ self.now.participants.names }
    {
        &self.participants.names
    }

    /// The names of the topics, in file order.
    pub fn topic_names(&self) -> &Names
        ensures { result.now ≡ self.now.topics.names }
    {
        &self.topics.names
    }

    /// The names of the writers, in file order.
    pub fn writer_names(&self) -> &Names
        ensures { result.now ≡ self.now.writers.names }
    {
        &self.writers.names
    }

    /// The names of the readers, in file order.
    pub fn reader_names(&self) -> &Names
        ensures { result.now ≡ self.now.readers.names }
    {
        &self.readers.names
    }

    /// The names of the applications, in file order.
    pub fn application_names(&self) -> &Names
        ensures { result.now ≡ self.now.applications.names }
    {
        &self.applications.names
    }

    /// The names of the rules as the file gives them, in its order. Rules of one entry have one name.
    pub fn rule_names(&self) -> &Names
        ensures { result.now ≡ self.now.rules.names }
    {
        &self.rules.names
    }

    /// The name and the key that a rule comes from.
    pub fn rule_origin(&self, u: RuleNo) -> Option<Origin>
        ensures { result ≡ slice_get self.now.rules.origins u }
    {
        self.rules.origins.get(u.number()).copied()
    }

    /// A participant.
    pub fn participant(&self, p: ParticipantNo) -> &Participant
        requires { p < length self.now.participants.entries }
        ensures { slice_get self.now.participants.entries p ≡ Some (participant_view result.now) }
    {
        &self.participants.entries[p.number()]
    }

    /// A topic.
    pub fn topic(&self, t: TopicNo) -> &Topic
        requires { t < length self.now.topics.entries }
        ensures { slice_get self.now.topics.entries t ≡ Some (topic_view result.now) }
    {
        &self.topics.entries[t.number()]
    }

    /// The keys of a topic, in the order of the file.
    pub fn keys(&self, t: TopicNo) -> &Names
        requires { t < length self.now.topics.entries }
        ensures { result.now ≡ keys_at self.now.topics t }
    {
        &self.topics.entries[t.number()].keys
    }

    /// The name of a key of a topic, empty where there is none.
    pub fn key_name(&self, t: TopicNo, k: KeyNo) -> &str
        ensures { result.now ≡ key_name self.now.topics t k }
    {
        key_name(&self.topics, t.number(), k.number())
    }

    /// A writer.
    pub fn writer(&self, w: WriterNo) -> &Writer
        requires { w < length self.now.writers.entries }
        ensures { slice_get self.now.writers.entries w ≡ Some (writer_view result.now) }
    {
        &self.writers.entries[w.number()]
    }

    /// A reader.
    pub fn reader(&self, r: ReaderNo) -> &Reader
        requires { r < length self.now.readers.entries }
        ensures { slice_get self.now.readers.entries r ≡ Some (reader_view result.now) }
    {
        &self.readers.entries[r.number()]
    }

    /// An application.
    pub fn application(&self, a: AppNo) -> &Application
        requires { a < length self.now.applications.entries }
        ensures { slice_get self.now.applications.entries a ≡ Some (application_view result.now) }
    {
        &self.applications.entries[a.number()]
    }

    /// A rule.
    pub fn rule(&self, u: RuleNo) -> &Rule
        requires { u < length self.now.rules.entries }
        ensures { slice_get self.now.rules.entries u ≡ Some (rule_view result.now) }
    {
        &self.rules.entries[u.number()]
    }

    /// Whether a connection names the pair.
    pub fn is_connected(&self, w: WriterNo, r: ReaderNo) -> bool
        ensures { result ≡ stands self.now.connections w r }
    {
        self.connections.contains(w.number(), r.number())
    }
}
