//! The numbers of the entries of a deployment: each is a place in its list, from 0. A contract sees each as the number
//! itself.

ghost use Rattle.std.specs.Prelude.{◌≡◌, ℕ};

use std::marker::Model;

/// The number of an endpoint, a writer or a reader.
pub trait Endpoint: Copy {
    ghost number_of: { Self → ℕ };

    /// The place in the list of the writers or of the readers, from 0.
    fn place(self) -> usize
        ensures { result ≡ number_of self };
}

/// The number of a participant: its place among the participants, from 0.
#[derive(Clone, Copy, Debug, PartialEq, Eq)]
pub struct ParticipantNo {
    number: usize,
}

impl Model for ParticipantNo {
    ghost Value = { ℕ };

    ghost view = { λ a. a.number };

    ghost inverse = { λ n. record { number = n } };
}

impl ParticipantNo {
    /// The participant at this place, from 0.
    pub fn new(number: usize) -> ParticipantNo
        ensures { result ≡ number }
    {
        ParticipantNo { number }
    }

    /// The place, from 0.
    pub fn number(self) -> usize
        ensures { result ≡ self }
    {
        self.number
    }
}

/// The number of a topic: its place among the topics, from 0.
#[derive(Clone, Copy, Debug, PartialEq, Eq)]
pub struct TopicNo {
    number: usize,
}

impl Model for TopicNo {
    ghost Value = { ℕ };

    ghost view = { λ a. a.number };

    ghost inverse = { λ n. record { number = n } };
}

impl TopicNo {
    /// The topic at this place, from 0.
    pub fn new(number: usize) -> TopicNo
        ensures { result ≡ number }
    {
        TopicNo { number }
    }

    /// The place, from 0.
    pub fn number(self) -> usize
        ensures { result ≡ self }
    {
        self.number
    }
}

/// The number of a key: its place among the keys of a topic, from 0.
#[derive(Clone, Copy, Debug, PartialEq, Eq)]
pub struct KeyNo {
    number: usize,
}

impl Model for KeyNo {
    ghost Value = { ℕ };

    ghost view = { λ a. a.number };

    ghost inverse = { λ n. record { number = n } };
}

impl KeyNo {
    /// The key at this place, from 0.
    pub fn new(number: usize) -> KeyNo
        ensures { result ≡ number }
    {
        KeyNo { number }
    }

    /// The place, from 0.
    pub fn number(self) -> usize
        ensures { result ≡ self }
    {
        self.number
    }
}

/// The number of a writer: its place among the writers, from 0.
#[derive(Clone, Copy, Debug, PartialEq, Eq)]
pub struct WriterNo {
    number: usize,
}

impl Model for WriterNo {
    ghost Value = { ℕ };

    ghost view = { λ a. a.number };

    ghost inverse = { λ n. record { number = n } };
}

impl WriterNo {
    /// The writer at this place, from 0.
    pub fn new(number: usize) -> WriterNo
        ensures { result ≡ number }
    {
        WriterNo { number }
    }

    /// The place, from 0.
    pub fn number(self) -> usize
        ensures { result ≡ self }
    {
        self.number
    }
}

/// The number of a reader: its place among the readers, from 0.
#[derive(Clone, Copy, Debug, PartialEq, Eq)]
pub struct ReaderNo {
    number: usize,
}

impl Model for ReaderNo {
    ghost Value = { ℕ };

    ghost view = { λ a. a.number };

    ghost inverse = { λ n. record { number = n } };
}

impl ReaderNo {
    /// The reader at this place, from 0.
    pub fn new(number: usize) -> ReaderNo
        ensures { result ≡ number }
    {
        ReaderNo { number }
    }

    /// The place, from 0.
    pub fn number(self) -> usize
        ensures { result ≡ self }
    {
        self.number
    }
}

/// The number of an application: its place among the applications, from 0.
#[derive(Clone, Copy, Debug, PartialEq, Eq)]
pub struct AppNo {
    number: usize,
}

impl Model for AppNo {
    ghost Value = { ℕ };

    ghost view = { λ a. a.number };

    ghost inverse = { λ n. record { number = n } };
}

impl AppNo {
    /// The application at this place, from 0.
    pub fn new(number: usize) -> AppNo
        ensures { result ≡ number }
    {
        AppNo { number }
    }

    /// The place, from 0.
    pub fn number(self) -> usize
        ensures { result ≡ self }
    {
        self.number
    }
}

/// The number of a rule: its place among the rules, from 0.
#[derive(Clone, Copy, Debug, PartialEq, Eq)]
pub struct RuleNo {
    number: usize,
}

impl Model for RuleNo {
    ghost Value = { ℕ };

    ghost view = { λ a. a.number };

    ghost inverse = { λ n. record { number = n } };
}

impl RuleNo {
    /// The rule at this place, from 0.
    pub fn new(number: usize) -> RuleNo
        ensures { result ≡ number }
    {
        RuleNo { number }
    }

    /// The place, from 0.
    pub fn number(self) -> usize
        ensures { result ≡ self }
    {
        self.number
    }
}

impl Endpoint for WriterNo {
    ghost number_of = { λ n. n };

    fn place(self) -> usize {
        self.number
    }
}

impl Endpoint for ReaderNo {
    ghost number_of = { λ n. n };

    fn place(self) -> usize {
        self.number
    }
}
