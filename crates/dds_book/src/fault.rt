//! Why an event is not entered.
ghost use Rattle.std.specs.Prelude.{◌≡◌};
ghost use Rattle.dds_book.specs.Fault.{number_of};

/// Why an event is not entered, in the order in which it is tested. Then nothing is changed.
#[derive(Clone, Copy, Debug, PartialEq, Eq)]
pub enum BookFault {
    /// 1: the book was stopped.
    Closed,
    /// 2: the journal has 1,048,576 entries.
    JournalFull,
    /// 3: the event is another seat's.
    NotYours,
    /// 4: memory ran out.
    NoMemory,
}

impl BookFault {
    /// The number of the fault, 1 to 4.
    pub fn number(self) -> u8
        ensures { result ≡ number_of self }
    {
        match self {
            BookFault::Closed => 1,
            BookFault::JournalFull => 2,
            BookFault::NotYours => 3,
            BookFault::NoMemory => 4,
        }
    }
}
