//! How much of an answer is printed.

/// How much of a report is printed.
#[derive(Clone, Copy, Debug, PartialEq, Eq)]
pub enum Detail {
    /// The answer.
    Plain,
    /// The answer, and after it its reason: the numbers behind a refusal, or how near each bound is to its limit, what
    /// the yes takes for granted of clocks, and what it doesn't say.
    Explained,
}
