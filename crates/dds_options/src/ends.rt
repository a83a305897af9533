//! Which ends of applications make a run good.

/// The ends of all applications that make the answer of a run yes.
#[derive(Clone, Copy, Debug, PartialEq, Eq)]
pub enum GoodEnds {
    /// Each thread ended as its application asked.
    Stopped,
    /// Each ended so, or since nothing changed any more.
    StoppedOrIdle,
}
