//! The struct that a C program holds.
use crate::handle::Handle;

/// What `state` is where a guard is open. Before it is opened, and once it is closed, it is 0.
pub(crate) const OPEN: u64 = 1;

/// `ddscheck_guard` of the header. All is 0 before it is opened; the library's calls alone change it.
#[repr(C)]
#[derive(Drop)]
pub struct Slot {
    pub handle: Handle,
    pub state: u64,
}
