//! The guard of `dds_guard` for programs in C and C++, as `include/ddscheck.h` declares it. Each call is the guard's
//! behind the handle; beside what the guard answers it reports a handle that isn't open, or is open already. The
//! header's calls refuse NULL before they come here, so a pointer is a reference.
#![tactic(auto)]

pub mod calls;
pub mod checking;
pub mod faults;
pub mod handle;
mod lending;
pub mod qos;
pub mod raw_box;
pub mod reading;
pub mod slot;
mod status;
pub mod version;
