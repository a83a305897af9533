//! Lends the guard behind a handle.
ghost use Rattle.std.specs.Prelude.{◌≡◌, true};
ghost use types.Logic.{sem};
ghost use Rattle.dds_guard_c.specs.Follows.{handle_follows};

use crate::handle::Handle;
use dds_guard::Guard;

impl Handle {
    /// The guard behind an open handle. What becomes of it becomes of the handle.
    pub(crate) fn as_mut(&mut self) -> &mut Guard
        requires { self.old.is_open ≡ true }
        ensures* writes_back { sem 𝓛 (handle_follows self.entry result) }
        ensures value { result.now ≡ self.old.guard }
    {
        unsafe { &mut *(self.at as *mut Guard) }
    }
}
