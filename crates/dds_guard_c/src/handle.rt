//! What C holds of an open guard: the address of a block on the heap.
ghost use Rattle.std.specs.Prelude.{◌≡◌, true, Bool};
ghost use Rattle.dds_guard.specs.Guard.{GuardState};
ghost use Rattle.dds_guard_c.specs.Owned.{guard_coded, handle_owns};

use crate::raw_box::RawBox;
use dds_guard::Guard;
use std::alloc::Global;
use std::marker::Model;

/// The address of a guard. An open handle owns what a box of the guard owns, any other nothing.
#[repr(C)]
#[derive(Drop)]
pub struct Handle {
    pub(crate) at: *mut (),
    alloc: Global,
    pub ghost is_open: { Bool },
    pub ghost guard: { GuardState } by { guard_coded },
}

impl Model for Handle {
    ghost also_owns = { λ h. handle_owns h.is_open h.alloc h.at h.guard };
}

impl Handle {
    /// The handle of a boxed guard.
    pub(crate) fn of(whole: Box<Guard>) -> Handle
        ensures is_open { result.is_open ≡ true }
        ensures guard { result.guard ≡ whole.value }
    {
        Handle::of_raw(RawBox::of(whole))
    }

    /// The box of an open handle.
    pub(crate) fn into_box(self) -> Box<Guard>
        requires { self.is_open ≡ true }
        ensures { result.value ≡ self.guard }
    {
        self.into_raw().into_box()
    }

    fn of_raw(raw: RawBox<Guard, Global>) -> Handle
        ensures { (result.is_open ≡ true) × (result.guard ≡ raw.value) }
    {
        let RawBox { at, alloc } = raw;
        Handle {
            at: at as *mut (),
            alloc,
        }
    }

    fn into_raw(self) -> RawBox<Guard, Global>
        requires { self.is_open ≡ true }
        ensures { result.value ≡ self.guard }
    {
        let Handle { at, alloc } = self;
        RawBox {
            at: at as *mut Guard,
            alloc,
        }
    }
}
