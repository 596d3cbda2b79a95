//! `Seal`, one pointer that owns a boxed pool, or null. It is the part of the handle that C must not look into.
ghost use Rattle.std.specs.Prelude.{◌≡◌, Option, Some, None, IsSome};
ghost use Rattle.bp_core.specs.CoreView.{CoreView};
ghost use Rattle.hojzmated_c.specs.Owned.{pool_owns, pool_coded};

mod parts;

use crate::pool::Pool;
use parts::Parts;
use std::alloc::Global;
use std::marker::{Model, Send};

/// The owner of a boxed pool. The pointer is null where there is none.
#[repr(C)]
#[derive(Drop)]
pub struct Seal {
    ptr: *mut u8,
    alloc: Global,
    pub ghost pool: { Option CoreView } by { pool_coded },
}

impl Model for Seal {
    ghost also_owns = { λ s. pool_owns s.alloc s.ptr s.pool };
}

// The seal is the pool's only owner, and a pool may be sent to another thread.
unsafe impl Send for Seal {}

impl Seal {
    pub(crate) fn of(whole: Box<Pool, Global>) -> Seal
        ensures { result.pool ≡ Some whole.value }
    {
        Seal::of_parts(Parts::of(whole))
    }

    pub(crate) fn none(alloc: Global) -> Seal
        ensures { result.pool ≡ None }
    {
        Seal {
            ptr: std::ptr::null_mut(),
            alloc,
        }
    }

    /// Returns the boxed pool.
    pub(crate) fn into_box(self) -> Box<Pool, Global>
        requires { IsSome self.pool }
        ensures { self.pool ≡ Some result.value }
    {
        self.into_parts().into_box()
    }

    fn of_parts(parts: Parts<Pool, Global>) -> Seal
        ensures { result.pool ≡ Some parts.value }
    {
        let Parts { ptr, alloc } = parts;
        Seal {
            ptr: ptr as *mut u8,
            alloc,
        }
    }

    fn into_parts(self) -> Parts<Pool, Global>
        requires { IsSome self.pool }
        ensures { self.pool ≡ Some result.value }
    {
        let Seal { ptr, alloc } = self;
        Parts {
            ptr: ptr as *mut Pool,
            alloc,
        }
    }
}
