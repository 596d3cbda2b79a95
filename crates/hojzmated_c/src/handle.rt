//! `HzCore`, the handle through which C owns a pool.
ghost use Rattle.std.specs.Prelude.{◌≡◌, Some, None, is_some, IfSome, IfNone};

use crate::pool::Pool;
use crate::seal::Seal;
use std::alloc::Global;
use std::mem;

/// A core, or none. All bytes of a handle without a core are zero.
#[repr(C)]
#[derive(Drop)]
pub struct HzCore {
    pub(crate) seal: Seal,
    pub(crate) is_live: bool,
    pub ghost agrees: { is_live ≡ is_some seal.pool },
}

// The size that the header's struct has.
const _: () = prove!(size_of::<HzCore>() == 16);

impl HzCore {
    pub(crate) fn of(pool: Box<Pool, Global>) -> HzCore
        ensures { result.seal.pool ≡ Some pool.value }
    {
        HzCore {
            seal: Seal::of(pool),
            is_live: true,
        }
    }

    pub(crate) fn none(alloc: Global) -> HzCore
        ensures { result.seal.pool ≡ None }
    {
        HzCore {
            seal: Seal::none(alloc),
            is_live: false,
        }
    }

    /// Takes the pool out, if there is one. The handle then has none.
    pub(crate) fn take(&mut self, alloc: Global) -> Option<Box<Pool, Global>>
        ensures some { IfSome result (λ pool. self.old.seal.pool ≡ Some pool.value) }
        ensures none { IfNone result (self.old.seal.pool ≡ None) }
        ensures gone { self.new.seal.pool ≡ None }
    {
        let HzCore { seal, is_live } = mem::replace(self, HzCore::none(alloc));
        if is_live { Some(seal.into_box()) } else { None }
    }
}
