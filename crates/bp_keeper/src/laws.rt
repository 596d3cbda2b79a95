//! The law that a silent keeper refuses nothing.
ghost use Rattle.std.specs.Prelude.{IsOk};

use crate::keeper::Keeper;
use crate::silent::SilentKeeper;
use bp_page::Image;
use std::alloc::{AllocError, Global};

/// A silent keeper asks for no memory: each spare that is wanted of it is there.
pub fn silent_keeper_refuses_nothing(
    alloc: Global,
    image: &Image,
    bytes: &[u8],
) -> Result<(), AllocError>
    ensures { IsOk result }
{
    let _spare = SilentKeeper::spare_image(alloc, image)?;
    SilentKeeper::spare_bytes(alloc, bytes)
}
