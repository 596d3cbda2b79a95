//! The place of a page's slot among the bytes of its device.
ghost use Rattle.std.specs.Prelude.{◌≡◌, ◌*◌, ◌<◌, ◌≤◌, ◌↔◌, IsSome, IfSome};

use bp_page::{Geometry, PageNo};

/// Returns the byte at which a page's slot of so many bytes begins, or `None` where the device has no such page.
pub(crate) fn start_of(geometry: &Geometry, slot: usize, page: PageNo) -> Option<u64>
    requires { slot ≤ 65552 }
    ensures in_range { IsSome result ↔ (page < geometry.now.pages) }
    ensures start { IfSome result (λ start. start ≡ page * slot) }
{
    let number = page.number();
    if number >= geometry.pages {
        return None;
    }
    Some(number * slot as u64)
}
