//! What an entry does to the image of a page.
ghost use Rattle.std.specs.Prelude.{◌≡◌, OnOk};
ghost use Rattle.bp_page.specs.Patched.{patched};
ghost use Rattle.bp_trail.specs.Event as event;

use bp_page::PageNo;
use bp_trail::{Call, Entry};
use std::alloc::AllocError;

/// Replaces the image by that of a read end, or by no bytes where the read brought none.
pub(crate) fn read_into(image: &mut Vec<u8>, call: &Call) -> Result<(), AllocError>
    ensures { OnOk result (image.new.items ≡ event.image_read call.now) }
{
    image.clear();
    if let Call::ReadEnd {
        image: Some(read),
        ..
    } = call
    {
        image.extend_from_slice(read.bytes())?;
    }
    Ok(())
}

/// Overwrites the bytes from the offset on. Where the new bytes end past the image, it ends with them afterwards.
fn patch(image: &mut Vec<u8>, offset: usize, bytes: &[u8]) -> Result<(), AllocError>
    ensures { OnOk result (image.new.items ≡ patched offset bytes.now image.old.items) }
{
    if offset <= image.len() && bytes.len() <= image.len() - offset {
        let end = offset + bytes.len();
        image[offset..end].copy_from_slice(bytes);
    } else {
        image.truncate(offset);
        image.extend_from_slice(bytes)?;
    }
    Ok(())
}

/// Applies an entry to the image of the page: a write of the page changes it, and no other entry does.
pub(crate) fn write_into(image: &mut Vec<u8>, page: PageNo, e: &Entry) -> Result<(), AllocError>
    ensures { OnOk result (image.new.items ≡ event.written page e.now image.old.items) }
{
    if let Call::Write {
        page: of,
        offset,
        bytes,
        ..
    } = &e.call
    {
        if *of == page {
            patch(image, *offset as usize, bytes.bytes())?;
        }
    }
    Ok(())
}
