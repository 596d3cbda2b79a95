//! `Front`, the first bytes of an image.
ghost use Rattle.std.specs.Prelude.{◌≡◌, ◌≤◌, take};

use crate::lines::SHOWN;

/// The first bytes of an image, as many as a report shows.
#[derive(Clone, Copy)]
pub struct Front {
    len: u8,
    bytes: [u8; SHOWN],
    ghost within: { len ≤ 16 },
}

impl Front {
    pub fn of(image: &[u8]) -> Front
        ensures { take result.len result.bytes ≡ take 16 image.now }
    {
        let len = image.len().min(SHOWN);
        let mut bytes = [0; SHOWN];
        bytes[..len].copy_from_slice(&image[..len]);
        Front {
            len: len as u8,
            bytes,
        }
    }

    pub fn bytes(&self) -> &[u8]
        ensures { result.now ≡ take self.now.len self.now.bytes }
    {
        &self.bytes[..self.len as usize]
    }
}
