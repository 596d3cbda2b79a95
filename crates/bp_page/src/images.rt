//! `Image`, the bytes of a page, and `Bytes`, those that a write puts there.
ghost use Rattle.std.specs.Prelude.{◌≡◌, ℕ, ◌+◌, ◌≤◌, List, IfOk, length, replicate, take, drop};
ghost use Rattle.std.specs.Str.{bytes_eq};
ghost use Rattle.std.specs.Cmp.Rules.{comparing};
ghost use Rattle.std.proofs.Common.{rules};
ghost use Rattle.bp_page.specs.Patched.{patched};

use crate::limits::Geometry;
use std::alloc::{AllocError, Global};
use std::marker::Model;

/// The bytes of one page, owned. Two images are equal where their bytes are.
#[derive(Debug, Drop)]
pub struct Image {
    // No box between: a read of the bytes follows one pointer.
    bytes: Vec<u8>,
}

impl Model for Image {
    ghost Value = { List ℕ };

    ghost view = { λ image. image.bytes.items };
}

impl PartialEq for Image {
    ghost eq = { bytes_eq };

    ghost laws = { Prim.search (comparing, rules) };

    fn eq(&self, other: &Image) -> bool {
        self.bytes == other.bytes
    }
}

impl Eq for Image {
    ghost laws = { Prim.search (comparing, rules) };
}

impl Image {
    /// Copies these bytes into an image. It fails by want of memory alone.
    pub fn of(alloc: Global, bytes: &[u8]) -> Result<Image, AllocError>
        ensures { IfOk result (λ image. image ≡ bytes.now) }
    {
        let bytes = Vec::from_slice(alloc, bytes)?;
        Ok(Image { bytes })
    }

    /// Makes an image of these bytes in place. It takes no memory.
    pub fn from_vec(bytes: Vec<u8>) -> Image
        ensures { result ≡ bytes.items }
    {
        Image { bytes }
    }

    /// Copies these bytes into the spare image where that has the same length, and else into new memory. It fails by
    /// want of memory alone.
    pub fn of_with(alloc: Global, spare: Option<Image>, bytes: &[u8]) -> Result<Image, AllocError>
        ensures { IfOk result (λ image. image ≡ bytes.now) }
    {
        match spare {
            Some(mut image) if image.bytes.len() == bytes.len() => {
                image.bytes.copy_from_slice(bytes);
                Ok(image)
            }
            _ => Image::of(alloc, bytes),
        }
    }

    /// Returns an image of zeros, of the page size. It fails by want of memory alone.
    pub fn blank(alloc: Global, geometry: &Geometry) -> Result<Image, AllocError>
        ensures { IfOk result (λ image. image ≡ replicate geometry.now.size 0) }
    {
        let bytes = vec![in alloc; 0; geometry.size]?;
        Ok(Image { bytes })
    }

    pub fn bytes(&self) -> &[u8]
        ensures { result.now ≡ self.now }
    {
        &self.bytes
    }

    /// Copies the bytes from the offset on, as many as `into` has. It takes no memory.
    pub fn copy_to(&self, offset: usize, into: &mut [u8])
        requires { offset + length into.old ≤ length self.now }
        ensures { into.new ≡ take (length into.old) (drop offset self.now) }
    {
        let rest = self.bytes.len() - offset;
        prove!(into.len() <= rest);
        let end = offset + into.len();
        into.copy_from_slice(&self.bytes[offset..end]);
    }

    /// Takes the bytes of another image of the same length. It takes no memory.
    pub fn copy_from(&mut self, other: &Image)
        requires { length self.old ≡ length other.now }
        ensures { self.new ≡ other.now }
    {
        self.bytes.copy_from_slice(&other.bytes);
    }

    /// Overwrites the bytes from the offset on with these. It takes no memory.
    pub fn patch(&mut self, offset: usize, bytes: &[u8])
        requires { offset + length bytes.now ≤ length self.old }
        ensures { self.new ≡ patched offset bytes.now self.old }
    {
        let rest = self.bytes.len() - offset;
        prove!(bytes.len() <= rest);
        let end = offset + bytes.len();
        self.bytes[offset..end].copy_from_slice(bytes);
    }

    /// Returns a copy in which these bytes stand from the offset on. It fails by want of memory alone.
    pub fn patched(&self, alloc: Global, offset: usize, bytes: &[u8]) -> Result<Image, AllocError>
        requires { offset + length bytes.now ≤ length self.now }
        ensures { IfOk result (λ image. image ≡ patched offset bytes.now self.now) }
    {
        let mut image = Image::of(alloc, &self.bytes)?;
        image.patch(offset, bytes);
        Ok(image)
    }
}

/// A list of bytes, owned. Two lists are equal where their bytes are.
#[derive(Debug, Drop)]
pub struct Bytes {
    // One word, so that an entry is small.
    bytes: Box<Vec<u8>>,
}

impl Model for Bytes {
    ghost Value = { List ℕ };

    ghost view = { λ list. list.bytes.value.items };
}

impl PartialEq for Bytes {
    ghost eq = { bytes_eq };

    ghost laws = { Prim.search (comparing, rules) };

    fn eq(&self, other: &Bytes) -> bool {
        self.bytes == other.bytes
    }
}

impl Eq for Bytes {
    ghost laws = { Prim.search (comparing, rules) };
}

impl Bytes {
    /// Copies these bytes into a list. It fails by want of memory alone.
    pub fn of(alloc: Global, bytes: &[u8]) -> Result<Bytes, AllocError>
        ensures { IfOk result (λ list. list ≡ bytes.now) }
    {
        let mut own = Vec::new(alloc);
        own.extend_from_slice(bytes)?;
        Ok(Bytes {
            bytes: Box::new(alloc, own)?,
        })
    }

    pub fn bytes(&self) -> &[u8]
        ensures { result.now ≡ self.now }
    {
        &self.bytes
    }
}
