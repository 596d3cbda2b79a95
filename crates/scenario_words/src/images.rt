//! Images as words: `zeros`, or pairs of hex digits, where `..` at the end stands for zeros up to the end of the page.

use bp_page::{Bytes, Image};
use std::alloc::Global;
use std::fmt;

/// Parses pairs of hex digits.
pub(crate) fn bytes_of(alloc: Global, word: &str) -> Option<Bytes> {
    let decoded = hex::decode(alloc, word).ok()?;
    Bytes::of(alloc, decoded.as_slice()).ok()
}

/// Parses the word of an image, and returns its bytes before the zeros at its end.
pub(crate) fn front_of(alloc: Global, word: &str) -> Option<Bytes> {
    if word == "zeros" {
        return Bytes::of(alloc, &[]).ok();
    }
    match word.strip_suffix("..") {
        Some(digits) => bytes_of(alloc, digits),
        None => bytes_of(alloc, word),
    }
}

/// Returns an image that begins with these bytes and has zeros after them, or None where they are too many.
pub fn filled(alloc: Global, size: usize, front: &Bytes) -> Option<Image> {
    let mut bytes = Vec::new(alloc);
    bytes.extend_from_slice(front.bytes()).ok()?;
    if bytes.len() > size {
        return None;
    }
    bytes.resize(size, 0).ok()?;
    Image::of(alloc, bytes.as_slice()).ok()
}

/// Returns the number of bytes before the zeros at the end.
fn before_zeros(bytes: &[u8]) -> usize {
    let mut count = 0;
    for (i, byte) in bytes.iter().enumerate() {
        if *byte != 0 {
            count = i.saturating_add(1);
        }
    }
    count
}

/// Writes the first of these bytes as pairs of hex digits.
pub(crate) fn write_bytes<W: fmt::Write>(
    bytes: &[u8],
    count: usize,
    f: &mut fmt::Formatter<W>,
) -> fmt::Result {
    for byte in bytes.iter().take(count) {
        write!(f, "{byte:02x}")?;
    }
    Ok(())
}

pub(crate) fn write_image<W: fmt::Write>(image: &Image, f: &mut fmt::Formatter<W>) -> fmt::Result {
    let bytes = image.bytes();
    let count = before_zeros(bytes);
    if count == 0 {
        return write!(f, "zeros");
    }
    write_bytes(bytes, count, f)?;
    if count < bytes.len() {
        write!(f, "..")?;
    }
    Ok(())
}
