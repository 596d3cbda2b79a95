//! The two formats of a page file, and the bytes of a page's slot in each.
ghost use Rattle.std.specs.Prelude.{◌≡◌, ◌≢◌, ◌+◌, ◌<◌, ◌≤◌, ◌^◌, ◌++◌, ◌↔◌, ℕ, List, length, drop, IfOk, IfErr, OnErr};
ghost use Rattle.byteorder.specs.Endian.{little_number, little_bytes};
ghost use Rattle.bp_page.specs.Slots.{raw_slot, headed_slot, page_in, slot_size};

use crate::images::Image;
use crate::numbers::{Lsn, PageNo};
use crate::refusals::{PortFault, Refusal};
use byteorder::{ByteOrder, LittleEndian};
use std::alloc::Global;

/// The bytes before the image in a slot of version 2.
pub const HEADER: usize = 16;

/// The format of the slots of a file, which stand one after the other.
#[derive(Clone, Copy)]
pub enum Format {
    /// Version 1: a page's bytes.
    Plain,
    /// Version 2: a page's number, its page LSN, and then its bytes.
    Headed,
}

impl Format {
    /// Returns the bytes of a slot, for pages of this size.
    pub fn slot_size(self, size: usize) -> usize
        requires { size ≤ 65536 }
        ensures { result ≡ slot_size self size }
    {
        match self {
            Format::Plain => size,
            Format::Headed => HEADER + size,
        }
    }
}

/// Returns the slot of an image in a page file of version 1. `OutOfMemory` where there is no memory for it.
pub fn slot(alloc: Global, image: &Image) -> Result<Vec<u8>, Refusal>
    ensures bytes { IfOk result (λ slot. slot.items ≡ raw_slot image.now) }
    ensures memory { OnErr result (result ≡ Err Refusal.OutOfMemory) }
{
    Ok(Vec::from_slice(alloc, image.bytes())?)
}

/// Returns the image in a slot of version 1. `Memory` where there is no memory for it.
pub fn unslot(alloc: Global, slot: &[u8]) -> Result<Image, PortFault>
    ensures image { IfOk result (λ image. slot.now ≡ raw_slot image) }
    ensures memory { OnErr result (result ≡ Err PortFault.Memory) }
{
    match Image::of(alloc, slot) {
        Ok(image) => Ok(image),
        Err(_) => Err(PortFault::Memory),
    }
}

/// The header: the page number and the page LSN, 8 bytes each, little-endian.
fn header_of(page: PageNo, lsn: Lsn) -> [u8; HEADER]
    ensures { result ≡ little_bytes 8 page ++ little_bytes 8 lsn }
{
    let mut header = [0u8; HEADER];
    LittleEndian::write_u64(&mut header, page.number());
    LittleEndian::write_u64(&mut header[8..], lsn.number());
    header
}

/// Returns the slot of a page in a page file of version 2: the header, then the image. `OutOfMemory` where there is no
/// memory for it.
#[tactic(auto, unfolding(crate::specs::Slots::headed_slot))]
pub fn slot2(alloc: Global, page: PageNo, lsn: Lsn, image: &Image) -> Result<Vec<u8>, Refusal>
    ensures bytes { IfOk result (λ slot. slot.items ≡ headed_slot page lsn image.now) }
    ensures memory { OnErr result (result ≡ Err Refusal.OutOfMemory) }
{
    let header = header_of(page, lsn);
    let mut slot = Vec::from_slice(alloc, &header)?;
    slot.extend_from_slice(image.bytes())?;
    Ok(slot)
}

/// Overwrites a slot with the bytes that `slot2` gives. It takes no memory.
#[tactic(auto, unfolding(crate::specs::Slots::headed_slot))]
pub fn fill_slot2(slot: &mut [u8], page: PageNo, lsn: Lsn, image: &Image)
    requires { length slot.old ≡ 16 + length image.now }
    ensures { slot.new ≡ headed_slot page lsn image.now }
{
    LittleEndian::write_u64(slot, page.number());
    LittleEndian::write_u64(&mut slot[8..], lsn.number());
    slot[HEADER..].copy_from_slice(image.bytes());
}

fn numbers_in(slot: &[u8]) -> (PageNo, Lsn)
    requires { 16 ≤ length slot.now }
    ensures page { result.0 ≡ page_in slot.now }
    ensures lsn { result.1 ≡ little_number 8 (drop 8 slot.now) }
{
    let page = LittleEndian::read_u64(slot);
    let lsn = LittleEndian::read_u64(&slot[8..]);
    (PageNo::new(page), Lsn::new(lsn))
}

/// Returns the page LSN and the image in a slot of version 2, of 16 bytes or more. `WrongPage` where the slot has the
/// number of another page, and `Memory` where there is no memory for the image.
pub fn unslot2(alloc: Global, page: PageNo, slot: &[u8]) -> Result<(Lsn, Image), PortFault>
    requires { 16 ≤ length slot.now }
    // `WrongPage` comes exactly where the slot has another page's number.
    ensures wrong { (result ≡ Err PortFault.WrongPage) ↔ (page_in slot.now ≢ page) }
    ensures memory { IfErr result (λ fault. fault ≢ PortFault.WrongPage →
        fault ≡ PortFault.Memory) }
    ensures found { IfOk result (λ found. slot.now ≡ headed_slot page found.0 found.1) }
    ensures size { IfOk result (λ found. length slot.now ≡ 16 + length found.1) }
    // What `slot2` wrote is read back.
    ensures written { (lsn : ℕ) (image : List ℕ) → lsn < 2 ^ 64 →
        slot.now ≡ headed_slot page lsn image
        → IfOk result (λ found. (found.0 ≡ lsn) × (found.1 ≡ image)) ×
        OnErr result (result ≡ Err PortFault.Memory) }
{
    let (found, lsn) = numbers_in(slot);
    if found.number() != page.number() {
        return Err(PortFault::WrongPage);
    }
    let (_, bytes) = slot.split_at(HEADER);
    match Image::of(alloc, bytes) {
        Ok(image) => Ok((lsn, image)),
        Err(_) => Err(PortFault::Memory),
    }
}
