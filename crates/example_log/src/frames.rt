//! The records of a log as bytes: each stands in a frame, after its length, its LSN and a checksum.
ghost use Rattle.std.specs.Prelude.{◌≡◌, ◌++◌, ◌≤◌, ◌<◌, ◌+◌, ◌^◌, length, IfSome, IfNone, OnOk, OnErr};
ghost use Rattle.example_log.specs.Frames.{number, checksum as checksum_is, frame, IsRecord, NoFrame};

use std::alloc::{AllocError, Global};

/// A prime, by which each sum is multiplied.
const FACTOR: u64 = 1_099_511_628_211;

/// Returns the checksum of a record.
#[tactic(auto, unfolding(crate::specs::Frames::checksum))]
fn checksum(lsn: u64, payload: &[u8]) -> u64
    ensures { result ≡ checksum_is lsn payload.now }
{
    let mut sum = lsn;
    for byte in payload {
        sum = sum.wrapping_mul(FACTOR).wrapping_add(u64::from(*byte));
    }
    sum
}

/// Splits the number that stands at the front of bytes from the rest. `None` where they are less than 8.
pub fn split_number(bytes: &[u8]) -> Option<(u64, &[u8])>
    ensures some { IfSome result (λ x. bytes.now ≡ number x.0 ++ x.1.now) }
    ensures range { IfSome result (λ x. x.0 < 2 ^ 64) }
    ensures none { IfNone result (length bytes.now < 8) }
{
    if bytes.len() < 8 {
        return None;
    }
    let (b, rest) = bytes.split_at(8);
    let number = u64::from_le_bytes([b[0], b[1], b[2], b[3], b[4], b[5], b[6], b[7]]);
    Some((number, rest))
}

/// A record, and the bytes behind its frame.
#[derive(Clone, Copy)]
pub struct Framed<'a> {
    pub lsn: u64,
    pub payload: &'a [u8],
    pub rest: &'a [u8],
}

/// Reads the record at the front of these bytes. `None` where it is cut off or has a wrong checksum.
pub fn read_frame(bytes: &[u8]) -> Option<Framed>
    ensures some { IfSome result (λ f. bytes.now ≡ frame f.lsn f.payload.now ++ f.rest.now) }
    ensures range { IfSome result (λ f. IsRecord f.lsn f.payload.now) }
    ensures none { IfNone result (NoFrame bytes.now) }
{
    let Some((length, rest)) = split_number(bytes) else {
        return None;
    };
    let Some((lsn, rest)) = split_number(rest) else {
        return None;
    };
    let Some((sum, rest)) = split_number(rest) else {
        return None;
    };
    if lsn == 0 {
        return None;
    }
    if (rest.len() as u64) < length {
        return None;
    }
    let (payload, rest) = rest.split_at(length as usize);
    if checksum(lsn, payload) != sum {
        return None;
    }
    Some(Framed { lsn, payload, rest })
}

/// Puts the frame of a record at the end of `into`.
pub fn put_frame(into: &mut Vec<u8>, lsn: u64, payload: &[u8]) -> Result<(), AllocError>
    ensures { OnOk result (into.new.items ≡ into.old.items ++ frame lsn payload.now) }
{
    into.extend_from_slice(&(payload.len() as u64).to_le_bytes())?;
    into.extend_from_slice(&lsn.to_le_bytes())?;
    into.extend_from_slice(&checksum(lsn, payload).to_le_bytes())?;
    into.extend_from_slice(payload)?;
    Ok(())
}
