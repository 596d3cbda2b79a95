//! `Fields`, the six fields of a record as text, and the calls that parse one field.
ghost use Rattle.std.specs.Prelude.{◌≡◌, option_map};
ghost use Rattle.csv.specs.Records.{fields_of};
ghost use Rattle.bp_trace.specs.Fields.{Gives, bytes_wanted, client_in, number_wanted, page_in, six_of, texts_of};

use crate::decimal::parse_number;
use crate::faults::InputFault;
use bp_page::{Bytes, Geometry, PageNo};
use csv::ByteRecord;
use hex::FromHexError;
use std::alloc::Global;

const MAX_CLIENT: u64 = 63;

/// The six fields of a record, not yet checked. Each comment says what a valid field holds where it is not empty.
#[derive(Clone, Copy)]
pub struct Fields<'a> {
    /// The client's number, 0 to 63 in decimal.
    pub client: &'a [u8],
    /// The word of the operation, in lower case.
    pub op: &'a [u8],
    /// The page's number, the number of ticks or the LSN of the log, in decimal.
    pub number: &'a [u8],
    /// The offset of a write in its page, in bytes, in decimal.
    pub offset: &'a [u8],
    /// The bytes of a write, as pairs of hex digits.
    pub bytes: &'a [u8],
    pub lsn: &'a [u8],
}

/// Returns the six fields of a record, or None where it does not have exactly six.
pub fn six_fields(raw: &ByteRecord) -> Option<Fields<'_>>
    ensures { option_map texts_of result ≡ six_of (fields_of raw.now) }
{
    if raw.get(6).is_some() {
        return None;
    }
    Some(Fields {
        client: raw.get(0)?,
        op: raw.get(1)?,
        number: raw.get(2)?,
        offset: raw.get(3)?,
        bytes: raw.get(4)?,
        lsn: raw.get(5)?,
    })
}

/// Parses the number of a client. Anything else is `BadClient`.
pub fn parse_client(text: &[u8]) -> Result<u8, InputFault>
    ensures { result ≡ client_in text.now }
{
    match parse_number(text) {
        Some(client) if client <= MAX_CLIENT => Ok(client as u8),
        _ => Err(InputFault::BadClient),
    }
}

/// Parses a number that the operation needs. Anything else is `BadNumber`.
pub fn wanted_number(text: &[u8]) -> Result<u64, InputFault>
    ensures { result ≡ number_wanted text.now }
{
    parse_number(text).ok_or(InputFault::BadNumber)
}

/// Parses the number of a page that the operation needs. It is `BadNumber` where it is no number, and `OutOfPage` where
/// the file has no such page.
#[tactic(auto, unfolding(crate::specs::Fields::page_in))]
pub fn wanted_page(geometry: &Geometry, text: &[u8]) -> Result<PageNo, InputFault>
    ensures { result ≡ page_in geometry.now text.now }
{
    let number = wanted_number(text)?;
    geometry.page(number).ok_or(InputFault::OutOfPage)
}

/// Parses bytes as pairs of hex digits of either case. Anything else is `BadHex`; it is `OutOfMemory` where memory is
/// refused.
pub fn wanted_bytes(alloc: Global, text: &[u8]) -> Result<Bytes, InputFault>
    ensures { Gives result (bytes_wanted text.now) }
{
    let decoded = match hex::decode(alloc, text) {
        Ok(decoded) => decoded,
        Err(FromHexError::OutOfMemory) => return Err(InputFault::OutOfMemory),
        Err(_) => return Err(InputFault::BadHex),
    };
    Ok(Bytes::of(alloc, decoded.as_slice())?)
}
