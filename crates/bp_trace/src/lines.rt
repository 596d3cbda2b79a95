//! The lines of a report: one for an eviction, a discard, a write-out or a read, and one for a refused row.
ghost use Rattle.std.specs.Prelude.{◌≡◌, ◌≤◌, length, OnOk};
ghost use Rattle.std.specs.Io.KnownBytes.{Appends};
ghost use Rattle.hex.specs.Hex.{encode_lower};
ghost use Rattle.bp_trail.specs.Event.{page_of};
ghost use Rattle.bp_trace.specs.Lines.{event_line, read_line, refused_line};

use bp_scripts::Refused;
use bp_trail::{Call, Entry, Reply};
use std::io;
use std::io::Write;

/// A report shows at most this many bytes of an image.
pub(crate) const SHOWN: usize = 16;

/// Returns the number of the page that a call names, or 0 where it names none.
pub(crate) fn page_of(call: &Call) -> u64
    ensures { result ≡ page_of call.now }
{
    match call {
        Call::Fix(page)
        | Call::ReadEnd { page, .. }
        | Call::WriteEnd { page, .. }
        | Call::Read { page, .. }
        | Call::Write { page, .. }
        | Call::Unfix { page, .. }
        | Call::Flush(page)
        | Call::Discard(page) => page.number(),
        Call::Tick(_) | Call::Mark(_) | Call::Purge => 0,
    }
}

fn write_hex<W: Write>(bytes: &[u8], writer: &mut W) -> io::Result<()>
    requires { length bytes.now ≤ SHOWN }
    ensures { OnOk result (Appends (W.contents writer.old) (W.contents writer.new)
        (encode_lower bytes.now)) }
{
    let mut digits = [0; 2 * SHOWN];
    let text = &mut digits[..2 * bytes.len()];
    hex::encode_to_slice(bytes, text).unwrap();
    writer.write_all(text)
}

/// Writes the line of a read: the client, the page and the first 16 bytes of its image.
pub(crate) fn write_read<W: Write>(
    client: u8,
    page: u64,
    image: &[u8],
    writer: &mut W,
) -> io::Result<()>
    ensures { OnOk result (Appends (W.contents writer.old) (W.contents writer.new)
        (read_line client page image.now)) }
{
    let (shown, _) = image.split_at(image.len().min(SHOWN));
    write!(writer, "read {client} {page} ")?;
    write_hex(shown, writer)?;
    writeln!(writer)
}

/// Writes the line of an entry at its time, or nothing where it has no line. A fault of the writer is passed on.
pub fn write_event<W: Write>(time: u128, entry: &Entry, writer: &mut W) -> io::Result<()>
    ensures { OnOk result (Appends (W.contents writer.old) (W.contents writer.new)
        (event_line time entry.now)) }
{
    let page = page_of(&entry.call);
    match &entry.reply {
        Reply::Load {
            evicted: Some(victim),
            ..
        } => {
            let victim = victim.number();
            writeln!(writer, "evict {time} {victim}")
        }
        Reply::Discarded => writeln!(writer, "discard {time} {page}"),
        Reply::Cleaned | Reply::StillDirty => writeln!(writer, "out {time} {page}"),
        Reply::Content(image) => write_read(entry.client, page, image.bytes(), writer),
        _ => Ok(()),
    }
}

pub fn write_refused<W: Write>(refused: &Refused, writer: &mut W) -> io::Result<()>
    ensures { OnOk result (Appends (W.contents writer.old) (W.contents writer.new)
        (refused_line refused.now)) }
{
    let row = refused.row;
    let number = refused.number;
    writeln!(writer, "row {row} refused {number}")
}
