//! `read_references`, which reads a list of references with one number a line.
ghost use Rattle.std.specs.Prelude.{◌≡◌, IfErr, IfOk, IfSome};
ghost use Rattle.std.specs.Io.BufRead.{DropsThrough, strip_last};
ghost use Rattle.bp_sweep.specs.Lines.{FindsLine, IsList};
ghost use Rattle.bp_sweep.specs.References.{IsOutside};

use crate::dense::{Gathered, MAX_REFERENCES, References};
use crate::faults::ReferenceFault;
use bp_trace::InputFault;
use bp_trace::decimal::parse_number;
use std::alloc::Global;
use std::io::{BufRead, ErrorKind};

/// Returns the bytes without this last byte, where they end with it.
fn without_last(bytes: &[u8], last: u8) -> &[u8]
    ensures { result.now ≡ strip_last last bytes.now }
{
    match bytes.split_last() {
        Some((found, before)) if *found == last => before,
        _ => bytes,
    }
}

/// Reads the next line, whose number is `line`, and returns what it says. It returns None at the end. `text` is a
/// buffer.
fn next_line<I: BufRead>(
    reader: &mut I,
    text: &mut Vec<u8>,
    line: u64,
) -> Result<Option<Result<u64, InputFault>>, ReferenceFault>
    ensures found { IfSome (I.remaining reader.old) (λ left. FindsLine left result) }
    ensures rest { IfOk result
        (λ _. DropsThrough (I.remaining reader.old) (I.remaining reader.new) 10) }
    ensures fault { IfErr result IsOutside }
{
    text.clear();
    match reader.read_until(b'\n', text) {
        Ok(0) => Ok(None),
        Ok(_) => {
            let number = parse_number(without_last(without_last(text, b'\n'), b'\r'));
            Ok(Some(number.ok_or(InputFault::BadNumber)))
        }
        Err(error) if error.kind() == ErrorKind::OutOfMemory => {
            Err(ReferenceFault::new(line, InputFault::OutOfMemory))
        }
        Err(_) => Err(ReferenceFault::new(line, InputFault::ReadFault)),
    }
}

/// Reads a list of references with one number a line, in decimal digits alone, up to 2^62. A line ends with `\n`,
/// `\r\n` or the end of the input. It is read line by line, and takes four bytes of memory a reference and a map of the
/// different numbers. An empty list has no references.
///
/// The first line that is no number is `BadNumber`, the one with the 1,048,577th different number `TooManyPages`, and
/// the one after 268,435,456 references `TooLong`, whatever it says. A fault of the reader is `ReadFault`, and refused
/// memory `OutOfMemory`. After a fault the reader may be anywhere in the list.
pub fn read_references<I: BufRead>(
    alloc: Global,
    reader: &mut I,
) -> Result<References, ReferenceFault>
    ensures { IfSome (I.remaining reader.old) (IsList result) }
{
    let mut text = Vec::new(alloc);
    let mut gathered = Gathered::new(alloc);
    for line in 1..MAX_REFERENCES as u64 + 2 {
        match next_line(reader, &mut text, line)? {
            None => return Ok(gathered.into_references()),
            Some(said) => gathered.add(line, said)?,
        }
    }
    unreachable!()
}
