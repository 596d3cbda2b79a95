//! `explain`, which prints the text of a refusal's number.
ghost use Rattle.std.specs.Prelude.{◌≡◌, ◌++◌, ◌∷◌, [], IfErr, OnOk};
ghost use Rattle.std.specs.Io.KnownBytes.{Appends};

use crate::endings::output_failed;
use bp_cli::{Ending, Stop};
use std::alloc::Global;
use std::io;
use std::io::Write;

fn print_line<W: Write>(text: &str, out: &mut W) -> io::Result<()>
    ensures { OnOk result (Appends (W.contents out.old) (W.contents out.new)
        (text.now ++ 10 ∷ [])) }
{
    writeln!(out, "{text}")?;
    out.flush()
}

pub(crate) fn explain<W: Write>(alloc: Global, text: &str, out: &mut W) -> Result<(), Stop>
    ensures written { OnOk result (Appends (W.contents out.old) (W.contents out.new)
        (text.now ++ 10 ∷ [])) }
    ensures fault { IfErr result (λ stop. stop.ending ≡ Ending.OutputFailed) }
{
    match print_line(text, out) {
        Ok(()) => Ok(()),
        Err(error) => Err(output_failed(alloc, error)),
    }
}
