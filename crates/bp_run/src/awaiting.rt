//! `Awaiting`, a reader that tells the user of a terminal that standard input is read.
ghost use Rattle.std.specs.Prelude.{◌≡◌};

use std::io;
use std::io::{Read, Write};

/// A reader that writes a note before its first read. It reads what its input reads.
#[derive(Drop)]
pub struct Awaiting<I: Read, E: Write> {
    input: I,
    /// The output of the note, until the note is written.
    note: Option<E>,
}

impl<I: Read, E: Write + Drop> Awaiting<I, E> {
    /// Makes a reader over an input. Without an output it writes no note.
    pub fn new(input: I, note: Option<E>) -> Awaiting<I, E>
        ensures { ⟦<Awaiting<I, E> as Read>⟧.remaining result ≡ I.remaining input }
    {
        Awaiting { input, note }
    }
}

impl<I: Read, E: Write + Drop> Read for Awaiting<I, E> {
    ghost remaining = { λ awaiting. I.remaining awaiting.input };

    // A fault of the output is ignored.
    fn read(&mut self, buf: &mut [u8]) -> io::Result<usize> {
        if let Some(mut note) = self.note.take() {
            let _ = writeln!(
                note,
                "standard input is read, a line at a time; control-D ends it"
            );
            let _ = note.flush();
        }
        self.input.read(buf)
    }
}
