//! `Ports`, by which a run opens page files and traces and saves pictures.
use bp_cli::Reason;
use bp_page::{Format, Geometry};
use bp_ports::{OpenFault, Port};
use std::fs::TryLockError;
use std::io;
use std::io::Read;
use std::marker::Send;
use std::rt::Files;

/// Opens the page files and the traces that the words name, and saves pictures. The word of a page file is `mem:N`,
/// which is N pages of zeros in memory, or a path. Traces, lists of references and pictures are at paths.
///
/// The relations `ways` say what each call gave. The contracts of runs are stated by them, so only these calls can meet
/// those.
pub trait Ports<R: Files> {
    type F: Drop;

    /// A port of one client.
    type P: Port + Send;

    type T: Read + Drop;

    ghost use Rattle.std.specs.Prelude.{◌≡◌, Bool, All, IfErr, IfOk, vec_len};
    ghost use Rattle.std.specs.Result.{is_ok};
    ghost use Rattle.bp_page.specs.Limits.{IsGeometry};
    ghost use Rattle.bp_run.specs.PageFile.{IsNamed, IsOpenFault, memory_named};
    ghost use Rattle.bp_run.specs.Ways.{Ways};

    // What calls gave, and what holds of an open page file.
    ghost ways: { Ways Self.F Self.P Self.T };
    // Whether somebody watches.
    ghost watched: { Self → Bool };

    /// Opens a page file whose pages have `size` bytes. A file at a path has this format; pages in memory have none.
    ///
    /// It is `Refused(BadGeometry)` where a word names pages in memory, and their number or size is out of its limits;
    /// `Refused(BadLength)` or `Port(Device)` only for a path; and `Refused(OutOfMemory)` or `Port(Memory)` where
    /// memory is refused.
    fn open(
        &mut self,
        rt: &R,
        word: &str,
        size: usize,
        format: Format,
    ) -> Result<Self::F, OpenFault>
        requires size { IsGeometry 1 size }
        ensures gave { ways.opens word.now size format result }
        ensures named { IfOk result (λ file. IsNamed word.now size format
            (ways.memory file) (ways.geometry file) (ways.headed file)) }
        ensures refused { IfErr result (λ fault. IsOpenFault (memory_named word.now) size fault) };

    fn geometry(&self, file: &Self::F) -> Geometry
        ensures { result ≡ ways.geometry file.now };

    /// Returns so many ports to an open page file, one for each client, all to the same pages.
    ///
    /// A page file at a path is opened again for each port after the first, and fails as `open` does. It fails too
    /// where its length has changed.
    fn connect(&mut self, rt: &R, file: Self::F, clients: usize) -> Result<Vec<Self::P>, OpenFault>
        ensures gave { ways.connects file clients result }
        ensures count { IfOk result (λ ports. vec_len ports ≡ clients) }
        ensures alike { IfOk result (λ ports. All (λ p.
            Self.P.geometry_of p ≡ ways.geometry file) ports.items) }
        ensures headed { IfOk result (λ ports. All (λ p.
            Self.P.is_headed p ≡ ways.headed file) ports.items) }
        ensures refused { IfErr result (λ fault.
            IsOpenFault (ways.memory file) (ways.geometry file).size fault) };

    /// Opens the trace at a path. It returns None where that fails.
    fn trace(&mut self, rt: &R, path: &str) -> Option<Self::T>
        ensures { ways.traces path.now result };

    /// Writes the bytes of a picture into the file at a path, which is made or overwritten.
    ///
    /// Where that fails, the file may hold a part of them, or be unchanged. It fails where the path leads to the file
    /// that `trace` opened last, which is then unchanged.
    fn save(&mut self, rt: &R, path: &str, bytes: &[u8]) -> io::Result<()>
        ensures { ways.saves path.now bytes.now (is_ok result) };

    /// Locks an open file until it is closed. `WouldBlock` where another open file of it is locked, and `Error` where
    /// the system has no locks.
    fn try_lock(&self, file: &R::File) -> Result<(), TryLockError>;

    /// Returns why the last call of these that failed did so, and forgets it.
    fn reason(&mut self) -> Reason;

    /// Returns true if the progress of a migration or a sweep is to be shown on the error output.
    fn is_watched(&self) -> bool
        ensures { result ≡ watched self.now };
}
