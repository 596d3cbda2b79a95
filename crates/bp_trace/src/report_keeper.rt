//! `ReportKeeper`: a keeper that has of the entries what their report shows, and the list of them in proofs alone.
ghost use Rattle.std.specs.Prelude.{reverse, OnOk};
ghost use Rattle.std.specs.Io.KnownBytes.{Appends};
ghost use Rattle.bp_trace.specs.Report.{report_text};
ghost use Rattle.bp_trace.specs.Totals.{totals_text};
ghost use Rattle.bp_trail.specs.Totals.{totals_of};

use crate::printing::ReportLines;
use crate::total_lines::write_totals;
use bp_keeper::{GhostImage, Keeper, SilentKeeper};
use bp_page::{Image, Lsn};
use bp_trail::{Call, Grant, Reply, Totals};
use std::alloc::{AllocError, Global};
use std::io;
use std::io::Write;
use std::marker::Model;

/// The lines of the report of the entries, and the counts of the replies. Of an image it has no more than its line
/// shows. The room for as many lines as entries is taken at the start.
#[derive(Drop)]
pub struct ReportKeeper {
    counts: SilentKeeper,
    lines: ReportLines,
}

impl Model for ReportKeeper {
    ghost use Rattle.std.specs.Prelude.{◌≤◌, vec_capacity, vec_len};
    ghost use Rattle.bp_keeper.specs.Kept.{Kept, with_capacity};
    ghost use Rattle.bp_trace.specs.KeptLines.{HasLines};

    ghost Value = { Kept };

    ghost view = { λ t. with_capacity t.counts (vec_capacity t.lines.lines) };

    ghost invariant = { λ t. HasLines t.counts.past t.lines × (vec_len t.lines.lines ≤ t.counts.len)
        × (vec_capacity t.lines.lines ≤ t.counts.capacity) };
}

impl Keeper for ReportKeeper {
    ghost use Rattle.std.specs.Prelude.{◌≡◌, ◌^◌, true};
    ghost use Rattle.std.proofs.Common.{arith};

    type SpareImage = GhostImage;

    type SpareBytes = ();

    ghost MOST_ROOM = { 16777216 };

    const MOST_ROOM: usize = 16777216;

    ghost REFUSES = { true };

    ghost kept = { λ t. t };

    ghost serves_image = { λ spare image. spare.bytes ≡ image };

    ghost serves_bytes = { λ spare bytes. Unit {0} };

    ghost few = { omega arith };

    fn with_capacity(alloc: Global, room: usize) -> Result<Self, AllocError> {
        let lines = ReportLines::with_capacity(alloc, room)?;
        let counts = SilentKeeper::with_capacity(alloc, room)?;
        Ok(ReportKeeper { counts, lines })
    }

    fn spare_image(alloc: Global, image: &Image) -> Result<GhostImage, AllocError> {
        SilentKeeper::spare_image(alloc, image)
    }

    fn spare_bytes(alloc: Global, bytes: &[u8]) -> Result<(), AllocError> {
        SilentKeeper::spare_bytes(alloc, bytes)
    }

    fn len(&self) -> usize {
        self.counts.len()
    }

    fn totals(&self) -> Totals {
        self.counts.totals()
    }

    fn record(&mut self, client: u8, call: Call, reply: Reply) {
        self.lines.add(client, &call, &reply);
        self.counts.record(client, call, reply);
    }

    fn record_read(&mut self, pass: Grant, image: &Image, spare: GhostImage) {
        self.lines.add_read(pass.client, pass.page, image);
        self.counts.record_read(pass, image, spare);
    }

    fn record_write(&mut self, pass: Grant, offset: u32, bytes: &[u8], lsn: Lsn, spare: ()) {
        self.counts.record_write(pass, offset, bytes, lsn, spare);
    }

    fn record_read_end(
        &mut self,
        ticket: Grant,
        pass: u64,
        image: &Image,
        left: Image,
    ) -> Option<Image> {
        self.counts.record_read_end(ticket, pass, image, left)
    }

    fn record_begin(&mut self, call: Call, ticket: Grant, image: &Image, spare: GhostImage) {
        self.lines.skip(&call);
        self.counts.record_begin(call, ticket, image, spare);
    }
}

impl ReportKeeper {
    ghost use Rattle.std.specs.Prelude.{◌<◌, ◌^◌, length, if◌then◌else◌};
    ghost use Rattle.bp_trail.specs.Clock.{clock};

    /// Writes the report of the entries, of which there are fewer than 2^64, as are the ticks; or only its totals.
    ///
    /// A fault of the writer is passed on; the writer may then hold any part of the report.
    pub fn report<W: Write>(&self, totals: bool, writer: &mut W) -> io::Result<()>
        requires few { length self.now.past < 2 ^ 64 }
        requires in_time { clock self.now.past < 2 ^ 64 }
        ensures { OnOk result (Appends (W.contents writer.old) (W.contents writer.new)
            (if totals then totals_text (totals_of (reverse self.now.past))
            else report_text (reverse self.now.past))) }
    {
        if !totals {
            self.lines.write(writer)?;
        }
        write_totals(&self.counts.totals(), writer)
    }
}
