//! Reading a page by its number, in one step with the fix and the unfix.
ghost use Rattle.std.specs.Prelude.{◌≡◌, ◌≢◌, ◌<◌, ◌+◌, ◌≤◌, false, length};
ghost use Rattle.bp_page.specs.declared.refusals.Refusal.TheVariants as Refusal;
ghost use Rattle.bp_core.specs.Outcomes.{ReadResidentOutcome};

use crate::config::FIX_OWES;
use crate::passes::PassNote;
use crate::pool::PoolCore;
use bp_keeper::Keeper;
use bp_page::{PageNo, Refusal};
use bp_trail::{Call, Grant, Reply};

impl<K: Keeper> PoolCore<K> {
    /// Copies bytes of a page that is in a frame, from the offset on, as many as `into` has. The page is fixed, read and
    /// unfixed: the trail gets the three entries, and the note of the pass is returned, which came back. `None` where the
    /// page is in no frame, which changes nothing.
    ///
    /// `TrailFull` where fewer than three entries are free; `OutOfMemory`, which a silent core never answers. Both change
    /// nothing.
    pub fn read_resident(
        &mut self,
        client: u8,
        page: PageNo,
        offset: u32,
        into: &mut [u8],
    ) -> Result<Option<PassNote>, Refusal>
        requires client_in { client < self.old.parameters.clients }
        requires page_in { page < self.old.parameters.pages }
        requires fits { offset + length into.old ≤ self.old.parameters.size }
        ensures outcome { ReadResidentOutcome self.old client page offset into.old result into.new
            self.new }
        ensures memory { K.REFUSES ≡ false → result ≢ Err Refusal.OutOfMemory }
    {
        if self.free() < FIX_OWES {
            return Err(Refusal::TrailFull);
        }
        let Some(slot) = self.state.frames.find(page) else {
            return Ok(None);
        };
        let image = &self.state.frames.frame(&slot).image;
        let Ok(spare) = K::spare_image(self.alloc, image) else {
            return Err(Refusal::OutOfMemory);
        };
        image.copy_to(offset as usize, into);
        let serial = self.state.passes_given;
        let pass = Grant {
            client,
            page,
            serial,
        };
        self.trail
            .record(client, Call::Fix(page), Reply::Hit(serial));
        self.trail.record_read(pass, image, spare);
        let unfix = Call::Unfix { pass: serial, page };
        self.trail.record(client, unfix, Reply::Done);
        let block = self.state.block(&slot);
        self.state.histories.hit_at(page, block, self.state.clock);
        self.state.end_use(&slot, self.config.settings.k);
        self.state.passes_given += 1;
        Ok(Some(PassNote::of(client, page, serial)))
    }
}
