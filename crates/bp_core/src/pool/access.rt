//! Reading, writing and giving back a page by its pass.
ghost use Rattle.std.specs.Prelude.{◌≡◌, ◌≢◌, ◌+◌, ◌≤◌, false, length, IfOk, IfNone, IfSome};
ghost use Rattle.bp_trail.specs.Images.{held};
ghost use Rattle.bp_core.specs.CoreView.{EachPast};
ghost use Rattle.bp_core.specs.Outcomes.{KnowsPass, LacksPass, ReadOutcome, ReadIntoOutcome};
ghost use Rattle.bp_core.specs.Outcomes.{WriteOutcome, UnfixOutcome};

use crate::config::STEP_OWES;
use crate::passes::Pass;
use crate::pool::PoolCore;
use bp_keeper::Keeper;
use bp_page::{Bytes, Image, Lsn, Refusal};
use bp_trail::{Call, Grant, Reply};

impl<K: Keeper> PoolCore<K> {
    /// Lends the image of the page of a pass as it is now. It copies nothing and adds no entry. `None` where the pass
    /// is not out here.
    pub fn image(&self, pass: &Pass) -> Option<&Image>
        ensures known { IfSome result (λ image. KnowsPass self.now pass.now) }
        ensures held { IfSome result (λ image. EachPast self.now
            (λ past. image.now ≡ held past pass.now.page)) }
        ensures size { IfSome result (λ image. length image.now ≡ self.now.parameters.size) }
        ensures unknown { IfNone result (LacksPass self.now pass.now) }
    {
        if !self.knows(pass) {
            return None;
        }
        let slot = self.state.frames.find(pass.page).unwrap();
        Some(&self.state.frames.frame(&slot).image)
    }

    /// Lends the bytes of the page of a pass, as `image` does.
    pub fn page(&self, pass: &Pass) -> Option<&[u8]>
        ensures known { IfSome result (λ bytes. KnowsPass self.now pass.now) }
        ensures held { IfSome result (λ bytes. EachPast self.now
            (λ past. bytes.now ≡ held past pass.now.page)) }
        ensures size { IfSome result (λ bytes. length bytes.now ≡ self.now.parameters.size) }
        ensures unknown { IfNone result (LacksPass self.now pass.now) }
    {
        match self.image(pass) {
            Some(image) => Some(image.bytes()),
            None => None,
        }
    }

    /// Copies bytes of the page of a pass, from the offset on, as many as `into` has, and adds the entry of a read.
    /// Refused as `read` is, which changes nothing; a silent core takes no memory.
    pub fn read_into(&mut self, pass: &Pass, offset: u32, into: &mut [u8]) -> Result<(), Refusal>
        requires fits { offset + length into.old ≤ self.old.parameters.size }
        ensures outcome { ReadIntoOutcome self.old pass.now offset into.old result into.new
            self.new }
        ensures memory { K.REFUSES ≡ false → result ≢ Err Refusal.OutOfMemory }
    {
        if self.free() < STEP_OWES {
            return Err(Refusal::TrailFull);
        }
        if !self.knows(pass) {
            return Err(Refusal::UnknownPass);
        }
        let slot = self.state.frames.find(pass.page).unwrap();
        let image = &self.state.frames.frame(&slot).image;
        let spare = K::spare_image(self.alloc, image)?;
        image.copy_to(offset as usize, into);
        self.trail.record_read(pass.grant(), image, spare);
        Ok(())
    }

    /// Returns a copy of the image of the page of a pass. `TrailFull` where no entry is free, else `UnknownPass` where
    /// the pass is not out here, else `OutOfMemory`; all three change nothing.
    pub fn read(&mut self, pass: &Pass) -> Result<Image, Refusal>
        ensures outcome { ReadOutcome self.old pass.now result self.new }
        ensures size { IfOk result (λ image. length image ≡ self.old.parameters.size) }
    {
        if self.free() < STEP_OWES {
            return Err(Refusal::TrailFull);
        }
        let Some(lent) = self.image(pass) else {
            return Err(Refusal::UnknownPass);
        };
        let image = Image::of(self.alloc, lent.bytes())?;
        let spare = K::spare_image(self.alloc, &image)?;
        self.trail.record_read(pass.grant(), &image, spare);
        Ok(image)
    }

    /// Writes bytes into the page of a pass, from the offset on, and raises the page LSN to `lsn` if that is greater.
    /// `TrailFull`, `UnknownPass` and `OutOfMemory` as from `read`.
    pub fn write(
        &mut self,
        pass: &Pass,
        offset: u32,
        bytes: &Bytes,
        lsn: Lsn,
    ) -> Result<(), Refusal>
        requires fits { offset + length bytes.now ≤ self.old.parameters.size }
        ensures outcome { WriteOutcome self.old pass.now offset bytes.now lsn result self.new }
        ensures memory { K.REFUSES ≡ false → result ≢ Err Refusal.OutOfMemory }
    {
        self.write_from(pass, offset, bytes.bytes(), lsn)
    }

    /// Writes as `write` does, from bytes that the caller lends. A silent core takes no memory.
    pub fn write_from(
        &mut self,
        pass: &Pass,
        offset: u32,
        bytes: &[u8],
        lsn: Lsn,
    ) -> Result<(), Refusal>
        requires fits { offset + length bytes.now ≤ self.old.parameters.size }
        ensures outcome { WriteOutcome self.old pass.now offset bytes.now lsn result self.new }
        ensures memory { K.REFUSES ≡ false → result ≢ Err Refusal.OutOfMemory }
    {
        if self.free() < STEP_OWES {
            return Err(Refusal::TrailFull);
        }
        if !self.knows(pass) {
            return Err(Refusal::UnknownPass);
        }
        let spare = K::spare_bytes(self.alloc, bytes)?;
        let slot = self.state.frames.find(pass.page).unwrap();
        self.state.frames.write(&slot, offset as usize, bytes, lsn);
        self.trail
            .record_write(pass.grant(), offset, bytes, lsn, spare);
        Ok(())
    }

    /// Gives a pass back, by which its page has one pin fewer. A pass that is not out here comes back as `Err`, which
    /// stands for `UnknownPass`, and nothing changes.
    pub fn unfix(&mut self, pass: Pass) -> Result<(), Pass>
        ensures outcome { UnfixOutcome self.old pass result self.new }
    {
        if !self
            .state
            .passes
            .take_back(pass.client, pass.page, pass.serial)
        {
            return Err(pass);
        }
        let Pass {
            client,
            page,
            serial,
        } = pass;
        let slot = self.state.frames.find(page).unwrap();
        self.state.frames.unpin(&slot);
        self.state.end_use(&slot, self.config.settings.k);
        let call = Call::Unfix { pass: serial, page };
        self.trail.record(client, call, Reply::Done);
        Ok(())
    }
}
