//! The calls that read, write and unfix a page, by the plain numbers of its pass.
ghost use Rattle.std.specs.Prelude.{◌≡◌, IfSome, IfNone};
ghost use Rattle.bp_trail.specs.Images.{held as held_by};
ghost use Rattle.bp_trail.specs.Saved.{page_lsn};
ghost use Rattle.bp_core.specs.CoreView.{EachPast};
ghost use Rattle.bp_core.specs.Outcomes.{KnowsPass, LacksPass, UnfixOutcome};
ghost use Rattle.hojzmated_c.specs.Forms.{pass_of};
ghost use Rattle.hojzmated_c.specs.Outcomes.{ReadsPart, WritesPart};

use crate::forms::HzGrant;
use crate::pool::Pool;
use bp_core::Pass;
use bp_page::{Lsn, Refusal};

impl Pool {
    /// Copies a part of a pass's page. It is `OutOfPage` where the part is not within the page, or what the core
    /// refuses.
    pub(crate) fn read(
        &mut self,
        held: &HzGrant,
        offset: usize,
        into: &mut [u8],
    ) -> Result<(), Refusal>
        ensures { ReadsPart self.old held.now offset into.old result into.new self.new }
    {
        if !self.core.geometry().fits(offset, into.len()) {
            return Err(Refusal::OutOfPage);
        }
        let pass = held.pass();
        let read = self.core.read_into(&pass, offset as u32, into);
        pass.note();
        read
    }

    /// Returns the bytes of a pass's page, which the core lends, or None where the pass is not out here.
    pub(crate) fn page(&self, held: &HzGrant) -> Option<&[u8]>
        ensures known { IfSome result (λ bytes. KnowsPass self.now (pass_of held.now)) }
        ensures held { IfSome result (λ bytes. EachPast self.now
            (λ past. bytes.now ≡ held_by past held.now.page)) }
        ensures unknown { IfNone result (LacksPass self.now (pass_of held.now)) }
    {
        let pass = held.pass();
        let page = self.core.page(&pass);
        pass.note();
        page
    }

    /// Returns the page LSN of a pass's page, or None where the pass is not out here.
    pub(crate) fn page_lsn(&self, held: &HzGrant) -> Option<Lsn>
        ensures known { IfSome result (λ lsn. KnowsPass self.now (pass_of held.now)) }
        ensures lsn { IfSome result (λ lsn. EachPast self.now
            (λ past. lsn ≡ page_lsn past held.now.page)) }
        ensures unknown { IfNone result (LacksPass self.now (pass_of held.now)) }
    {
        let pass = held.pass();
        let lsn = self.core.page_lsn(&pass);
        pass.note();
        lsn
    }

    /// Writes bytes into a pass's page. It is `OutOfPage` where they are not within the page, or what the core refuses.
    pub(crate) fn write(
        &mut self,
        held: &HzGrant,
        offset: usize,
        from: &[u8],
        lsn: u64,
    ) -> Result<(), Refusal>
        ensures { WritesPart self.old held.now offset from.now lsn result self.new }
    {
        if !self.core.geometry().fits(offset, from.len()) {
            return Err(Refusal::OutOfPage);
        }
        let pass = held.pass();
        let written = self
            .core
            .write_from(&pass, offset as u32, from, Lsn::new(lsn));
        pass.note();
        written
    }

    /// Gives a pass back. Where it is not out here it is returned, and nothing changes.
    pub(crate) fn unfix(&mut self, held: &HzGrant) -> Result<(), Pass>
        ensures { UnfixOutcome self.old (pass_of held.now) result self.new }
    {
        self.core.unfix(held.pass())
    }
}
