//! The calls that end reads and write-outs, by the plain numbers of their tickets.
ghost use Rattle.std.specs.Prelude.{◌≡◌};
ghost use Rattle.hojzmated_c.specs.Forms.{fault_of, write_of};
ghost use Rattle.hojzmated_c.specs.Outcomes.{EndsRead, EndsWrite, FailsRead};

use crate::forms::HzGrant;
use crate::pool::Pool;
use bp_core::{EndRefusal, Ended};
use bp_page::{Image, PortFault, Refusal};
use bp_trail::Grant;

/// Returns the fault of a read that failed.
fn fault(is_wrong_page: bool) -> PortFault
    ensures { result ≡ fault_of is_wrong_page }
{
    if is_wrong_page {
        PortFault::WrongPage
    } else {
        PortFault::Device
    }
}

/// Returns the result of a write.
fn written(is_good: bool) -> Result<(), PortFault>
    ensures { result ≡ write_of is_good }
{
    if is_good {
        Ok(())
    } else {
        Err(PortFault::Device)
    }
}

impl Pool {
    /// Ends a read that went well, and returns the pass. It is `OutOfPage` where the image does not have the page size,
    /// then `UnknownTicket`, then `OutOfMemory`; all three change nothing.
    pub(crate) fn read_end(&mut self, held: &HzGrant, image: &[u8]) -> Result<HzGrant, Refusal>
        ensures { EndsRead self.old held.now image.now result self.new }
    {
        if image.len() != self.core.geometry().size {
            return Err(Refusal::OutOfPage);
        }
        if !self.core.knows_read(held.grant()) {
            return Err(Refusal::UnknownTicket);
        }
        let own = Image::of_with(self.alloc, self.spare.take(), image)?;
        match self
            .core
            .read_end_by(held.grant(), Ok(own), &mut self.spare)
        {
            Ok(pass) => Ok(HzGrant::of(pass.note())),
            Err(EndRefusal::Unknown(_, _)) => Err(Refusal::UnknownTicket),
            Err(EndRefusal::Failed(why)) => Err(why),
        }
    }

    /// Ends a read that failed, and returns the number of `WrongPage` or `ReadFailed`, or of `UnknownTicket`, which
    /// changes nothing.
    pub(crate) fn read_failed(&mut self, held: &HzGrant, is_wrong_page: bool) -> u16
        ensures { FailsRead self.old held.now (fault_of is_wrong_page) result self.new }
    {
        let found = Err(fault(is_wrong_page));
        match self.core.read_end_by(held.grant(), found, &mut None) {
            Err(EndRefusal::Failed(why)) => why.number(),
            Err(EndRefusal::Unknown(_, _)) => Refusal::UnknownTicket.number(),
            Ok(_pass) => unreachable!(),
        }
    }

    pub(crate) fn write_end(
        &mut self,
        held: &HzGrant,
        is_good: bool,
    ) -> Result<Ended, EndRefusal<Grant, Result<(), PortFault>>>
        ensures { EndsWrite self.old held.now is_good result self.new }
    {
        self.core.write_end_by(held.grant(), written(is_good))
    }
}
