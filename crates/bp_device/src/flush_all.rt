//! `drive_flush_all`: writes out each unsaved page of a core that has one owner.
ghost use Rattle.std.specs.Prelude.{◌≡◌, ◌<◌, IfErr};
ghost use Rattle.bp_trail.specs.declared.entries.Call.TheVariants as call;
ghost use Rattle.bp_core.specs.Work.{DoesWork};
ghost use Rattle.bp_device.specs.Drivers.{IsCaused};
ghost use Rattle.bp_device.specs.FlushAll.{FlushesAll};

use crate::drivers::drive_flush;
use bp_core::{Keeper, NotFlushed, PoolCore};
use bp_ports::Port;
use std::sync::Wait;

/// Writes each unsaved page out, over a core that nobody else uses, in the order of the file. After Ok no page of the
/// file is unsaved.
///
/// It ends at the first page whose flush is refused, as `drive_flush` is, and names it. That page is then unsaved
/// still, the pages before it are saved, and the pages after it are as they were. A later call begins again at page 0.
pub fn drive_flush_all<K: Keeper, P: Port, R: Wait>(
    rt: &R,
    core: &mut PoolCore<K>,
    port: &mut P,
    client: u8,
) -> Result<(), NotFlushed>
    requires client_in { client < core.old.parameters.clients }
    ensures outcome { FlushesAll client core.old result core.new }
    ensures cause { IfErr result (λ stop. IsCaused (call.Flush stop.page) stop.why core.new) }
    ensures work { DoesWork P.read_gives P.write_gives core.old port.old core.new port.new }
    ensures geometry { P.geometry_of port.new ≡ P.geometry_of port.old }
    ensures parameters { core.new.parameters ≡ core.old.parameters }
{
    let pages = core.geometry().pages;
    let mut from = 0;
    while let Some(page) = core.next_unsaved(from) {
        let number = page.number();
        prove!(number < pages);
        match drive_flush(rt, core, port, client, page) {
            Ok(_) => {}
            Err(why) => return Err(NotFlushed { page, why }),
        }
        core.keeps_the_rules();
        from = number + 1;
    }
    Ok(())
}
