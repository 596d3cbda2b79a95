//! `collect`: joins what the clients left once all threads have ended. Nothing is looked at: what the headline says of it
//! is proved.
ghost use Rattle.std.specs.Prelude.{◌≡◌, OnOk, OnErr, Err, [], ◌∷◌, ◌++◌, All};
ghost use Rattle.std.specs.Prelude.{map, reverse};
ghost use Rattle.bp_page.specs.declared.refusals.Refusal.TheVariants as Refusal;
ghost use Rattle.bp_replay.specs.Scripts.{lists};
ghost use Rattle.bp_replay.specs.Players.{left_value, Collected};

use crate::player::ScriptPlayer;
use bp_core::Entry;
use bp_page::Refusal;
use bp_ports::Port;
use bp_scripts::Refused;
use bp_workers::Left;

/// Adds refused rows. The room for them was reserved before.
fn append(all: &mut Vec<Refused>, more: &[Refused]) -> Result<(), Refusal>
    ensures items { OnOk result (all.new.items ≡ all.old.items ++ more.now) }
    ensures memory { OnErr result (result ≡ Err Refusal.OutOfMemory) }
{
    all.extend_from_slice(more)?;
    Ok(())
}

/// Adds what one client left.
fn add_left<P: Port>(
    left: Left<P, ScriptPlayer>,
    said: &mut Vec<Vec<Entry>>,
    refused: &mut Vec<Refused>,
    ports: &mut Vec<P>,
) -> Result<(), Refusal>
    requires uncut { left.book.before ≡ [] }
    ensures said { OnOk result (lists said.new.items ≡ lists said.old.items ++
        reverse left.book.said ∷ []) }
    ensures refused { OnOk result (refused.new.items ≡ refused.old.items ++ left.worker.refused) }
    ensures ports { OnOk result (ports.new.items ≡ ports.old.items ++ left.port ∷ []) }
    ensures memory { OnErr result (result ≡ Err Refusal.OutOfMemory) }
{
    let Left {
        worker,
        port,
        book,
        held: _,
        all_went_back: _,
    } = left;
    // The worker goes by a call, before the exits: what an exit drops is proved there, field by field.
    let entries = book.into_said();
    let appended = append(refused, worker.refused());
    drop(worker);
    if ports.push(port).is_err() || said.push(entries).is_err() {
        return Err(Refusal::OutOfMemory);
    }
    appended
}

/// Adds what the clients left, one after the other.
pub(crate) fn collect<P: Port>(
    left: Vec<Left<P, ScriptPlayer>>,
    said: &mut Vec<Vec<Entry>>,
    refused: &mut Vec<Refused>,
    ports: &mut Vec<P>,
) -> Result<(), Refusal>
    requires uncut { All (λ one. one.book.before ≡ []) left.items }
    requires empty { (said.old.items ≡ []) × (refused.old.items ≡ []) × (ports.old.items ≡ []) }
    ensures collected { OnOk result (Collected (map left_value left.items) (lists said.new.items)
        refused.new.items ports.new.items) }
    ensures memory { OnErr result (result ≡ Err Refusal.OutOfMemory) }
{
    for one in left {
        add_left(one, said, refused, ports)?;
    }
    Ok(())
}
