//! Gives back the passes that a script's clients hold.
ghost use Rattle.std.specs.Prelude.{IfNone, IfSome, All, Any, List, true, not, ◌==◌, filter};
ghost use Rattle.std.specs.Prelude.{◌≡◌, ◌≤◌, []};
ghost use Rattle.bp_trail.specs.declared.entries.Call.TheVariants as Call;
ghost use Rattle.bp_trail.specs.declared.entries.Reply.TheVariants as Reply;
ghost use Rattle.bp_trail.specs.Event.{Grant};
ghost use Rattle.bp_trail.specs.Passes.{passes_out};
ghost use Rattle.bp_trail.specs.Legal.{is_out};
ghost use Rattle.bp_core.specs.CoreView.{EachPast, with_entry};
ghost use Rattle.bp_replay.specs.Rows.{EndsIn, SerialsDiffer, GoingBack, GaveBack};

use bp_core::{Keeper, PassNote, PoolCore};

fn is_taken_by(note: &PassNote, client: u8) -> bool
    ensures { result ≡ (note.now.client == client) }
{
    note.client() == client
}

/// Gives the pass back. Its note stays.
pub(crate) fn unfix_note<K: Keeper>(core: &mut PoolCore<K>, note: PassNote)
    requires known { EachPast core.old (λ past. is_out note (passes_out past) ≡ true) }
    ensures entry { core.new ≡ with_entry core.old note.client
        (Call.Unfix note.serial note.page) Reply.Done }
{
    match core.unfix(note.pass()) {
        Ok(()) => {}
        Err(_pass) => unreachable!(),
    }
}

/// A lemma, which does nothing: no two of the passes that a core's newest entries leave out have one serial number.
pub(crate) fn serials_differ<K: Keeper>(core: &PoolCore<K>)
    ensures { (held : List Grant) → EndsIn core.now held → SerialsDiffer held }
{
    // A core's trail is legal, and a legal trail gives no number twice.
    core.keeps_the_rules();
}

/// Returns the lowest client that holds a pass.
fn lowest_client(held: &[PassNote]) -> Option<u8>
    ensures none { IfNone result (held.now ≡ []) }
    ensures least { IfSome result (λ lowest. All (λ g. lowest ≤ g.client) held.now) }
    ensures taken { IfSome result (λ lowest. Any (λ g. g.client ≡ lowest) held.now) }
{
    held.iter().map(|note| note.client()).min()
}

/// Gives back the passes that this client holds, in the order taken, where no lower client holds any. Their notes stay.
fn unfix_all_of<K: Keeper>(core: &mut PoolCore<K>, held: &[PassNote], client: u8)
    requires ends_in { EndsIn core.old held.now }
    requires least { All (λ g. client ≤ g.client) held.now }
    ensures outcome { GoingBack core.old held.now (filter
        (λ g. not (g.client == client)) held.now) core.new }
{
    serials_differ(core);
    for note in held {
        if is_taken_by(note, client) {
            unfix_note(core, *note);
        }
    }
}

/// Gives back all passes that are held: client by client, from the lowest, in the order taken.
pub(crate) fn unfix_all<K: Keeper>(core: &mut PoolCore<K>, held: &mut Vec<PassNote>)
    requires ends_in { EndsIn core.old held.old.items }
    ensures outcome { GaveBack core.old held.old.items core.new }
{
    while let Some(client) = lowest_client(held) {
        unfix_all_of(core, held, client);
        held.retain(|note| !is_taken_by(note, client));
    }
}
