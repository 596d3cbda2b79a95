//! `Event`: one event that a client asks of a core, as a value. Whoever holds a lock, and makes events under it, does so
//! once for all of them.
ghost use Rattle.std.specs.Prelude.{◌≡◌, ◌≤◌, ◌<◌, ◌+◌, IfErr};
ghost use Rattle.bp_trail.specs.Clock.{durable};
ghost use Rattle.bp_page.specs.declared.refusals.Refusal.TheVariants as Refusal;

use crate::book::{Book, Room};
use crate::pending::{Fix, Flush};
use bp_core::{Call, PoolCore, Reply};
use bp_keeper::ListKeeper;
use bp_mark::{Mark, Reader};
use bp_page::{PageNo, Refusal};
use bp_trail::Discarded;

/// One event of a client: what it asks of the core, what the core may answer, and what the client's list gets.
pub trait Event<K: ListKeeper>: Drop {
    ghost use Rattle.std.specs.Prelude.{ℕ, Result, Err};
    ghost use Rattle.bp_page.specs.declared.refusals.Refusal.{Refusal as Why};
    ghost use Rattle.bp_trail.specs.Parameters.{Parameters};
    ghost use Rattle.bp_trail.specs.Trail.{Trail};
    ghost use Rattle.bp_core.specs.CoreView.{CoreView};
    ghost use Rattle.bp_session_log.specs.declared.book.Room.{Room as RoomValue};
    ghost use Rattle.bp_session_log.specs.Events.{Makes, Suffices};

    type Answer;

    /// This client may ask it of a core with these parameters.
    ghost may: { Self → ℕ → Parameters → Type 0 };

    /// The room that the client's list is to have for it, beside what it owes.
    ghost wants: { Self → RoomValue };

    /// What the core does, asked by this client, with this answer; the greatest LSN that its reader has seen then.
    ghost does: { Self → ℕ → ℕ → Result Self.Answer Why → CoreView → CoreView → Type 0 };

    /// What this client's list gets by this answer.
    ghost says: { Self → ℕ → Result Self.Answer Why → Trail → Trail → Type 0 };

    /// How much of its room for passes it takes by this answer, and of its places for copies.
    ghost passes: { Result Self.Answer Why → ℕ };

    ghost places: { Result Self.Answer Why → ℕ };

    /// What this refusal of the core says of the trail.
    ghost cause: { Self → Why → Parameters → Trail → Type 0 };

    fn room(&self) -> Room
        ensures { result ≡ wants self.now };

    /// Asks the core. The trail and the list get the same entries.
    fn ask(
        self,
        book: &mut Book<K>,
        core: &mut PoolCore<K>,
        reader: &mut Reader,
        mark: &Mark,
    ) -> Result<Self::Answer, Refusal>
        requires may { may self book.old.client core.old.parameters }
        requires client_in { book.old.client < core.old.parameters.clients }
        requires size { book.old.size ≡ core.old.parameters.size }
        requires room { Suffices (wants self) book.old.entries book.old.passes book.old.copies }
        requires mark { reader.old.mark ≡ mark.now }
        requires seen { durable core.old.past ≤ reader.old.seen }
        ensures mark { reader.new.mark ≡ reader.old.mark }
        ensures seen { durable core.new.past ≤ reader.new.seen }
        ensures makes { Makes core.old book.old core.new book.new }
        ensures asked { does self book.old.client reader.new.seen result core.old core.new }
        ensures outcome { says self book.old.client result book.old.said book.new.said }
        ensures passes { book.old.passes ≤ book.new.passes + passes result }
        ensures places { book.old.places ≤ book.new.places + places result }
        ensures why { IfErr result (λ why. cause self why core.new.parameters core.new.past) };

    /// Where there is no memory to ask, the list gets nothing.
    ghost unasked: { (event : Self) (client : ℕ) (said : Trail)
        → says event client (Err Refusal.OutOfMemory) said said };
}

/// So many ticks of the clock.
#[derive(Drop)]
pub struct Tick(pub u64);

impl<K: ListKeeper> Event<K> for Tick {
    ghost use Rattle.std.specs.Prelude.{refl};
    ghost use Rattle.bp_core.specs.Outcomes.{TickOutcome};
    ghost use Rattle.bp_session_log.specs.Events.{TickCause, for_one_entry};
    ghost use Rattle.bp_session_log.specs.Turns.{TickSaid};

    type Answer = ();

    ghost may = { λ event client c. Unit {0} };

    ghost wants = { λ event. for_one_entry };

    ghost does = { λ event client seen answer old new. TickOutcome old client event.0 answer new };

    ghost says = { λ event client answer said after. TickSaid client event.0 answer said after };

    ghost passes = { λ answer. 0 };

    ghost places = { λ answer. 0 };

    ghost cause = { λ event why c past. TickCause event.0 why c past };

    fn room(&self) -> Room {
        Room::ENTRY
    }

    /// `TrailFull` and `ClockFull` add no entry.
    fn ask(
        self,
        book: &mut Book<K>,
        core: &mut PoolCore<K>,
        _reader: &mut Reader,
        _mark: &Mark,
    ) -> Result<(), Refusal> {
        core.tick(book.client(), self.0)?;
        book.tell(Call::Tick(self.0), Reply::Done);
        Ok(())
    }

    ghost unasked = { λ event client said. refl };
}

/// Forgets old references, and answers the number of their pages.
#[derive(Drop)]
pub struct Purge;

impl<K: ListKeeper> Event<K> for Purge {
    ghost use Rattle.std.specs.Prelude.{refl};
    ghost use Rattle.bp_core.specs.Outcomes.{PurgeOutcome};
    ghost use Rattle.bp_session_log.specs.Events.{PurgeCause, for_one_entry};
    ghost use Rattle.bp_session_log.specs.Turns.{PurgeSaid};

    type Answer = u64;

    ghost may = { λ event client c. Unit {0} };

    ghost wants = { λ event. for_one_entry };

    ghost does = { λ event client seen answer old new. PurgeOutcome old client answer new };

    ghost says = { λ event client answer said after. PurgeSaid client answer said after };

    ghost passes = { λ answer. 0 };

    ghost places = { λ answer. 0 };

    ghost cause = { λ event why c past. PurgeCause why c past };

    fn room(&self) -> Room {
        Room::ENTRY
    }

    /// `TrailFull` adds no entry.
    fn ask(
        self,
        book: &mut Book<K>,
        core: &mut PoolCore<K>,
        _reader: &mut Reader,
        _mark: &Mark,
    ) -> Result<u64, Refusal> {
        let forgotten = core.purge(book.client())?;
        book.tell(Call::Purge, Reply::Forgot(forgotten));
        Ok(forgotten)
    }

    ghost unasked = { λ event client said. refl };
}

/// Asks that a page leave its frame unwritten.
#[derive(Drop)]
pub struct Discard(pub PageNo);

impl<K: ListKeeper> Event<K> for Discard {
    ghost use Rattle.std.specs.Prelude.{refl, ◌<◌};
    ghost use Rattle.bp_core.specs.Outcomes.{DiscardOutcome};
    ghost use Rattle.bp_session_log.specs.Events.{DiscardCause, for_one_entry};
    ghost use Rattle.bp_session_log.specs.Turns.{DiscardTurn};

    type Answer = Discarded;

    ghost may = { λ event client c. event.0 < c.pages };

    ghost wants = { λ event. for_one_entry };

    ghost does = { λ event client seen answer old new.
        DiscardOutcome old client event.0 answer new };

    ghost says = { λ event client answer said after. DiscardTurn client event.0 answer said after };

    ghost passes = { λ answer. 0 };

    ghost places = { λ answer. 0 };

    ghost cause = { λ event why c past. DiscardCause why c past };

    fn room(&self) -> Room {
        Room::ENTRY
    }

    /// `Busy` and `Pinned` are the reply of the entry; `TrailFull` adds none.
    fn ask(
        self,
        book: &mut Book<K>,
        core: &mut PoolCore<K>,
        _reader: &mut Reader,
        _mark: &Mark,
    ) -> Result<Discarded, Refusal> {
        match core.discard(book.client(), self.0) {
            Ok(how) => {
                book.tell(Call::Discard(self.0), how.reply());
                Ok(how)
            }
            Err(refusal) => {
                book.tell_refused(Call::Discard(self.0), &refusal);
                Err(refusal)
            }
        }
    }

    ghost unasked = { λ event client said. (refl, refl) };
}

/// Asks for a page, after one look at the mark.
#[derive(Drop)]
pub struct AskFix(pub PageNo);

impl<K: ListKeeper> Event<K> for AskFix {
    ghost use Rattle.std.specs.Prelude.{refl, ◌<◌};
    ghost use Rattle.std.proofs.Common.{inl};
    ghost use Rattle.bp_session_log.specs.Causes.{FixStep};
    ghost use Rattle.bp_session_log.specs.Events.{FixCause, for_fix};
    ghost use Rattle.bp_session_log.specs.Turns.{FixTurn, passes_taken, places_taken};

    type Answer = Fix;

    ghost may = { λ event client c. event.0 < c.pages };

    ghost wants = { λ event. for_fix };

    ghost does = { λ event client seen answer old new.
        FixStep client event.0 seen answer old new };

    ghost says = { λ event client answer said after. FixTurn client event.0 answer said after };

    ghost passes = { λ answer. passes_taken answer };

    ghost places = { λ answer. places_taken answer };

    ghost cause = { λ event why c past. FixCause event.0 why c past };

    fn room(&self) -> Room {
        Room::with_passes(2)
    }

    /// `NoVictim`, `NeedLog` and `Busy` are the reply of the entry; `TrailFull` and `OutOfMemory` add none, and the first
    /// may come from the look.
    #[inline(always)]
    fn ask(
        self,
        book: &mut Book<K>,
        core: &mut PoolCore<K>,
        reader: &mut Reader,
        mark: &Mark,
    ) -> Result<Fix, Refusal> {
        book.look(core, reader, mark)?;
        book.ask_fix(core, self.0)
    }

    ghost unasked = { λ event client said.
        record { marked = said; marks = inl refl; asks = (refl, refl) } };
}

/// Asks that a page be written out, after one look at the mark.
#[derive(Drop)]
pub struct AskFlush(pub PageNo);

impl<K: ListKeeper> Event<K> for AskFlush {
    ghost use Rattle.std.specs.Prelude.{refl, ◌<◌};
    ghost use Rattle.std.proofs.Common.{inl};
    ghost use Rattle.bp_session_log.specs.Causes.{FlushStep};
    ghost use Rattle.bp_session_log.specs.Events.{FlushCause, for_flush};
    ghost use Rattle.bp_session_log.specs.Turns.{FlushTurn, tickets_taken};

    type Answer = Flush;

    ghost may = { λ event client c. event.0 < c.pages };

    ghost wants = { λ event. for_flush };

    ghost does = { λ event client seen answer old new.
        FlushStep client event.0 seen answer old new };

    ghost says = { λ event client answer said after. FlushTurn client event.0 answer said after };

    ghost passes = { λ answer. tickets_taken answer };

    ghost places = { λ answer. tickets_taken answer };

    ghost cause = { λ event why c past. FlushCause event.0 why c past };

    fn room(&self) -> Room {
        Room::with_passes(1)
    }

    /// `NeedLog` and `Busy` are the reply of the entry; `TrailFull` and `OutOfMemory` add none, and the first
    /// may come from the look.
    #[inline(always)]
    fn ask(
        self,
        book: &mut Book<K>,
        core: &mut PoolCore<K>,
        reader: &mut Reader,
        mark: &Mark,
    ) -> Result<Flush, Refusal> {
        book.look(core, reader, mark)?;
        book.ask_flush(core, self.0)
    }

    ghost unasked = { λ event client said.
        record { marked = said; marks = inl refl; asks = (refl, refl) } };
}
