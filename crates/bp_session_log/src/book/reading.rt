//! A page that is in a frame is fixed, read and unfixed at once.
ghost use Rattle.std.specs.Prelude.{◌≡◌, ◌≢◌, ◌≤◌, ◌<◌, ◌+◌, false, length, None};
ghost use Rattle.bp_core.specs.Outcomes.{ReadResidentOutcome};
ghost use Rattle.bp_session_log.specs.Books.{AddsPiece};
ghost use Rattle.bp_session_log.specs.Turns.{ReadResidentTurn, and_read};

use super::Book;
use bp_core::{Call, PassNote, PoolCore, Reply};
use bp_keeper::ListKeeper;
use bp_page::{Image, PageNo, Refusal};

impl<K: ListKeeper> Book<K> {
    /// Copies bytes of a page that is in a frame, from the offset on, as many as `into` has. The trail and the list get
    /// the fix, the read and the unfix, and the note of the pass is returned, which came back. `None` where the page is
    /// in no frame; `TrailFull`, and `OutOfMemory`, which a silent core never answers. All three add no entry, and leave
    /// the bytes that were there.
    #[inline(always)]
    pub fn ask_read_resident(
        &mut self,
        core: &mut PoolCore<K>,
        page: PageNo,
        offset: u32,
        into: &mut [u8],
    ) -> Result<Option<PassNote>, Refusal>
        requires client_in { self.old.client < core.old.parameters.clients }
        requires page_in { page < core.old.parameters.pages }
        requires size { self.old.size ≡ core.old.parameters.size }
        requires fits { offset + length into.old ≤ core.old.parameters.size }
        requires entries { 3 ≤ self.old.entries }
        requires copies { 1 ≤ self.old.copies }
        ensures adds { AddsPiece core.old self.old core.new self.new }
        ensures asked { ReadResidentOutcome core.old self.old.client page offset into.old result
            into.new core.new }
        ensures outcome { ReadResidentTurn self.old.client page offset into.old result into.new
            self.old.said self.new.said }
        ensures passes { self.old.passes ≤ self.new.passes }
        ensures stays { result ≡ Ok None → self.new ≡ self.old }
        ensures places { self.new.places ≡ self.old.places }
        ensures memory { K.REFUSES ≡ false → result ≢ Err Refusal.OutOfMemory }
    {
        let Some(note) = core.read_resident(self.client, page, offset, into)? else {
            return Ok(None);
        };
        let image = core.resident_image(page).unwrap();
        self.tell_look(page, note.serial(), image);
        Ok(Some(note))
    }

    /// Adds the entries of a page that is fixed, read and unfixed at once. The pass is not among those held in between.
    fn tell_look(&mut self, page: PageNo, serial: u64, image: &Image)
        requires size { length image.now ≡ self.old.size }
        requires entries { 3 ≤ self.old.entries }
        requires copies { 1 ≤ self.old.copies }
        ensures client { self.new.client ≡ self.old.client }
        ensures size { self.new.size ≡ self.old.size }
        ensures before { self.new.before ≡ self.old.before }
        ensures said { self.new.said
            ≡ and_read self.old.client page serial image.now self.old.said }
        ensures passes { self.old.passes ≤ self.new.passes }
        ensures places { self.new.places ≡ self.old.places }
    {
        let copy = self.copy_of(image);
        let pass = self.grant(page, serial);
        self.said
            .record(self.client, Call::Fix(page), Reply::Hit(serial));
        self.said.record_read(pass, image, copy);
        let unfix = Call::Unfix { pass: serial, page };
        self.said.record(self.client, unfix, Reply::Done);
        self.held.pass_by(serial);
    }
}
