//! What the shares in a frame show of each other, and of the keeper.
ghost use Rattle.std.specs.Prelude.{◌≡◌, ◌+◌, Some};
ghost use Rattle.bp_words.specs.Fields.{fields, some_of};

use crate::frames::{Frame, Keeper};
use crate::queues::Queue;
use crate::shares::{Pin, Reader, Writer};
use crate::views::{Compare, GiveOut, TakeIn, Tell};

impl Frame {
    /// The page that somebody pins is the one to which the keeper gave the frame. Nothing changes.
    pub fn page_pinned(&self, keeper: &mut Keeper, share: Pin) -> Pin
        requires keeper { keeper.old.frame ≡ self.now }
        requires share { share.frame ≡ self.now }
        ensures page { keeper.old.page ≡ Some share.page }
        ensures keeper { keeper.new ≡ keeper.old }
        ensures share { result ≡ share }
    {
        let Pin { seat } = share;
        let shared = &self.table.shared;
        shared.join_seat::<TakeIn>(&mut keeper.seat, seat);
        let _ = shared.load::<Compare>(&mut keeper.seat, 0);
        let seat = shared.split_seat::<GiveOut>(&mut keeper.seat);
        Pin { seat }
    }

    /// The page that somebody reads is the one to which the keeper gave the frame. Nothing changes.
    pub fn page_read(&self, keeper: &mut Keeper, share: Reader) -> Reader
        requires keeper { keeper.old.frame ≡ self.now }
        requires share { share.frame ≡ self.now }
        ensures page { keeper.old.page ≡ Some share.page }
        ensures keeper { keeper.new ≡ keeper.old }
        ensures share { result ≡ share }
    {
        let Reader { seat } = share;
        let shared = &self.table.shared;
        shared.join_seat::<TakeIn>(&mut keeper.seat, seat);
        let _ = shared.load::<Compare>(&mut keeper.seat, 0);
        let seat = shared.split_seat::<GiveOut>(&mut keeper.seat);
        Reader { seat }
    }

    /// The page that somebody writes is the one to which the keeper gave the frame. Nothing changes.
    pub fn page_written(&self, keeper: &mut Keeper, share: Writer) -> Writer
        requires keeper { keeper.old.frame ≡ self.now }
        requires share { share.frame ≡ self.now }
        ensures page { keeper.old.page ≡ Some share.page }
        ensures keeper { keeper.new ≡ keeper.old }
        ensures share { result ≡ share }
    {
        let Writer { seat } = share;
        let shared = &self.table.shared;
        shared.join_seat::<TakeIn>(&mut keeper.seat, seat);
        let _ = shared.load::<Compare>(&mut keeper.seat, 0);
        let seat = shared.split_seat::<GiveOut>(&mut keeper.seat);
        Writer { seat }
    }

    /// The word that is returned says that threads wait exactly if some do. Nothing changes.
    pub fn word_tells(&self, queue: &mut Queue) -> u64
        requires { queue.old.frame ≡ self.now }
        ensures told { (fields result).queued ≡ some_of (queue.old.waiting + queue.old.writers) }
        ensures queue { queue.new ≡ queue.old }
    {
        self.table.shared.load::<Tell>(&mut queue.seat, 0)
    }

    /// Nobody reads a page that somebody writes.
    pub fn never_beside(&self, writer: Writer, reader: Reader)
        requires writer { writer.frame ≡ self.now }
        requires reader { reader.frame ≡ self.now }
        ensures { ⊥ }
    {
        let Writer { mut seat } = writer;
        let Reader { seat: other } = reader;
        let shared = &self.table.shared;
        shared.join_seat::<TakeIn>(&mut seat, other);
        let _ = shared.load::<Compare>(&mut seat, 0);
    }

    /// Nobody writes a page that another writes.
    pub fn never_two(&self, writer: Writer, second: Writer)
        requires writer { writer.frame ≡ self.now }
        requires second { second.frame ≡ self.now }
        ensures { ⊥ }
    {
        let Writer { mut seat } = writer;
        let Writer { seat: other } = second;
        let shared = &self.table.shared;
        shared.join_seat::<TakeIn>(&mut seat, other);
        let _ = shared.load::<Compare>(&mut seat, 0);
    }
}
