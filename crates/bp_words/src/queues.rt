//! `Queue`: the threads that wait for the latch of a frame's page.
ghost use Rattle.std.specs.Prelude.{◌≡◌, ◌+◌, ◌-◌, ◌<◌, IsTrue, IsSome, IsNone, IsOk, IsErr, IfErr, IfSome};

use crate::frames::{Frame, Visitor};
use crate::shares::{Pin, Reader, Writer};
use crate::views::{
    Find, FindRoom, Flag, Hand, HandOne, LetIn, LetWriterIn, Part, PartLatch, TakePin, TakeWaiter,
    Token, WaitToRead, WaitToWrite,
};
use crate::word::{READER, WRITER, Word};
use std::marker::Model;

/// The threads that wait for the latch of a frame's page, and the readers that were let in and have not gone on. There
/// is exactly one for each frame: who has its mutex has it. The word says whether threads wait in it.
#[derive(Drop)]
pub struct Queue {
    pub(crate) seat: Token,
    /// So many wait for a shared latch, and for the exclusive one, and so many readers were let in.
    pub(crate) waiting: u64,
    pub(crate) writers: u64,
    pub(crate) granted: u64,
}

impl Model for Queue {
    ghost use Rattle.std.specs.Prelude.{◌≡◌, []};
    ghost use Rattle.bp_words.specs.Shares.{QueueValue};
    ghost use Rattle.bp_words.specs.Views.{queue};

    ghost Value = { QueueValue };

    ghost view = { λ q. record {
      frame = q.seat.table_id;
      waiting = q.waiting;
      writers = q.writers;
      granted = q.granted;
    } };

    ghost invariant = { λ q. q.seat.me
        ≡ (queue q.waiting q.writers q.granted 0 0 q.seat.me.0.page, []) };
}

impl Queue {
    /// Takes a thread in that is to wait for a shared latch, with its pin, if that latch is not free.
    pub fn try_wait_to_read(
        &mut self,
        frame: &Frame,
        visitor: Visitor,
        pin: Pin,
    ) -> Result<(), (Visitor, Pin)>
        requires queue { self.old.frame ≡ frame.now }
        requires visitor { visitor.frame ≡ frame.now }
        requires pin { pin.frame ≡ frame.now }
        requires fits { self.old.waiting < 18446744073709551615 }
        ensures waits { IsOk result
            → self.new ≡ record self.old { waiting = self.old.waiting + 1 } }
        ensures not { IsErr result → self.new ≡ self.old }
        ensures back { IfErr result (λ back. back.0 ≡ visitor × back.1 ≡ pin) }
    {
        let Visitor { mut seat } = visitor;
        let Pin { seat: other } = pin;
        let shared = &frame.table.shared;
        shared.join_seat::<TakePin>(&mut seat, other);
        shared.join_seat::<TakeWaiter>(&mut self.seat, seat);
        let seen = shared.load::<Find>(&mut self.seat, 0);
        let Some(next) = Word(seen).with_queue(READER) else {
            let mut seat = shared.split_seat::<HandOne>(&mut self.seat);
            let pin = shared.split_seat::<Part>(&mut seat);
            return Err((Visitor { seat }, Pin { seat: pin }));
        };
        let found = shared.compare_exchange::<WaitToRead>(&mut self.seat, 0, seen, next);
        if found != seen {
            let mut seat = shared.split_seat::<HandOne>(&mut self.seat);
            let pin = shared.split_seat::<Part>(&mut seat);
            return Err((Visitor { seat }, Pin { seat: pin }));
        }
        self.waiting += 1;
        Ok(())
    }
}

impl Queue {
    /// Takes a thread in that is to wait for the exclusive latch, with its pin, if that latch is not free.
    pub fn try_wait_to_write(
        &mut self,
        frame: &Frame,
        visitor: Visitor,
        pin: Pin,
    ) -> Result<(), (Visitor, Pin)>
        requires queue { self.old.frame ≡ frame.now }
        requires visitor { visitor.frame ≡ frame.now }
        requires pin { pin.frame ≡ frame.now }
        requires fits { self.old.writers < 18446744073709551615 }
        ensures waits { IsOk result
            → self.new ≡ record self.old { writers = self.old.writers + 1 } }
        ensures not { IsErr result → self.new ≡ self.old }
        ensures back { IfErr result (λ back. back.0 ≡ visitor × back.1 ≡ pin) }
    {
        let Visitor { mut seat } = visitor;
        let Pin { seat: other } = pin;
        let shared = &frame.table.shared;
        shared.join_seat::<TakePin>(&mut seat, other);
        shared.join_seat::<TakeWaiter>(&mut self.seat, seat);
        let seen = shared.load::<Find>(&mut self.seat, 0);
        let Some(next) = Word(seen).with_queue(WRITER) else {
            let mut seat = shared.split_seat::<HandOne>(&mut self.seat);
            let pin = shared.split_seat::<Part>(&mut seat);
            return Err((Visitor { seat }, Pin { seat: pin }));
        };
        let found = shared.compare_exchange::<WaitToWrite>(&mut self.seat, 0, seen, next);
        if found != seen {
            let mut seat = shared.split_seat::<HandOne>(&mut self.seat);
            let pin = shared.split_seat::<Part>(&mut seat);
            return Err((Visitor { seat }, Pin { seat: pin }));
        }
        self.writers += 1;
        Ok(())
    }
}

impl Queue {
    /// Lets all in that wait for a shared latch, if nobody writes.
    pub fn try_let_readers_in(&mut self, frame: &Frame) -> bool
        requires frame { self.old.frame ≡ frame.now }
        requires fits { self.old.waiting + self.old.granted < 18446744073709551616 }
        ensures had { IsTrue result
            → self.new ≡ record self.old {
              waiting = 0;
              granted = self.old.waiting + self.old.granted;
            } }
        ensures not { ¬ (IsTrue result) → self.new ≡ self.old }
    {
        let shared = &frame.table.shared;
        let is_last = self.writers == 0;
        let seen = shared.load::<FindRoom>(&mut self.seat, 0);
        match Word(seen).with_readers(self.waiting, is_last) {
            Some(next) => {
                let found = shared.compare_exchange::<LetIn>(&mut self.seat, 0, seen, next);
                if found != seen {
                    return false;
                }
                self.granted = self.waiting + self.granted;
                self.waiting = 0;
                true
            }
            None => false,
        }
    }

    /// Lets one reader that was let in go on, with its latch, its pin and its right to come.
    pub fn hand(&mut self, frame: &Frame) -> Option<(Reader, Pin, Visitor)>
        requires frame { self.old.frame ≡ frame.now }
        ensures some { 0 < self.old.granted → IsSome result }
        ensures had { IsSome result
            → 0 < self.old.granted
            × self.new ≡ record self.old { granted = self.old.granted - 1 } }
        ensures none { IsNone result → self.new ≡ self.old }
        ensures shares { IfSome result (λ it.
            it.0.frame ≡ frame.now × it.1.frame ≡ frame.now × it.2.frame ≡ frame.now
            × it.0.page ≡ it.1.page) }
    {
        if self.granted == 0 {
            return None;
        }
        let shared = &frame.table.shared;
        let mut seat = shared.split_seat::<Hand>(&mut self.seat);
        self.granted -= 1;
        let reader = shared.split_seat::<PartLatch>(&mut seat);
        let pin = shared.split_seat::<Part>(&mut seat);
        Some((Reader { seat: reader }, Pin { seat: pin }, Visitor { seat }))
    }
}

impl Queue {
    /// Lets a writer in, with its latch, its pin and its right to come, if one waits and nobody has the latch. Where
    /// somebody has, the word says that threads wait.
    pub fn try_let_writer_in(&mut self, frame: &Frame) -> Option<(Writer, Pin, Visitor)>
        requires frame { self.old.frame ≡ frame.now }
        requires fits { self.old.waiting + self.old.writers < 18446744073709551616 }
        ensures had { IsSome result
            → 0 < self.old.writers
            × self.new ≡ record self.old { writers = self.old.writers - 1 } }
        ensures not { IsNone result → self.new ≡ self.old }
        ensures shares { IfSome result (λ it.
            it.0.frame ≡ frame.now × it.1.frame ≡ frame.now × it.2.frame ≡ frame.now
            × it.0.page ≡ it.1.page) }
    {
        if self.writers == 0 {
            return None;
        }
        let shared = &frame.table.shared;
        let is_last = self.waiting + (self.writers - 1) == 0;
        let seen = shared.load::<Find>(&mut self.seat, 0);
        let next = Word(seen).with_writer(is_last);
        if Word(seen).is_latched() {
            shared.compare_exchange::<Flag>(&mut self.seat, 0, seen, next);
            return None;
        }
        let found = shared.compare_exchange::<LetWriterIn>(&mut self.seat, 0, seen, next);
        if found != seen {
            return None;
        }
        self.writers -= 1;
        let mut seat = shared.split_seat::<HandOne>(&mut self.seat);
        let writer = shared.split_seat::<PartLatch>(&mut seat);
        let pin = shared.split_seat::<Part>(&mut seat);
        Some((Writer { seat: writer }, Pin { seat: pin }, Visitor { seat }))
    }
}
