//! `Frame`, the words that threads share, `Keeper`, which gives the frame to pages, and `Visitor`, a thread that comes.
ghost use Rattle.std.specs.Prelude.{◌≡◌, ◌≢◌, Some, None, IsTrue, IsSome, IsNone, IfOk, IfErr, IfSome};

use crate::queues::Queue;
use crate::shares::{Pin, Reader, Writer};
use crate::views::{
    Admit, Begin, ComeAlone, ComeToPin, ComeToRead, End, Find, FindHome, Flag, GiveOut, Leave,
    LookPage, MakeQueue, Part, Store, ToPin, Token, Words,
};
use crate::word::{JOIN, PIN, READER, WRITER, Word};
use atomic_table::Table;
use std::alloc::{AllocError, Global};
use std::marker::Model;

/// A frame's words, shared among threads by reference. Contracts see it as its name.
#[derive(Drop)]
pub struct Frame {
    pub(crate) table: Words,
}

impl Model for Frame {
    ghost use Rattle.std.specs.Prelude.{◌≡◌};
    ghost use Rattle.bp_words.specs.Shares.{FrameName};

    ghost Value = { FrameName };

    ghost view = { λ f. f.table.shared.table_id };

    ghost invariant = { λ f. (f.table.shared.table_id.words ≡ 2)
        × (f.table.shared.table_id.slots ≡ 0) };
}

/// Who gives a frame to a page and takes it back. There is exactly one for each frame: who has the lock has it.
#[derive(Drop)]
pub struct Keeper {
    pub(crate) seat: Token,
    /// So many threads more may come to the frame.
    pub(crate) spare: u64,
}

impl Model for Keeper {
    ghost use Rattle.std.specs.Prelude.{◌≡◌, []};
    ghost use Rattle.bp_words.specs.Shares.{KeeperValue};
    ghost use Rattle.bp_words.specs.Views.{keeper};

    ghost Value = { KeeperValue };

    ghost view = { λ k. record { frame = k.seat.table_id; page = k.seat.me.0.page } };

    ghost invariant = { λ k. k.seat.me
        ≡ (keeper 0 k.spare k.seat.me.0.page k.seat.me.0.stored, []) };
}

/// A thread that may come to a frame. There are no more than 2^18 for a frame.
#[derive(Drop)]
pub struct Visitor {
    pub(crate) seat: Token,
}

impl Model for Visitor {
    ghost use Rattle.std.specs.Prelude.{◌≡◌, []};
    ghost use Rattle.bp_words.specs.Shares.{VisitorValue};
    ghost use Rattle.bp_words.specs.Views.{idle};

    ghost Value = { VisitorValue };

    ghost view = { λ v. record { frame = v.seat.table_id } };

    ghost invariant = { λ v. v.seat.me ≡ (idle, []) };
}

impl Frame {
    /// Makes a frame that is given to no page, with its keeper, and its queue, in which nobody waits. No other call
    /// takes memory.
    pub fn new(alloc: Global) -> Result<(Frame, Keeper, Queue), AllocError>
        ensures keeper { IfOk result (λ made. made.1 ≡ record { frame = made.0; page = None }) }
        ensures queue { IfOk result (λ made.
            made.2 ≡ record { frame = made.0; waiting = 0; writers = 0; granted = 0 }) }
    {
        let (table, mut seat) = Table::of_words(alloc, &[0, 0], &())?;
        let queue = Queue {
            seat: table.shared.split_seat::<MakeQueue>(&mut seat),
            waiting: 0,
            writers: 0,
            granted: 0,
        };
        Ok((
            Frame { table },
            Keeper {
                seat,
                spare: 262143,
            },
            queue,
        ))
    }
}

impl Visitor {
    /// Adds a share to the readers before it has looked, and takes the shared latch where it was free. Else it has a
    /// pin where the pass was out and there was room, or nothing.
    pub fn join_read(&mut self, frame: &Frame, page: u64) -> Result<Reader, Option<Pin>>
        requires { self.old.frame ≡ frame.now }
        ensures visitor { self.new ≡ self.old }
        ensures reader { IfOk result (λ share. share.frame ≡ frame.now × share.page ≡ page) }
        ensures pin { IfErr result (λ left.
            IfSome left (λ share. share.frame ≡ frame.now × share.page ≡ page)) }
    {
        let shared = &frame.table.shared;
        let before = Word(shared.fetch_add::<ComeToRead>(&mut self.seat, 0, READER + JOIN));
        if !before.is_pinnable() {
            shared.fetch_sub::<Leave>(&mut self.seat, 0, READER);
            return Err(None);
        }
        let found = shared.load::<LookPage>(&mut self.seat, 1);
        if found != page {
            shared.fetch_sub::<Leave>(&mut self.seat, 0, READER);
            return Err(None);
        }
        if before.is_readable() {
            let seat = shared.split_seat::<Part>(&mut self.seat);
            return Ok(Reader { seat });
        }
        shared.fetch_add::<ToPin>(&mut self.seat, 0, PIN - READER);
        let seat = shared.split_seat::<Part>(&mut self.seat);
        Err(Some(Pin { seat }))
    }
}

impl Visitor {
    /// Adds a pin before it has looked. It has one where the pass was out and there was room.
    pub fn join_pin(&mut self, frame: &Frame, page: u64) -> Option<Pin>
        requires { self.old.frame ≡ frame.now }
        ensures visitor { self.new ≡ self.old }
        ensures pin { IfSome result (λ share. share.frame ≡ frame.now × share.page ≡ page) }
    {
        let shared = &frame.table.shared;
        let before = Word(shared.fetch_add::<ComeToPin>(&mut self.seat, 0, PIN + JOIN));
        let found = shared.load::<LookPage>(&mut self.seat, 1);
        if !before.is_pinnable() || found != page {
            shared.fetch_sub::<Leave>(&mut self.seat, 0, PIN);
            return None;
        }
        let seat = shared.split_seat::<Part>(&mut self.seat);
        Some(Pin { seat })
    }

    /// Adds a pin without a join, as who has the lock does. It has one where there was room.
    pub fn add_pin(&mut self, frame: &Frame, page: u64) -> Option<Pin>
        requires { self.old.frame ≡ frame.now }
        ensures visitor { self.new ≡ self.old }
        ensures pin { IfSome result (λ share. share.frame ≡ frame.now × share.page ≡ page) }
    {
        let shared = &frame.table.shared;
        let before = Word(shared.fetch_add::<ComeToPin>(&mut self.seat, 0, PIN));
        let found = shared.load::<LookPage>(&mut self.seat, 1);
        if !before.is_pinnable() || found != page {
            shared.fetch_sub::<Leave>(&mut self.seat, 0, PIN);
            return None;
        }
        let seat = shared.split_seat::<Part>(&mut self.seat);
        Some(Pin { seat })
    }

    /// Takes the exclusive latch if the pass is out and nobody has a latch or is to get it.
    pub fn join_write(&mut self, frame: &Frame, page: u64) -> Option<Writer>
        requires { self.old.frame ≡ frame.now }
        ensures visitor { self.new ≡ self.old }
        ensures writer { IfSome result (λ share. share.frame ≡ frame.now × share.page ≡ page) }
    {
        let shared = &frame.table.shared;
        let seen = shared.load::<Find>(&mut self.seat, 0);
        let next = Word(seen).with_writer_at_once()?;
        let taken = shared.compare_exchange::<ComeAlone>(&mut self.seat, 0, seen, next);
        if taken != seen {
            return None;
        }
        let found = shared.load::<LookPage>(&mut self.seat, 1);
        if found != page {
            shared.fetch_sub::<Leave>(&mut self.seat, 0, WRITER);
            return None;
        }
        let seat = shared.split_seat::<Part>(&mut self.seat);
        Some(Writer { seat })
    }

    /// Lets whoever comes take the latch.
    pub fn try_open(&mut self, frame: &Frame) -> bool
        requires { self.old.frame ≡ frame.now }
        ensures { self.new ≡ self.old }
    {
        let shared = &frame.table.shared;
        let seen = shared.load::<Find>(&mut self.seat, 0);
        let next = Word(seen).opened();
        shared.compare_exchange::<Flag>(&mut self.seat, 0, seen, next) == seen
    }
}

impl Keeper {
    /// Lets one thread more come to the frame, if there are not too many.
    pub fn admit(&mut self, frame: &Frame) -> Option<Visitor>
        requires { self.old.frame ≡ frame.now }
        ensures keeper { self.new ≡ self.old }
        ensures visitor { IfSome result (λ visitor. visitor.frame ≡ frame.now) }
    {
        if self.spare == 0 {
            return None;
        }
        let seat = frame.table.shared.split_seat::<Admit>(&mut self.seat);
        self.spare -= 1;
        Some(Visitor { seat })
    }

    /// Gives the frame to a page, with a pin. `None` where the word changed meanwhile: the number is stored then, and
    /// the frame is given to no page.
    pub fn try_begin(&mut self, frame: &Frame, page: u64, stays: bool) -> Option<Pin>
        requires frame { self.old.frame ≡ frame.now }
        requires home { self.old.page ≡ None }
        ensures frame { self.new.frame ≡ self.old.frame }
        ensures given { IsSome result → self.new.page ≡ Some page }
        ensures not { IsNone result → self.new ≡ self.old }
        ensures pin { IfSome result (λ share. share.frame ≡ frame.now × share.page ≡ page) }
    {
        let shared = &frame.table.shared;
        shared.store::<Store>(&mut self.seat, 1, page);
        let seen = shared.load::<FindHome>(&mut self.seat, 0);
        let next = Word(seen).with_pass(stays);
        let found = shared.compare_exchange::<Begin>(&mut self.seat, 0, seen, next);
        if found != seen {
            return None;
        }
        let seat = shared.split_seat::<GiveOut>(&mut self.seat);
        Some(Pin { seat })
    }

    /// Takes the frame back from its page, which works only while nobody has a share.
    pub fn try_end(&mut self, frame: &Frame) -> bool
        requires { self.old.frame ≡ frame.now }
        ensures frame { self.new.frame ≡ self.old.frame }
        ensures ended { IsTrue result → self.new.page ≡ None }
        ensures stays { ¬ (IsTrue result) → self.new ≡ self.old }
    {
        let shared = &frame.table.shared;
        let seen = shared.peek(0);
        match Word(seen).without_pass() {
            Some(next) => {
                let found = shared.compare_exchange::<End>(&mut self.seat, 0, seen, next);
                found == seen
            }
            None => false,
        }
    }

    /// Has the pass stay out when nobody uses the page.
    pub fn try_stay(&mut self, frame: &Frame) -> bool
        requires { self.old.frame ≡ frame.now }
        ensures { self.new ≡ self.old }
    {
        let shared = &frame.table.shared;
        let seen = shared.peek(0);
        if !Word(seen).is_out() {
            return false;
        }
        let next = Word(seen).staying();
        shared.compare_exchange::<Flag>(&mut self.seat, 0, seen, next) == seen
    }

    /// Takes the joins that were not counted so far, and returns how many these were.
    pub fn try_take_joins(&mut self, frame: &Frame) -> Option<u64>
        requires { self.old.frame ≡ frame.now }
        ensures { self.new ≡ self.old }
    {
        let shared = &frame.table.shared;
        let seen = shared.load::<Find>(&mut self.seat, 0);
        let next = Word(seen).without_joins();
        if shared.compare_exchange::<Flag>(&mut self.seat, 0, seen, next) == seen {
            Some(Word(seen).joins())
        } else {
            None
        }
    }
}
