//! The shares in a frame: `Reader`, `Pin` and `Writer`.
ghost use Rattle.std.specs.Prelude.{◌≡◌, IfSome, IfOk, IfErr};

use crate::frames::Frame;
use crate::views::{AddRead, AddWrite, Beside, Find, Leave, ToRead, ToWrite, Token};
use crate::word::{PIN, READER, WRITER, Word};
use std::marker::Model;

/// The right to look at a page: while it is there nobody writes it, and it stays in its frame. It can be neither copied
/// nor dropped.
pub struct Reader {
    pub(crate) seat: Token,
}

impl Model for Reader {
    ghost use Rattle.std.specs.Prelude.{◌≡◌, []};
    ghost use Rattle.bp_words.specs.Shares.{ShareValue, given};
    ghost use Rattle.bp_words.specs.Views.{held};

    ghost Value = { ShareValue };

    ghost view = { λ s. record { frame = s.seat.table_id; page = given s.seat.me.0.page } };

    ghost invariant = { λ s. s.seat.me ≡ (held 1 0 0 (given s.seat.me.0.page), []) };
}

/// A page stays in its frame while this is there. It can be neither copied nor dropped.
pub struct Pin {
    pub(crate) seat: Token,
}

impl Model for Pin {
    ghost use Rattle.std.specs.Prelude.{◌≡◌, []};
    ghost use Rattle.bp_words.specs.Shares.{ShareValue, given};
    ghost use Rattle.bp_words.specs.Views.{held};

    ghost Value = { ShareValue };

    ghost view = { λ s. record { frame = s.seat.table_id; page = given s.seat.me.0.page } };

    ghost invariant = { λ s. s.seat.me ≡ (held 0 1 0 (given s.seat.me.0.page), []) };
}

/// The right to write a page: while it is there nobody else reads or writes it, and it stays in its frame. It can be
/// neither copied nor dropped.
pub struct Writer {
    pub(crate) seat: Token,
}

impl Model for Writer {
    ghost use Rattle.std.specs.Prelude.{◌≡◌, []};
    ghost use Rattle.bp_words.specs.Shares.{ShareValue, given};
    ghost use Rattle.bp_words.specs.Views.{held};

    ghost Value = { ShareValue };

    ghost view = { λ s. record { frame = s.seat.table_id; page = given s.seat.me.0.page } };

    ghost invariant = { λ s. s.seat.me ≡ (held 0 0 1 (given s.seat.me.0.page), []) };
}

impl Reader {
    /// Gives the share back.
    pub fn leave(self, frame: &Frame)
        requires { self.frame ≡ frame.now }
    {
        let Reader { mut seat } = self;
        frame.table.shared.fetch_sub::<Leave>(&mut seat, 0, READER);
    }
}

impl Pin {
    /// Gives the share back.
    pub fn leave(self, frame: &Frame)
        requires { self.frame ≡ frame.now }
    {
        let Pin { mut seat } = self;
        frame.table.shared.fetch_sub::<Leave>(&mut seat, 0, PIN);
    }
}

impl Writer {
    /// Gives the share back.
    pub fn leave(self, frame: &Frame)
        requires { self.frame ≡ frame.now }
    {
        let Writer { mut seat } = self;
        frame.table.shared.fetch_sub::<Leave>(&mut seat, 0, WRITER);
    }
}

impl Pin {
    /// Turns the pin into a latch, if that is free and nobody is to get it.
    pub fn try_read(self, frame: &Frame) -> Result<Reader, Pin>
        requires { self.frame ≡ frame.now }
        ensures had { IfOk result (λ share. share ≡ self) }
        ensures not { IfErr result (λ share. share ≡ self) }
    {
        let Pin { mut seat } = self;
        let shared = &frame.table.shared;
        let seen = shared.load::<Find>(&mut seat, 0);
        let Some(next) = Word(seen).with_latch(READER, PIN) else {
            return Err(Pin { seat });
        };
        let taken = shared.compare_exchange::<ToRead>(&mut seat, 0, seen, next);
        if taken != seen {
            return Err(Pin { seat });
        }
        Ok(Reader { seat })
    }
}

impl Pin {
    /// Turns the pin into a latch, if that is free and nobody is to get it.
    pub fn try_write(self, frame: &Frame) -> Result<Writer, Pin>
        requires { self.frame ≡ frame.now }
        ensures had { IfOk result (λ share. share ≡ self) }
        ensures not { IfErr result (λ share. share ≡ self) }
    {
        let Pin { mut seat } = self;
        let shared = &frame.table.shared;
        let seen = shared.load::<Find>(&mut seat, 0);
        let Some(next) = Word(seen).with_latch(WRITER, PIN) else {
            return Err(Pin { seat });
        };
        let taken = shared.compare_exchange::<ToWrite>(&mut seat, 0, seen, next);
        if taken != seen {
            return Err(Pin { seat });
        }
        Ok(Writer { seat })
    }
}

impl Pin {
    /// Takes a latch beside the pin, if that is free and nobody is to get it.
    pub fn try_read_beside(&mut self, frame: &Frame) -> Option<Reader>
        requires { self.old.frame ≡ frame.now }
        ensures pin { self.new ≡ self.old }
        ensures had { IfSome result (λ share. share ≡ self.old) }
    {
        let shared = &frame.table.shared;
        let seen = shared.load::<Find>(&mut self.seat, 0);
        let next = Word(seen).with_latch(READER, 0)?;
        let taken = shared.compare_exchange::<AddRead>(&mut self.seat, 0, seen, next);
        if taken != seen {
            return None;
        }
        let seat = shared.split_seat::<Beside>(&mut self.seat);
        Some(Reader { seat })
    }
}

impl Pin {
    /// Takes a latch beside the pin, if that is free and nobody is to get it.
    pub fn try_write_beside(&mut self, frame: &Frame) -> Option<Writer>
        requires { self.old.frame ≡ frame.now }
        ensures pin { self.new ≡ self.old }
        ensures had { IfSome result (λ share. share ≡ self.old) }
    {
        let shared = &frame.table.shared;
        let seen = shared.load::<Find>(&mut self.seat, 0);
        let next = Word(seen).with_latch(WRITER, 0)?;
        let taken = shared.compare_exchange::<AddWrite>(&mut self.seat, 0, seen, next);
        if taken != seen {
            return None;
        }
        let seat = shared.split_seat::<Beside>(&mut self.seat);
        Some(Writer { seat })
    }
}
