//! Calls for checkpoints, counters, and device work of more than one page.
ghost use Rattle.std.specs.Prelude.{◌<◌};

use crate::observing::answer_of_page;
use crate::outcomes::{flushed_all, lsn_or_none, page_or_none, stats_of, went};
use crate::pools::Pool;
use bp_core::Keeper;
use bp_device::{Port, drive_flush_all, drive_new};
use bp_page::{PageNo, Refusal};
use scenario_words::{Answer, Said, Verb};
use std::sync::Wait;

impl<K: Keeper> Pool<K> {
    /// Makes a call that adds no entry.
    pub(crate) fn observe(&mut self, call: &Said) -> Answer {
        match call.verb {
            Verb::Redo => lsn_or_none(self.core.redo_from()),
            Verb::NextVictim => page_or_none(self.core.victim()),
            Verb::Stats => stats_of(self.alloc, &self.core.stats(), self.unread),
            _ => answer_of_page(&self.core, call),
        }
    }

    /// Flushes all unsaved pages. Without a device the line is a bad one.
    pub(crate) fn flush_all(&mut self, rt: &impl Wait, client: u8) -> Answer
        requires { client < self.old.core.parameters.clients }
    {
        match &mut self.device {
            Some(device) => {
                flushed_all(drive_flush_all(rt, &mut self.core, &mut device.port, client))
            }
            None => Answer::BadLine,
        }
    }

    /// Fixes a new page, without a read of it. Without a device the line is a bad one.
    pub(crate) fn fix_new(&mut self, rt: &impl Wait, client: u8, page: PageNo) -> Answer
        requires client { client < self.old.core.parameters.clients }
        requires page { page < self.old.core.parameters.pages }
    {
        let Some(device) = &mut self.device else {
            return Answer::BadLine;
        };
        match drive_new(
            rt,
            self.alloc,
            &mut self.core,
            &mut device.port,
            client,
            page,
        ) {
            Ok(pass) => self.lists.keep_given(pass),
            Err(refusal) => Answer::Refused(refusal),
        }
    }

    /// Syncs the device. Without a device the line is a bad one.
    pub(crate) fn sync(&mut self, rt: &impl Wait) -> Answer {
        match &mut self.device {
            Some(device) => went(device.port.sync(rt)),
            None => Answer::BadLine,
        }
    }
}
