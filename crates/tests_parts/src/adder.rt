//! A worker that adds to a byte of its own of many pages.
ghost use Rattle.std.specs.Prelude.{◌≡◌, ◌<◌};

use bp_keeper::RecordingKeeper;
use bp_page::{Lsn, Refusal};
use bp_part_workers::{PartedClient, PartedWorker, SharedLog};
use bp_parts::{PartCount, PartedPool};
use bp_ports::{Port, Store};
use bp_shared::PartNames;
use std::sync::{Mutex, Wait};

pub(crate) const PAGES: usize = 32;

/// So many flushes of all parts are tried at the end.
const FLUSHES: u32 = 1000;

/// Adds 1 to its own byte of pages that it draws, and notes how often it did so to each.
#[derive(Drop)]
pub(crate) struct Adder {
    pub(crate) byte: u32,
    pub(crate) uses: u64,
    /// The state of a linear congruential generator.
    state: u64,
    pub(crate) added: [u8; PAGES],
    pub(crate) refused: u64,
    pub(crate) flushed: bool,
}

impl Adder {
    pub(crate) fn new(byte: u8, uses: u64) -> Adder {
        Adder {
            byte: u32::from(byte),
            uses,
            state: u64::from(byte),
            added: [0; PAGES],
            refused: 0,
            flushed: false,
        }
    }

    /// Adds 1 to its byte of a page.
    fn add<N: PartNames + PartCount, S: Store, R: Wait>(
        &mut self,
        rt: &R,
        pool: &PartedPool<N>,
        client: &mut PartedClient<N, S>,
        page: usize,
    ) -> Result<(), Refusal>
        requires { page < 32 }
        ensures client { client.new.session.client ≡ client.old.session.client }
    {
        let Some(number) = client.page(page as u64) else {
            return Err(Refusal::OutOfPage);
        };
        if !client.port.geometry().fits(self.byte as usize, 1) {
            return Err(Refusal::OutOfPage);
        }
        // The clock of the page's part moves on, so that pages of that part come of age.
        pool.tick(rt, &mut client.session, pool.part_of(number), 1)?;
        let pass = pool.fix(rt, &mut client.session, &mut client.port, number)?;
        let mut byte = [0u8];
        let read = pool.read_into(rt, &mut client.session, &pass, self.byte, &mut byte);
        let more = [byte[0].wrapping_add(1)];
        let written = match read {
            Ok(()) => {
                pool.write_from(
                    rt,
                    &mut client.session,
                    &pass,
                    self.byte,
                    &more,
                    Lsn::new(0),
                )
            }
            Err(refusal) => Err(refusal),
        };
        if written.is_ok() {
            self.added[page] = self.added[page].wrapping_add(1);
        }
        if let Err((pass, refusal)) = pool.unfix_draining(rt, &mut client.session, pass) {
            let _ = pass.into_pass().1.note();
            return Err(refusal);
        }
        written
    }
}

impl<S: Store> PartedWorker<S, RecordingKeeper, ()> for Adder {
    fn work<N: PartNames + PartCount, R: Wait>(
        &mut self,
        rt: &R,
        pool: &PartedPool<N>,
        client: &mut PartedClient<N, S>,
        _log: &Mutex<SharedLog<N>>,
    ) {
        'uses: for _ in 0..self.uses {
            self.state = self.state.wrapping_mul(6364136223846793005).wrapping_add(1);
            let page = (self.state >> 33) as usize % PAGES;
            if self.add(rt, pool, client, page).is_err() {
                self.refused = self.refused.wrapping_add(1);
            }
        }
        'flushes: for _ in 0..FLUSHES {
            self.flushed = pool
                .flush_all(rt, &mut client.session, &mut client.port)
                .is_ok();
            if self.flushed {
                break;
            }
        }
    }
}
