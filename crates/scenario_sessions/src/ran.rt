//! `Ran`, the outcome of a run of client threads.

use bp_check::Setup;
use bp_core::{Call, Entry, Reply};
use bp_replay::Outcome;
use scenario_cores::Device;
use scenario_words::{Answer, Said, Verb, entry_of, refusals_of, totals_of};
use std::alloc::Global;
use std::sync::Wait;

/// The outcome of a run: its trail, the judge's parameters, the list of each client, and the device.
#[derive(Drop)]
pub struct Ran {
    alloc: Global,
    device: Device,
    setup: Setup,
    trail: Vec<Entry>,
    said: Vec<Vec<Entry>>,
}

/// Returns the number of reads that began before the first one ended.
fn reads_at_once(trail: &[Entry]) -> u64 {
    let mut begun = 0u64;
    for entry in trail {
        if matches!(entry.call, Call::ReadEnd { .. }) {
            break;
        }
        if matches!(entry.reply, Reply::Load { .. }) {
            begun = begun.saturating_add(1);
        }
    }
    begun
}

/// Returns the number of write-outs that began before the first one ended.
fn writes_at_once(trail: &[Entry]) -> u64 {
    let mut begun = 0u64;
    for entry in trail {
        if matches!(entry.call, Call::WriteEnd { .. }) {
            break;
        }
        if matches!(entry.reply, Reply::WriteFirst { .. }) {
            begun = begun.saturating_add(1);
        }
    }
    begun
}

impl Ran {
    pub(crate) fn new(alloc: Global, device: Device, setup: Setup, outcome: Outcome) -> Ran {
        let Outcome {
            trail,
            said,
            refused: _,
        } = outcome;
        Ran {
            alloc,
            device,
            setup,
            trail,
            said,
        }
    }

    pub fn setup(&self) -> Setup {
        self.setup
    }

    /// Returns all entries, oldest first.
    pub fn trail(&self) -> &[Entry] {
        &self.trail
    }

    /// Answers the length of a client's list.
    fn list(&self, client: u64) -> Answer {
        match self.said.get(client as usize) {
            Some(list) => Answer::Number(list.len() as u64),
            None => Answer::BadLine,
        }
    }

    /// Answers a line that asks about the run.
    pub fn call(&self, rt: &impl Wait, call: &Said) -> Answer {
        match call.verb {
            Verb::Trail => Answer::Number(self.trail.len() as u64),
            Verb::List => self.list(call.numbers.list[0]),
            Verb::Entry => entry_of(self.alloc, &self.trail, call.numbers.list[0]),
            Verb::Totals => totals_of(self.alloc, &self.trail, 0),
            Verb::Refusals => refusals_of(&self.trail),
            Verb::ReadsAtOnce => Answer::Number(reads_at_once(&self.trail)),
            Verb::WritesAtOnce => Answer::Number(writes_at_once(&self.trail)),
            Verb::Device => self.device.call(rt, call),
            _ => Answer::BadLine,
        }
    }
}
