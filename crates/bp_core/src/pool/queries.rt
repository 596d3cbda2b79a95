//! The questions that change nothing: parameters, clock, histories, counts and trail of a core.
ghost use Rattle.std.specs.Prelude.{◌≡◌, ◌+◌, ◌^◌, ◌++◌, reverse, ◌≤◌, length};
ghost use Rattle.bp_trail.specs.Clock.{clock, durable};
ghost use Rattle.bp_trail.specs.Places.{resident};
ghost use Rattle.bp_trail.specs.References.{last, hist};
ghost use Rattle.bp_trail.specs.Legal.{Legal};
ghost use Rattle.bp_trail.specs.Safety.{Safe};
ghost use Rattle.bp_trail.specs.Claims.{HeldIsPlain, ReadsAreKnown};
ghost use Rattle.bp_trail.specs.Cuts.{LeadsOn, ReadsSince};
ghost use Rattle.bp_trail.specs.Standing.{standing};
ghost use Rattle.bp_core.specs.CoreView.{EachPast, opening};
ghost use Rattle.bp_core.specs.Counts.{AreCounts};

use crate::pool::PoolCore;
use crate::stats::Stats;
use bp_keeper::{Keeper, RecordingKeeper};
use bp_page::{Geometry, Lsn, PageNo};
use bp_replacer::Settings;
use bp_trail::Entry;

impl<K: Keeper> PoolCore<K> {
    /// Does nothing. What it ensures is true of every core, whether its entries can be read or not.
    pub fn keeps_the_rules(&self)
        ensures legal { EachPast self.now (Legal self.now.parameters) }
        ensures safe { EachPast self.now (Safe self.now.parameters) }
        ensures plain { EachPast self.now HeldIsPlain }
        ensures known { EachPast self.now ReadsAreKnown }
    {
        // The clauses follow from what every core keeps.
        let _ = &self.state;
    }

    pub fn geometry(&self) -> Geometry
        ensures pages { result.pages ≡ self.now.parameters.pages }
        ensures size { result.size ≡ self.now.parameters.size }
    {
        self.config.geometry
    }

    pub fn settings(&self) -> Settings
        ensures k { result.k ≡ self.now.parameters.k }
        ensures correlated { result.correlated ≡ self.now.parameters.correlated }
        ensures retained { result.retained ≡ self.now.parameters.retained }
    {
        self.config.settings
    }

    pub fn frames(&self) -> usize
        ensures { result ≡ self.now.parameters.frames }
    {
        self.config.frames
    }

    pub fn clients(&self) -> u8
        ensures { result ≡ self.now.parameters.clients }
    {
        self.config.clients
    }

    /// Returns the number of entries that the trail may have between two cuts.
    pub fn room(&self) -> usize
        ensures { result ≡ self.now.parameters.room }
    {
        self.config.room
    }

    /// Returns the time in ticks: 1 and all ticks since.
    pub fn clock(&self) -> u64
        ensures { EachPast self.now (λ past. result ≡ clock past) }
    {
        self.state.clock
    }

    /// Returns the greatest LSN marked, else 0.
    pub fn durable(&self) -> Lsn
        ensures { EachPast self.now (λ past. result ≡ durable past) }
    {
        self.state.durable
    }

    /// Returns LAST, the time of the page's newest reference, or 0 where it has none.
    pub fn last(&self, page: PageNo) -> u64
        ensures { EachPast self.now (λ past. result ≡ last self.now.parameters past page) }
    {
        self.state.histories.last(page)
    }

    /// Returns HIST(i), the page's i-th stamp, from 1 for the newest to K, or 0 where it has none.
    pub fn stamp(&self, page: PageNo, i: usize) -> u64
        ensures { EachPast self.now (λ past. result ≡ hist self.now.parameters past page i) }
    {
        self.state.histories.stamp(page, i)
    }

    /// Returns true if the page is in a frame.
    pub fn is_resident(&self, page: PageNo) -> bool
        ensures { EachPast self.now (λ past. result ≡ resident past page) }
    {
        self.frame(page).is_some()
    }

    /// Returns the counts of replies and pages, in O(1).
    pub fn stats(&self) -> Stats
        ensures { EachPast self.now (λ past. AreCounts past result) }
    {
        Stats {
            totals: self.trail.totals(),
            resident: self.state.frames.len(),
            pinned: self.state.frames.pinned(),
            unsaved: self.state.frames.unsaved(),
            loading: self.state.reads.len(),
            writing: self.state.writes.len(),
        }
    }

    /// Lends the keeper, which has the entries so far. These are few enough, and their time is early enough, for
    /// numbers of 64 bits.
    pub fn keeper(&self) -> &K
        ensures past { (K.kept result.now).past ≡ self.now.past }
        ensures before { (K.kept result.now).before ≡ self.now.before }
        ensures count { (K.kept result.now).len + length self.now.before ≡ length self.now.past }
        ensures room { (K.kept result.now).len ≤ self.now.parameters.room }
        ensures few { (K.kept result.now).len ≤ 2 ^ 61 }
        ensures in_time { EachPast self.now (λ past. clock past ≤ 2 ^ 62) }
    {
        &self.trail
    }
}

impl PoolCore<RecordingKeeper> {
    /// Returns the entries since the last cut, the oldest first, or all where no cut was made.
    pub fn trail(&self) -> &[Entry]
        ensures entries { reverse result.now ++ self.now.before ≡ self.now.past }
        ensures room { length result.now ≤ self.now.parameters.room }
        ensures legal { EachPast self.now (Legal self.now.parameters) }
        ensures safe { EachPast self.now (Safe self.now.parameters) }
        ensures before { Legal self.now.parameters self.now.before }
        ensures leads_on { LeadsOn self.now.parameters (opening self.now) (reverse result.now)
            (standing self.now.parameters self.now.past) }
        ensures reads { ReadsSince self.now.parameters (opening self.now) (reverse result.now) }
        ensures plain { EachPast self.now HeldIsPlain }
        ensures known { EachPast self.now ReadsAreKnown }
    {
        self.keeps_the_rules();
        self.trail.entries()
    }

    /// Ends the core and returns its entries since the last cut, the oldest first. It takes no memory.
    pub fn into_trail(self) -> Vec<Entry>
        ensures entries { reverse result.items ++ self.before ≡ self.past }
    {
        self.trail.into_entries()
    }
}
