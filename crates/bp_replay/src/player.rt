//! `ScriptPlayer`: a worker that plays one client's script.
ghost use Rattle.std.specs.Prelude.{◌≡◌, ◌+◌, ◌<◌, ◌≤◌, List, [], ◌∷◌, ◌++◌, length, reverse, vec_len, vec_capacity};
ghost use Rattle.bp_scripts.specs.declared.rows.Row.{Row};
ghost use Rattle.bp_trail.specs.HeldPasses.{held_passes};
ghost use Rattle.bp_scripts.specs.LogBound.{log_of, logged};
ghost use Rattle.bp_replay.specs.Bounds.{IsBounded, RaisesMark};
ghost use Rattle.bp_replay.specs.Steps.{GivesEachOnce, Stays};
ghost use Rattle.bp_replay.specs.Scripts.{IsRowOf, RowsFit};
ghost use Rattle.bp_replay.specs.Players.{GrowsBy, PlaysRows};

use crate::driving::note_refused;
use crate::held_list::HeldList;
use crate::steps::step;
use bp_core::RecordingKeeper;
use bp_page::Geometry;
use bp_ports::Port;
use bp_scripts::{Refused, Row, Step};
use bp_shared::{LogWriter, PoolName, SharedPool};
use bp_workers::{Client, Upkeep, Worker};
use std::alloc::{AllocError, Global};
use std::marker::Model;
use std::sync::Wait;

/// A client's script, and what its run leaves, with room for it: where the pieces of its rows end, and its refused
/// rows.
#[derive(Drop)]
pub(crate) struct ScriptPlayer {
    alloc: Global,
    client: u8,
    /// The geometry of the file that its rows are for.
    geometry: Geometry,
    script: Vec<Row>,
    /// For each row that was run, the number of entries of the client's list after it.
    ends: Vec<usize>,
    refused: Vec<Refused>,
}

impl Model for ScriptPlayer {
    ghost use Rattle.std.specs.Prelude.{vec_capacity};
    ghost use Rattle.bp_replay.specs.Players.{PlayerValue, IsPlayer, player_view};

    ghost Value = { PlayerValue };

    ghost view = { λ p. player_view p.client p.geometry p.script p.ends p.refused };

    ghost invariant = { λ p.
        IsPlayer (player_view p.client p.geometry p.script p.ends p.refused)
        (vec_capacity p.ends) (vec_capacity p.refused) };
}

fn count<N: PoolName, P: Port>(client: &Client<N, P>) -> usize
    requires uncut { client.now.session.before ≡ [] }
    ensures { result ≡ length client.now.session.said }
{
    client.session.said().len()
}

/// Makes the call of a row, and notes its refusal and where its piece ends.
fn run_row<N: PoolName, P: Port, R: Wait>(
    rt: &R,
    pool: &SharedPool<N>,
    client: &mut Client<N, P>,
    held: &mut HeldList,
    row: &Row,
    ends: &mut Vec<usize>,
    refused: &mut Vec<Refused>,
)
    requires fits { IsRowOf N.parameters client.old.session.client row.now }
    requires uncut { client.old.session.before ≡ [] }
    requires once { GivesEachOnce client.old.session.said }
    requires held { held.old.passes ≡ held_passes client.old.session.said }
    requires ends_room { vec_len ends.old < vec_capacity ends.old }
    requires refused_room { vec_len refused.old < vec_capacity refused.old }
    ensures same { Stays client.old.session client.new.session }
    ensures held { held.new.passes ≡ held_passes client.new.session.said }
    ensures plays { (rows : List Row) (first : P) →
        PlaysRows P.read_gives P.write_gives rows client.old.session.said
        (reverse ends.old.items) refused.old.items first client.old.port →
        PlaysRows P.read_gives P.write_gives (rows ++ row.now ∷ []) client.new.session.said
        (reverse ends.new.items) refused.new.items first client.new.port }
    ensures grows { GrowsBy row.now client.old.session.said client.new.session.said }
    ensures end { ends.new.items ≡ ends.old.items ++ length client.new.session.said ∷ [] }
    ensures few { vec_len refused.new ≤ vec_len refused.old + 1 }
    ensures ends_capacity { vec_capacity ends.new ≡ vec_capacity ends.old }
    ensures refused_capacity { vec_capacity refused.new ≡ vec_capacity refused.old }
{
    let outcome = step(rt, pool, client, held, &row.step);
    note_refused(refused, row.row, outcome);
    ends.push_reserved(count(client));
}

/// Runs the rows in order.
fn run_rows<N: PoolName, P: Port, R: Wait>(
    rt: &R,
    alloc: Global,
    pool: &SharedPool<N>,
    client: &mut Client<N, P>,
    script: &[Row],
    ends: &mut Vec<usize>,
    refused: &mut Vec<Refused>,
)
    requires fits { RowsFit N.parameters client.old.session.client script.now }
    requires uncut { client.old.session.before ≡ [] }
    requires new { (client.old.session.said ≡ []) × (ends.old.items ≡ [])
        × (refused.old.items ≡ []) }
    requires ends_room { length script.now ≤ vec_capacity ends.old }
    requires refused_room { length script.now ≤ vec_capacity refused.old }
    ensures same { Stays client.old.session client.new.session }
    ensures plays { PlaysRows P.read_gives P.write_gives script.now client.new.session.said
        (reverse ends.new.items) refused.new.items client.old.port client.new.port }
    ensures ends_capacity { vec_capacity ends.new ≡ vec_capacity ends.old }
    ensures refused_capacity { vec_capacity refused.new ≡ vec_capacity refused.old }
{
    let mut held = HeldList::new(alloc);
    for row in script {
        run_row(rt, pool, client, &mut held, row, ends, refused);
    }
}

/// Raises the mark as a log row says, once the session has looked at the trail: so it knows that no mark came before this
/// row. Any other row does nothing here.
fn raise_mark<N: PoolName, P: Port, R: Wait>(
    rt: &R,
    pool: &SharedPool<N>,
    client: &mut Client<N, P>,
    log: &mut LogWriter<N>,
    row: &Row,
)
    ensures port { client.new.port ≡ client.old.port }
    ensures raises { RaisesMark N.parameters N.past (log_of row.now.step)
        client.old.session log.old client.new.session log.new }
{
    if let Step::Log(lsn) = &row.step {
        pool.show_marks(rt, &mut client.session, log);
        log.raise(pool, *lsn);
    }
}

/// Runs the rows of client 0 in order, with the log writer for its log rows.
fn lead_rows<N: PoolName, P: Port, R: Wait>(
    rt: &R,
    alloc: Global,
    pool: &SharedPool<N>,
    client: &mut Client<N, P>,
    log: &mut LogWriter<N>,
    script: &[Row],
    ends: &mut Vec<usize>,
    refused: &mut Vec<Refused>,
)
    requires fits { RowsFit N.parameters client.old.session.client script.now }
    requires uncut { client.old.session.before ≡ [] }
    requires first { client.old.session.client ≡ 0 }
    requires log { log.old ≡ 0 }
    requires new { (client.old.session.said ≡ []) × (ends.old.items ≡ [])
        × (refused.old.items ≡ []) }
    requires ends_room { length script.now ≤ vec_capacity ends.old }
    requires refused_room { length script.now ≤ vec_capacity refused.old }
    ensures same { Stays client.old.session client.new.session }
    ensures plays { PlaysRows P.read_gives P.write_gives script.now client.new.session.said
        (reverse ends.new.items) refused.new.items client.old.port client.new.port }
    ensures log { log.new ≡ logged script.now }
    ensures bounded { IsBounded script.now (reverse ends.new.items)
        (length client.new.session.said) client.new.session.seen }
    ensures ends_capacity { vec_capacity ends.new ≡ vec_capacity ends.old }
    ensures refused_capacity { vec_capacity refused.new ≡ vec_capacity refused.old }
{
    let mut held = HeldList::new(alloc);
    for row in script {
        raise_mark(rt, pool, client, log, row);
        run_row(rt, pool, client, &mut held, row, ends, refused);
    }
    pool.show_marks(rt, &mut client.session, log);
}

impl ScriptPlayer {
    ghost use Rattle.std.specs.Prelude.{◌≡◌, ◌↔◌, IfOk, IsTrue, []};
    ghost use Rattle.bp_replay.specs.Scripts.{CanPlay};
    ghost use Rattle.bp_replay.specs.Players.{new_player, IsUnplayed, Leads, Plays};

    pub(crate) fn new(
        alloc: Global,
        client: u8,
        geometry: Geometry,
        script: Vec<Row>,
    ) -> Result<ScriptPlayer, AllocError>
        requires fits { CanPlay geometry client script.items }
        ensures { IfOk result (λ player. player ≡ new_player geometry client script.items) }
    {
        let ends = Vec::with_capacity(alloc, script.len())?;
        let refused = Vec::with_capacity(alloc, script.len())?;
        Ok(ScriptPlayer {
            alloc,
            client,
            geometry,
            script,
            ends,
            refused,
        })
    }

    /// Returns true if nothing was run yet, and this client at a port of this geometry may run its rows.
    fn may_play(&self, client: u8, geometry: &Geometry) -> bool
        ensures new { IsTrue result ↔ IsUnplayed self.now client geometry.now }
        ensures fits { IsTrue result → CanPlay geometry.now client self.now.script }
    {
        if !self.ends.is_empty() || !self.refused.is_empty() {
            return false;
        }
        if self.client != client || self.geometry.pages != geometry.pages {
            return false;
        }
        self.geometry.size == geometry.size
    }

    /// Plays the script, by a session that said nothing yet. A player that has played does not play again.
    fn play<N: PoolName, P: Port, R: Wait>(
        &mut self,
        rt: &R,
        pool: &SharedPool<N>,
        client: &mut Client<N, P>,
    )
        requires new { (client.old.session.said ≡ []) × (client.old.session.before ≡ []) }
        ensures whose { client.new.session.client ≡ client.old.session.client }
        ensures plays { Plays P.read_gives P.write_gives P.geometry_of self.old client.old.port
            self.new client.new.port client.new.session }
    {
        if self.may_play(client.session.client(), &client.port.geometry()) {
            run_rows(
                rt,
                self.alloc,
                pool,
                client,
                &self.script,
                &mut self.ends,
                &mut self.refused,
            );
        }
    }

    /// Plays the script of client 0 as `play` does, with the writer of the mark for its log rows.
    fn lead_play<N: PoolName, P: Port, R: Wait>(
        &mut self,
        rt: &R,
        pool: &SharedPool<N>,
        client: &mut Client<N, P>,
        log: &mut LogWriter<N>,
    )
        requires new { (client.old.session.said ≡ []) × (client.old.session.before ≡ []) }
        requires first { client.old.session.client ≡ 0 }
        requires log { log.old ≡ 0 }
        ensures whose { client.new.session.client ≡ client.old.session.client }
        ensures plays { Plays P.read_gives P.write_gives P.geometry_of self.old client.old.port
            self.new client.new.port client.new.session }
        ensures leads { IsUnplayed self.old 0 (P.geometry_of client.old.port) →
            Leads self.old.script self.new.ends client.new.session log.new }
    {
        if self.may_play(client.session.client(), &client.port.geometry()) {
            lead_rows(
                rt,
                self.alloc,
                pool,
                client,
                log,
                &self.script,
                &mut self.ends,
                &mut self.refused,
            );
        }
    }

    pub(crate) fn refused(&self) -> &[Refused]
        ensures { result.now ≡ self.now.refused }
    {
        &self.refused
    }
}

impl<P: Port> Worker<P, RecordingKeeper> for ScriptPlayer {
    ghost use Rattle.bp_replay.specs.Players.{PlayerLeaves};

    ghost leaves = { PlayerLeaves P.read_gives P.write_gives P.geometry_of };

    fn work<N: PoolName, R: Wait>(
        &mut self,
        rt: &R,
        pool: &SharedPool<N>,
        client: &mut Client<N, P>,
    ) {
        self.play(rt, pool, client);
    }

    /// Plays as `work` does, with the writer of the mark for log rows.
    fn lead<N: PoolName, R: Wait>(
        &mut self,
        rt: &R,
        pool: &SharedPool<N>,
        client: &mut Client<N, P>,
        upkeep: &mut Upkeep<N>,
    ) {
        self.lead_play(rt, pool, client, &mut upkeep.log);
    }
}
