//! `PartedSession`: one client's sessions, one in each part.
use crate::pool::PartCount;
use bp_keeper::{ListKeeper, RecordingKeeper};
use bp_shared::PartNames;
use bp_shared::session::Session;
use std::marker::Model;

/// One client's end of a pool in parts: its session in each part, in order.
#[derive(Drop)]
pub struct PartedSession<N: PartNames + PartCount, K: ListKeeper = RecordingKeeper> {
    pub(crate) client: u8,
    pub(crate) sessions: Vec<Session<N, K>>,
}

impl<N: PartNames + PartCount, K: ListKeeper> Model for PartedSession<N, K> {
    ghost use Rattle.std.specs.Prelude.{◌≡◌, vec_len};
    ghost use Rattle.bp_parts.specs.Parts.{PartedValue, AreSessionsOf};

    ghost Value = { PartedValue };

    ghost view = { λ s. record { client = s.client; sessions = s.sessions.items } };

    ghost invariant = { λ s. (vec_len s.sessions ≡ N.parts)
        × AreSessionsOf s.client s.sessions.items };
}

impl<N: PartNames + PartCount, K: ListKeeper> PartedSession<N, K> {
    ghost use Rattle.std.specs.Prelude.{◌≡◌, vec_len};
    ghost use Rattle.bp_parts.specs.Parts.{AreSessionsOf};

    /// Takes the sessions of one client, one of each part, in order.
    pub fn new(client: u8, sessions: Vec<Session<N, K>>) -> PartedSession<N, K>
        requires all { vec_len sessions ≡ N.parts }
        requires each { AreSessionsOf client sessions.items }
        ensures client { result.client ≡ client }
        ensures sessions { result.sessions ≡ sessions.items }
    {
        PartedSession { client, sessions }
    }

    /// Whose sessions they are.
    pub fn client(&self) -> u8
        ensures { result ≡ self.now.client }
    {
        self.client
    }

    /// Returns the sessions, each to be ended at its part.
    pub fn into_sessions(self) -> Vec<Session<N, K>>
        ensures sessions { result.items ≡ self.sessions }
        ensures all { vec_len result ≡ N.parts }
        ensures each { AreSessionsOf self.client result.items }
    {
        let PartedSession {
            client: _,
            sessions,
        } = self;
        sessions
    }
}
