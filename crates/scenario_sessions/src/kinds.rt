//! `Kind`, the two kinds of pool: with entries in memory, or with counts only.

use bp_core::{Entry, PoolCore, RecordingKeeper, SilentKeeper};
use bp_keeper::ListKeeper;
use bp_page::Refusal;
use bp_shared::{PoolName, Session, SharedPool, Taker};
use scenario_cores::{LOST, Lists, join};
use scenario_words::Answer;
use std::sync::Wait;

pub trait Kind: ListKeeper {
    /// Returns the part of a session's list that is not cut yet.
    fn list<N: PoolName>(session: &Session<N, Self>) -> &[Entry];

    /// Returns the part of a core's trail that is not cut yet.
    fn trail(core: &PoolCore<Self>) -> &[Entry];

    /// Cuts the trail, and appends it to what was cut before.
    fn cut_trail<N: PoolName, R: Wait>(
        rt: &R,
        pool: &SharedPool<N, Self>,
        taker: &mut Taker<N>,
        lists: &mut Lists,
    ) -> Answer;

    /// Cuts a session's list, and appends it to what was cut before.
    fn cut_list<N: PoolName>(session: &mut Session<N, Self>, cut: &mut Vec<Entry>) -> Answer;
}

/// Returns the answer of a cut if another cut, into the memory of its piece, needed none and found nothing.
fn once_more(answer: Answer, again: &Result<Vec<Entry>, Refusal>) -> Answer {
    match again {
        Ok(nothing) if nothing.is_empty() => answer,
        _ => Answer::Word("the next cut was refused the memory of this one"),
    }
}

impl Kind for RecordingKeeper {
    fn list<N: PoolName>(session: &Session<N, RecordingKeeper>) -> &[Entry] {
        session.said()
    }

    fn trail(core: &PoolCore<RecordingKeeper>) -> &[Entry] {
        core.trail()
    }

    fn cut_trail<N: PoolName, R: Wait>(
        rt: &R,
        pool: &SharedPool<N, RecordingKeeper>,
        taker: &mut Taker<N>,
        lists: &mut Lists,
    ) -> Answer {
        match pool.cut(rt, taker) {
            Ok(mut piece) => {
                let answer = lists.keep_entries(&mut piece);
                once_more(answer, &pool.cut_into(rt, taker, piece))
            }
            Err(refusal) => Answer::Refused(refusal),
        }
    }

    fn cut_list<N: PoolName>(
        session: &mut Session<N, RecordingKeeper>,
        cut: &mut Vec<Entry>,
    ) -> Answer {
        match session.cut() {
            Ok(mut piece) => {
                let count = piece.len() as u64;
                let answer = if join(cut, &mut piece) {
                    Answer::Number(count)
                } else {
                    LOST
                };
                once_more(answer, &session.cut_into(piece))
            }
            Err(refusal) => Answer::Refused(refusal),
        }
    }
}

impl Kind for SilentKeeper {
    fn list<N: PoolName>(_session: &Session<N, SilentKeeper>) -> &[Entry] {
        &[]
    }

    fn trail(_core: &PoolCore<SilentKeeper>) -> &[Entry] {
        &[]
    }

    fn cut_trail<N: PoolName, R: Wait>(
        _rt: &R,
        _pool: &SharedPool<N, SilentKeeper>,
        _taker: &mut Taker<N>,
        _lists: &mut Lists,
    ) -> Answer {
        Answer::Number(0)
    }

    fn cut_list<N: PoolName>(
        _session: &mut Session<N, SilentKeeper>,
        _cut: &mut Vec<Entry>,
    ) -> Answer {
        Answer::Number(0)
    }
}
