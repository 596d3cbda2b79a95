//! `play_pool`, which plays all lines of a pool that sessions use in turn.
ghost use Rattle.std.specs.Prelude.{◌≡◌};

use crate::answers::Answers;
use crate::kinds::Kind;
use crate::making::{Made, make};
use crate::tables::open;
use bp_page::Refusal;
use bp_shared::PoolName;
use bp_trail::Reply;
use scenario_cores::Pool;
use scenario_words::{Answer, Shape, Way};
use std::alloc::Global;
use std::marker::Brand;
use std::sync::Wait;

/// The way, the shape and the lines of a pool, except for the line that makes it.
#[derive(Clone, Copy)]
struct Play<'a> {
    alloc: Global,
    way: Way,
    shape: &'a Shape,
    lines: &'a [String],
}

/// Plays the lines over a new pool. It returns the pool's core, or the refusal of the pool.
fn play_over<N: PoolName, K: Kind, R: Wait>(
    rt: &R,
    play: &Play<'_>,
    made: Made<K>,
    answers: &mut Answers,
) -> Result<Pool<K>, Refusal>
    requires mark { made.parts.mark ≡ N.mark }
    requires parameters { made.core.parameters ≡ N.parameters }
    requires before { made.core.before ≡ N.before }
    requires past { made.core.past ≡ N.past }
    requires ring { made.parts.ring ≡ N.ring }
{
    let mut table = match open::<N, K>(play.alloc, play.way, made) {
        Ok(table) => table,
        Err(refusal) => return Err(refusal),
    };
    answers.add(Some(Answer::Reply(Reply::Done)));
    if let Some((_, calls)) = play.lines.split_last() {
        table.take_all(rt, calls, answers);
    }
    Ok(table.finish(answers))
}

fn try_play<K: Kind, R: Wait>(
    rt: &R,
    play: &Play<'_>,
    answers: &mut Answers,
) -> Result<Pool<K>, Refusal> {
    match make::<K>(play.alloc, play.shape) {
        Ok(made) => play_over::<Brand, K, R>(rt, play, made, answers),
        Err(refusal) => Err(refusal),
    }
}

/// Plays a pool of this shape by the lines after the one that makes it; the last of them ends it. It returns the pool's
/// core, with what was cut off its trail. A pool that is refused memory is made again; where it is refused, there is no
/// core, and no line was called.
pub fn play_pool<K: Kind, R: Wait>(
    rt: &R,
    alloc: Global,
    way: Way,
    shape: &Shape,
    lines: &[String],
    answers: &mut Answers,
) -> Option<Pool<K>> {
    let play = Play {
        alloc,
        way,
        shape,
        lines,
    };
    let played = match try_play::<K, R>(rt, &play, answers) {
        Err(Refusal::OutOfMemory) => {
            answers.count();
            try_play::<K, R>(rt, &play, answers)
        }
        played => played,
    };
    match played {
        Ok(pool) => Some(pool),
        Err(refusal) => {
            answers.refuse(refusal, lines.len().saturating_add(1));
            None
        }
    }
}
