//! `agrees`: compares a client's own list with the trail's entries of that client.
ghost use Rattle.std.specs.Prelude.{◌≡◌, ◌<◌, ◌↔◌, IsTrue, length, slice_index_or};
ghost use Rattle.bp_trail.specs.Clients.{of_client};

use bp_trail::{Call, Entry, Reply};

fn same_call(a: &Call, b: &Call) -> bool
    ensures { IsTrue result ↔ (a.now ≡ b.now) }
{
    *a == *b
}

fn same_reply(a: &Reply, b: &Reply) -> bool
    ensures { IsTrue result ↔ (a.now ≡ b.now) }
{
    *a == *b
}

/// Returns true if two entries have the same client, call and reply. Images and written bytes are compared byte by
/// byte.
fn same_entry(a: &Entry, b: &Entry) -> bool
    ensures { IsTrue result ↔ (a.now ≡ b.now) }
{
    a.client == b.client && same_call(&a.call, &b.call) && same_reply(&a.reply, &b.reply)
}

/// Returns true if the list has this entry at the place.
fn is_next(said: &[Entry], at: usize, e: &Entry) -> bool
    ensures { IsTrue result ↔ ((at < length said.now) ×
        (slice_index_or said.now at e.now ≡ e.now)) }
{
    at < said.len() && same_entry(&said[at], e)
}

/// Returns true if a client's own list has exactly the trail's entries of that client, in their order. Both lists are
/// oldest first. It takes no memory.
pub fn agrees(trail: &[Entry], said: &[Entry], client: u8) -> bool
    ensures { IsTrue result ↔ (said.now ≡ of_client client trail.now) }
{
    let mut at = 0;
    for e in trail {
        if e.client == client {
            if !is_next(said, at, e) {
                return false;
            }
            at += 1;
        }
    }
    at == said.len()
}
