//! `split`, which splits the rows of a trace into a script for each client.
ghost use Rattle.std.specs.Prelude.{◌≡◌, ◌≢◌, ◌<◌, ◌++◌, ◌∷◌, ℕ, All, IfOk, OnOk, OnErr, [], length, vec_len};
ghost use Rattle.bp_replay.specs.Scripts.{list_of, lists};
ghost use Rattle.bp_run.specs.Scripts.{clients_of, scripts_for};

use bp_page::Refusal;
use bp_scripts::Row;
use std::alloc::Global;

/// Returns the number of clients of a run: one more than the greatest client number.
pub fn client_count(rows: &[Row]) -> usize
    ensures { result ≡ clients_of rows.now }
{
    let mut greatest = 0;
    for row in rows {
        greatest = row.client.max(greatest);
    }
    greatest as usize + 1
}

fn empty_scripts(alloc: Global, clients: usize) -> Result<Vec<Vec<Row>>, Refusal>
    ensures count { IfOk result (λ scripts. vec_len scripts ≡ clients) }
    ensures empty { IfOk result (λ scripts. (c : ℕ) → list_of c (lists scripts.items) ≡ []) }
    ensures refused { OnErr result (result ≡ Err Refusal.OutOfMemory) }
{
    let mut scripts = Vec::with_capacity(alloc, clients)?;
    for _ in 0..clients {
        scripts.push_reserved(Vec::new(alloc));
    }
    Ok(scripts)
}

/// Appends a row to its client's script.
fn add_row(scripts: &mut [Vec<Row>], row: Row) -> Result<(), Refusal>
    requires { row.client < length scripts.old }
    ensures count { length scripts.new ≡ length scripts.old }
    ensures own { OnOk result (list_of row.client (lists scripts.new) ≡ list_of row.client
        (lists scripts.old) ++ row ∷ []) }
    ensures others { OnOk result ((c : ℕ) → c ≢ row.client →
        list_of c (lists scripts.new) ≡ list_of c (lists scripts.old)) }
    ensures refused { OnErr result (result ≡ Err Refusal.OutOfMemory) }
{
    let script = &mut scripts[row.client as usize];
    let Ok(()) = script.push(row) else {
        return Err(Refusal::OutOfMemory);
    };
    Ok(())
}

/// Splits the rows into a script for each of so many clients, from client 0 on. The rows of each client stay in order.
/// It is `OutOfMemory` where memory is refused.
pub fn split(alloc: Global, rows: Vec<Row>, clients: usize) -> Result<Vec<Vec<Row>>, Refusal>
    requires { All (λ row. row.client < clients) rows.items }
    ensures scripts { IfOk result (λ scripts.
        lists scripts.items ≡ scripts_for clients rows.items) }
    ensures refused { OnErr result (result ≡ Err Refusal.OutOfMemory) }
{
    let mut scripts = empty_scripts(alloc, clients)?;
    for row in rows {
        add_row(&mut scripts, row)?;
    }
    Ok(scripts)
}
