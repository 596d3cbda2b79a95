//! `Script`, the lines of a run as rows of its client threads.

use bp_page::Geometry;
use bp_scripts::{Row, Step};
use bp_trace::read_script;
use std::alloc::Global;

/// The client of a line's row, and whether the row is a read.
#[derive(Clone, Copy)]
pub(crate) struct Asked {
    pub(crate) client: u8,
    pub(crate) reads: bool,
}

#[derive(Drop)]
pub(crate) struct Script {
    /// What each line asks for, or None where it is no row of a client.
    pub(crate) asked: Vec<Option<Asked>>,
    /// The rows of each client. Their numbers are those of their lines, from 1.
    pub(crate) by_client: Vec<Vec<Row>>,
}

/// Parses a line as a row. It returns None where it is none, or memory is refused.
fn row_of(alloc: Global, geometry: &Geometry, line: &str, number: u64) -> Option<Row> {
    let mut rows = read_script(alloc, &mut line.as_bytes(), geometry).ok()?;
    let mut row = rows.pop()?;
    row.row = number;
    Some(row)
}

/// Parses a line as a row. Where memory may have been refused, it tries again.
fn row_again(alloc: Global, geometry: &Geometry, line: &str, number: u64) -> Option<Row> {
    match row_of(alloc, geometry, line, number) {
        Some(row) => Some(row),
        None => row_of(alloc, geometry, line, number),
    }
}

impl Script {
    /// Appends a row to its client's script, if there is such a client, and tries again where memory is refused.
    fn put(&mut self, row: Row) -> Option<Asked> {
        let asked = Asked {
            client: row.client,
            reads: matches!(row.step, Step::Read(_)),
        };
        let script: &mut Vec<Row> = self.by_client.get_mut(row.client as usize)?;
        match script.push(row) {
            Ok(()) => Some(asked),
            Err(refused) => {
                script.push(refused.value).ok()?;
                Some(asked)
            }
        }
    }

    /// Takes the row of a line, if the line is one. It returns false where memory is refused.
    fn take(&mut self, row: Option<Row>) -> bool {
        let asked = match row {
            Some(row) => self.put(row),
            None => None,
        };
        self.asked.push(asked).is_ok()
    }
}

/// Makes empty scripts for so many clients. It returns None where memory is refused.
fn empty(alloc: Global, clients: u8) -> Option<Script> {
    let mut by_client = Vec::new(alloc);
    for _ in 0..clients {
        by_client.push(Vec::new(alloc)).ok()?;
    }
    Some(Script {
        asked: Vec::new(alloc),
        by_client,
    })
}

/// Returns the rows of these lines, or None where memory is refused.
pub(crate) fn script_of(
    alloc: Global,
    geometry: &Geometry,
    clients: u8,
    lines: &[String],
) -> Option<Script> {
    let mut script = empty(alloc, clients)?;
    let mut number = 0u64;
    for line in lines {
        number = number.saturating_add(1);
        if !script.take(row_again(alloc, geometry, line.as_str(), number)) {
            return None;
        }
    }
    Some(script)
}
