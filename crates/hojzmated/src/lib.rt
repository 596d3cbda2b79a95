//! The buffer pool as one library, for engines in Rattle: an engine's line in crates.txt names this crate alone.
//!
//! It has no code: it re-exports items of the crates below, where their contracts are. It re-exports the definitions
//! that those contracts cite too: `Rattle.hojzmated.specs.Outcomes` is that of `bp_core`.
#![tactic(auto)]

// Pages, and the numbers of refusals.
pub use bp_page::{
    Bytes, Format, Geometry, Image, Lsn, PageNo, PortFault, Refusal, explanation_of,
};

// Cores with K and the periods of LRU-K, keepers, entries of trails, passes and tickets.
pub use bp_core::{
    Config, Core, EndRefusal, Ended, Fix, Flush, NotFlushed, Pass, PassNote, PoolCore, ReadTicket,
    Settings, SilentCore, Stats, WriteTicket,
};
pub use bp_keeper::{Keeper, ListKeeper, RecordingKeeper, SilentKeeper};
pub use bp_trail::{Call, Discarded, Entry, Flushed, Grant, Reply, Totals};

// Records of a log, and redo of them after a crash.
pub use bp_trail::{LogRecord, redo_page, redo_record};

// Ports, and page files.
pub use bp_ports::{
    FilePort, MemDevice, MemPort, MigrateFault, OpenFault, Port, Progress, Store, StripedPort,
    Unwatched, create_page_file, create_striped_file, geometry_of_file, geometry_of_stripe,
    migrate_watched, migrate_with,
};

// A pool with one owner, and calls that do a whole fix or flush of a core, with its reads and writes.
pub use bp_device::{OwnedPool, drive_fix, drive_flush, drive_flush_all, drive_new};

// Workers over one pool.
pub use bp_workers::{
    Asked, Client, DurableLog, Kind, Leading, Left, Log, Patience, Run, SharedState, SharingWorker,
    Upkeep, WithReceipt, Worker, fix_durably, run_sharing_workers, run_workers, run_workers_over,
};

// Workers over a pool in parts: shared pools side by side, each over a stripe of one file.
pub use bp_part_workers::{
    LogState, PartedClient, PartedLeft, PartedRun, PartedWorker, SharedLog, run_parted,
};
pub use bp_parts::{
    EndRoom, EndedParts, PartCount, PartPass, Parted, PartedLog, PartedPool, PartedSession,
    end_parts, make_parts, new_cores, new_names,
};

// The shared pool that workers use, and what it is made of, for an engine that runs its own threads.
pub use bp_mark::{LogEnd, Mark, Reader};
pub use bp_session_log::{Book, Room};
pub use bp_shared::{
    ClosedPool, LogWriter, PartNames, Parts, PoolName, Receipt, Session, SharedPool, SilentPool,
    SilentSession, Taker, TrailRing,
};
