//! Calls on a core that has one owner, with their device work done: the drivers and `OwnedPool`. The ports are those of
//! `bp_ports`.
#![tactic(auto)]

pub mod drivers;
pub mod flush_all;
pub mod owned_pool;
mod owner;

pub use bp_core::NotFlushed;
pub use bp_ports::{
    FilePort, MemDevice, MemPort, OpenFault, Port, create_page_file, geometry_of_file,
};
pub use bp_trail::Flushed;
pub use drivers::{drive_fix, drive_flush, drive_new};
pub use flush_all::drive_flush_all;
pub use owned_pool::OwnedPool;
