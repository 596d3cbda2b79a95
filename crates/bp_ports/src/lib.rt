//! The interface `Port` by which a client reads and writes the pages of a device, and its ports: to a page file and to a
//! device in memory. Also how page files are made, and migrated to version 2.
#![tactic(auto)]

mod failures;
pub mod files;
pub mod memory;
pub mod migration;
pub mod new_files;
mod places;
pub mod port;
pub mod progress;
pub mod store;
pub mod striped;

pub use failures::Failures;
pub use files::{FilePort, OpenFault, geometry_of_file};
pub use memory::{MemDevice, MemPort};
pub use migration::{MigrateFault, migrate_watched, migrate_with};
pub use new_files::{create_page_file, create_striped_file};
pub use port::Port;
pub use progress::{Progress, Unwatched};
pub use store::Store;
pub use striped::{MAX_PARTS, StripedPort, geometry_of_stripe};
