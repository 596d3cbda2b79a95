//! The types that all other crates share: page numbers, LSNs, page images, the geometry of a file, its formats, and the
//! reasons for which a call is refused.
#![tactic(auto)]

mod explained;
pub mod images;
pub mod limits;
pub mod numbers;
pub mod refusals;
pub mod slots;

pub use explained::explanation_of;
pub use images::{Bytes, Image};
pub use limits::Geometry;
pub use numbers::{Lsn, PageNo};
pub use refusals::{PortFault, Refusal};
pub use slots::{Format, fill_slot2, slot, slot2, unslot, unslot2};
