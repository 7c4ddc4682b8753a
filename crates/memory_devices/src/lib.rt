//! Devices in memory, of which given calls fail: a site, a source and a sink, and a site that tells nothing.
//!
//! Tests stand on them, laws that show that a premise over any site can be met, and comparisons of choosers. A
//! `MemorySite` tells all (`specs/MemorySite.antt`): it keeps its log, and `image` is what a stop leaves of it, with
//! a tear of what is loose and of the write under way (`specs/Tears.antt`). A `SilentSite` forgets what is written,
//! so that code may rest on no more than it is told.
#![tactic(auto)]

mod calls;
mod memory;
mod memory_sink;
pub mod memory_site;
mod memory_source;
mod silent_site;
pub mod tearing;
mod write_log;

pub use memory_sink::MemorySink;
pub use memory_site::{ImageFault, MemorySite, SiteFault};
pub use memory_source::MemorySource;
pub use silent_site::SilentSite;
pub use tearing::Tear;
