//! The survey of a site: the rows of its volumes, or the first fault of what it holds. And its opening: the rows are
//! repaired, migrated to version 2, and their slots in use counted; volumes that have none get one, and marks change.
//!
//! The layers above rely on `survey` and on `open_rows`, which answer over every content and every failing device. The
//! survey writes nothing. Where no read failed its answer is exactly `first_fault` of `shown_volumes`; where one failed
//! it is that of the rows as they were read. `specs/Survey.antt` says both, and which count of faults `RowUnread` and
//! `Stopped` keep; `specs/Opening.antt` says what an opened site is, and what it shows at each moment within. A survey
//! takes memory for the rows and for two blocks, and reads each block that is shown once. Where each copy of a row
//! tells it alone, one unit of the table that can't be read changes nothing (`specs/OneCopy.antt`); lemmas on it,
//! which the layers above cite, are `proofs/OneCopy.antt` and `proofs/OneTable.antt`.
//!
//! `serial_asked`, `serial_fault`, `half_fault`, `page_fault` and `check_track_of` look at one item each, for a list
//! of all that is wrong; a proof above may cite `ListedFacts` (what a blank cylinder and a volume without a row
//! lack).
//!
//! Layers above also cite lemmas of `proofs/`: one creation (`FreshFacts`), opening changes one after another
//! (`Creating`), the rows after all of them (`OpenedRows`), repairs (`Repaired`), what is loose of all these
//! (`Settling`), and rows that stand beside each other (`UsableFacts`).
#![tactic(auto)]

mod cartridges;
mod creations;
mod halves;
mod marks;
mod migrations;
mod opening;
mod pages;
mod repairs;
mod rows;
mod steps;
mod surveying;
mod tracks;

pub use halves::half_fault;
pub use opening::{Opened, open_rows};
pub use pages::page_fault;
pub use rows::{serial_asked, serial_fault};
pub use shown_volumes::{Half, Refused};
pub use steps::{OpeningStep, OpeningSteps};
pub use surveying::survey;
pub use tracks::check_track_of;
