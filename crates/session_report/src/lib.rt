//! The report of a session, its summary, and the listing of a site's volumes.
//!
//! `report` puts the history of a session, its changes of rows, the volumes of its job as the devices show them, and
//! the copy of a volume that was taken in it; `summary` puts how many entries and changes it has
//! (`specs/Summaries.antt`), and `listing` every volume that has a row. What a report and a listing say is `told_text`
//! of `specs/Reports.antt`, which is made of the texts of `report_text` and of that of a copy (`specs/CopyTexts.antt`).
//! Both read the block of a track only where its cylinder isn't blank, write nothing, and answer over every site and
//! every sink: a failed read and a failing sink each have a count that rose. For a copy no block is read.
//!
//! The volumes are those that the rows handed in show over the devices (`shown_by` of `shown_volumes`). Where these are
//! the rows of the devices' content, they are the volumes that it shows (`law::rows_of_a_content_show_its_volumes`).
//!
//! Layers above cite lemmas of `proofs/`: reads of tracks, and calls that fail (`SiteReads`).
#![tactic(auto)]

mod all_volumes;
mod changes;
mod copies;
mod fault;
pub mod law;
mod place;
mod reporting;
mod summing;
mod volumes;

pub use all_volumes::listing;
pub use fault::ReportFault;
pub use reporting::{Last, report};
pub use summing::summary;
