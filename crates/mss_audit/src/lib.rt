//! The audit of a site: all that is wrong with what it holds, where a restart tells the first fault alone.
//!
//! `specs/Findings.antt` says which findings a content has and in which order, by the rules of one row, half, page and
//! track of which `shown_volumes` makes its first fault. The layers above rely on `audit`, which over a site that tells
//! lists exactly these and writes nothing, and on `law`: the first finding that is a refusal is the first fault.
//! `specs/Auditing.antt` says what an audit leaves of a site, and when it lists nothing. `put_audit` and `put_unread`
//! put the text of an audit into a sink, and want no memory (`specs/Texts.antt`).
#![tactic(auto)]

mod auditing;
mod copies;
mod finding;
mod halves;
pub mod law;
mod listing;
mod pages;
mod rows;
mod texts;
mod tracks;

pub use auditing::audit;
pub use finding::{AuditFault, Finding, Findings};
pub use texts::{put_audit, put_unread};
