//! The text of a report, and the functions that put it into a sink, line by line.
//!
//! Each function puts one part: the history, a volume's heading, a track, the last line, or an output of one line. Its
//! clause says which text was put, or after a fault a front of it. The history, a heading and a track are made in a
//! buffer first, so they may want memory (`ReportFault`); every other line wants none, and fails with the sink alone
//! (`Failed`). The texts are defined in specs/Texts.antt and specs/OneLines.antt. The layer above puts the parts one
//! behind the other, by the lemmas of `mss_base`'s proofs/Putting.antt and of proofs/TrackTexts.antt here. What a refusal
//! says behind other words is `put_refused`'s (specs/Refusals.antt), of which `law` says how it stands to a refusal's line.
//!
//! Layers above cite lemmas of `proofs/`: lines one after another (`LineLemmas`).
#![tactic(auto)]

mod changes;
pub mod law;
mod one_line;
mod pieces;
mod refusal;
mod report;
mod text;

pub use one_line::{OneLine, put_line};
pub use pieces::{put_numbered, put_pieces, put_text};
pub use refusal::{copy_name, put_refused, put_row_damaged};
pub use report::{
    ReportFault, put_change, put_end, put_heading, put_history, put_limit, put_stopped, put_title,
    put_track,
};
