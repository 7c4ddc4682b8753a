//! What the program does: a whole run, a look at the volumes, an audit, and a comparison of choosers.
//!
//! `serial` does a run; its clause `ended` (`specs/Serial.antt`) is the promise of this repository. It reads the
//! words, the job and draws the turns (`admission.rt`), and runs the job on the site by `job_runs`. `threads` does one
//! with a thread for each host and each recorder, by `thread_runs` (`specs/Threads.antt`). `show` lists the volumes of
//! a site (`specs/Showing.antt`), and `audit_site` all that is wrong with it, by `mss_audit` (`specs/Auditing.antt`).
//! `compare` runs a job by four choosers, each on devices of its own, by `compared_runs` (`specs/Comparing.antt`).
//! `obey` does whichever of the five the words ask for, or a run of `serial` in which rules choose
//! (`specs/Obeying.antt`). Contracts speak of input, devices and output as parties: what each told before and after,
//! and its counts of faults.
#![tactic(auto)]

mod admission;
mod at_once;
mod auditing;
mod comparing;
mod copying;
mod ending;
mod input;
mod obeying;
mod run;
mod showing;
mod status;

pub use at_once::{EndedAtOnce, threads};
pub use auditing::audit_site;
pub use comparing::{Compared, compare};
pub use ending::Ended;
pub use input::{InputFault, read_input};
pub use obeying::obey;
pub use run::serial;
pub use showing::show;
pub use status::Status;
