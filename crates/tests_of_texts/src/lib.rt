//! Jobs, lines and files, each said by value.
//!
//! Nothing stands on this crate. Its tests show a job text that is read and written; what is put where
//! a put fails; a site in a folder, and the blocks that a site over failing files keeps. Which words and
//! jobs are refused or taken, what numbers draw, and each line of reports and listings, `tests` and the
//! examples show on the built program; reports of which a read fails, `tests_of_jobs`.
#![tactic(auto)]

#[cfg(test)]
mod job_texts;
#[cfg(test)]
mod kept_blocks;
#[cfg(test)]
mod report_lines;
#[cfg(test)]
mod sites;
#[cfg(test)]
mod written;
