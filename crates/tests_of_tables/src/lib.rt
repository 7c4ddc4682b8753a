//! Rows, their two copies, and what a restart finds, each said by value.
//!
//! Nothing stands on this crate. What is done to devices in memory, and what they then tell, stands in texts, a
//! line for each call: rows changed, tracks copied, surveys and openings, with each call failing in turn and a stop
//! at each moment. A proof doesn't read a text, so it goes through the functions alone that do a line. What needs
//! no failing call and no stop, `tests/test_rows.py` shows on the built program.
#![tactic(auto)]

#[cfg(test)]
mod lines;
#[cfg(test)]
mod lost_table;
#[cfg(test)]
mod openings;
#[cfg(test)]
mod row_copies;
#[cfg(test)]
mod survey_tables;
#[cfg(test)]
mod track_copies;
