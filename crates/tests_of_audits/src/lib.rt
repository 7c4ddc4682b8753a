//! An audit of devices in memory, said by the text that is put.
//!
//! Nothing stands on this crate. A row is put in both copies, by its bytes, with two serials; the audit is told as a
//! program would tell it that asks for one of them. All else that an audit lists, `tests/test_audit.py` shows.
#![tactic(auto)]

#[cfg(test)]
mod audits;
#[cfg(test)]
mod told;
