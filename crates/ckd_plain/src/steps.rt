//! The steps of a command, for an engine that keeps its tracks elsewhere: each is the step of the definition that has
//! its name, whatever holds the records.
pub use crate::answer::{
    admitted_in_chain, cleared, finished, opened, refused, refused_by, sense_of,
};
pub use crate::checks::number_at;
pub use crate::control::{control, is_data, run_control};
pub use crate::done::{DONE, DoneCommand, END_OF_FILE, MET, UNIT_CHECK};
pub use crate::found::FoundRecord;
pub use crate::index::{candidate, pass_index, to_home};
pub use crate::read::{at_hand, home_read, record_zero_read};
pub use crate::response::{checked, respond, respond_command};
pub use crate::search::{home_searched, key_at_hand};
pub use crate::write::written;
