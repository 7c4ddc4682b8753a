// What an opening did to the volumes, step by step.
use mss_base::{Listed, VolumeNo};
use volume_table::Change;

/// A change of a volume's row that was made in the opening, and how many writes the site counted behind its last one.
#[derive(Clone, Copy)]
pub struct OpeningStep {
    pub volume: VolumeNo,
    pub change: Change,
    pub writes: u64,
}

/// Steps in the order in which they were made.
pub type OpeningSteps = Listed<OpeningStep>;
