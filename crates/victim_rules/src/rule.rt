//! Rules of replacement.
use mss_base::VolumeNo;

/// What a rule keeps of the candidates of a list.
#[derive(Clone, Copy)]
pub enum Rule {
    /// Those of which no cylinder has to be destaged.
    Clean,
    /// Those whose volume has more than so many candidates in the list that the chooser was given.
    Quota(u16),
    /// Those that aren't of this volume.
    Avoid(VolumeNo),
}
