// What a session is made of.
use seen_book::Name;
use std::marker::Brand;

/// A name that tells, besides, of what the session is made: the core that it began with, what of its devices may have
/// failed then, and which copy of a volume is asked for. Pass std's `Brand`, as for every name.
pub trait Setup: Name {
    ghost use Rattle.mss_run.specs.Beginning.{SetupData};

    ghost setup: { SetupData };
}

impl Setup for Brand {
    ghost use Rattle.mss_run.specs.Beginning.{no_setup};

    ghost setup = { no_setup };
}
