// What a stop within a session leaves, torn, and which volumes the next start shows of it.
ghost use Rattle.serial_driver.specs.Drives.{IsUnused};

use crate::items::{FORMAT_ITEMS, SYNC_ITEMS, UPDATE_ITEMS};
use crate::jobs::{REPLACEMENT, THREE_RECORDS, UPDATE, WRITE_AND_READ};
use crate::marks::{
    APPENDED, APPENDED_AGAIN, CHANGED, REPLACED_ONCE, RETURNED, STAGED, THREE_APPENDED,
};
use crate::running::{NONE_FAILS, failing_site, job_of};
use core_restart::restart;
use core_state::Core;
use job_text::Job;
use memory_devices::{MemorySink, MemorySite, Tear};
use mss_base::{Bytes, Config, NoMemory, Site};
use serial_driver::{Drive, DriveAnswer};
use session_report::listing;
use std::alloc::Global;
use victim_choice::{Choose, Lru};

/// What a stop makes of what isn't firm.
#[derive(Clone, Copy)]
enum Torn {
    /// Loose writes are there, and the next one isn't.
    Whole,
    /// Loose writes are there, and the next one has these bytes, cut or padded with zeros.
    Next(&'static [u8]),
    /// Loose writes and the next one have this byte everywhere.
    Filled(u8),
    /// All is as it was before them.
    Lost,
}

/// What the next start shows behind a stop at each moment from the first to the last.
#[derive(Clone, Copy)]
struct Stops {
    torn: &'static [Torn],
    first: u64,
    last: u64,
    shows: &'static str,
}

/// A session that is stopped, so many writes and syncs long, behind another one on its devices.
#[derive(Clone, Copy)]
struct Stopped {
    before: Option<&'static str>,
    job: &'static str,
    items: u64,
    stops: &'static [Stops],
}

const NO_TRACK: &str = "MSS VOLUMES 1\nvolume 0 VOL001\nEND\n";

// ---- A record of three bytes is updated, by one write and its sync. Between them its bytes may be any.

const OLD_BYTES: &str =
    "MSS VOLUMES 1\nvolume 0 VOL001\ntrack 5 3\nrecord 0005000301 - 414243\nEND\n";

const NEW_BYTES: &str =
    "MSS VOLUMES 1\nvolume 0 VOL001\ntrack 5 3\nrecord 0005000301 - 58595A\nEND\n";

const TORN_BYTES: &str =
    "MSS VOLUMES 1\nvolume 0 VOL001\ntrack 5 3\nrecord 0005000301 - FF00FF\nEND\n";

const SET_BYTES: &str =
    "MSS VOLUMES 1\nvolume 0 VOL001\ntrack 5 3\nrecord 0005000301 - FFFFFF\nEND\n";

const ZERO_BYTES: &str =
    "MSS VOLUMES 1\nvolume 0 VOL001\ntrack 5 3\nrecord 0005000301 - 000000\nEND\n";

const UPDATE_STOPS: &[Stops] = &[
    Stops {
        torn: &[Torn::Next(&[0xFF, 0, 0xFF])],
        first: SYNC_ITEMS,
        last: SYNC_ITEMS,
        shows: TORN_BYTES,
    },
    Stops {
        torn: &[Torn::Next(&[0xFF, 0xFF, 0xFF])],
        first: SYNC_ITEMS,
        last: SYNC_ITEMS,
        shows: SET_BYTES,
    },
    Stops {
        torn: &[Torn::Whole, Torn::Next(&[0xFF, 0xFF, 0xFF])],
        first: SYNC_ITEMS + 1,
        last: SYNC_ITEMS + UPDATE_ITEMS,
        shows: NEW_BYTES,
    },
    Stops {
        torn: &[Torn::Filled(0)],
        first: SYNC_ITEMS + 1,
        last: SYNC_ITEMS + 1,
        shows: ZERO_BYTES,
    },
    Stops {
        torn: &[Torn::Filled(0xFF)],
        first: SYNC_ITEMS + 1,
        last: SYNC_ITEMS + 1,
        shows: SET_BYTES,
    },
    Stops {
        torn: &[Torn::Lost],
        first: SYNC_ITEMS,
        last: SYNC_ITEMS + 1,
        shows: OLD_BYTES,
    },
    Stops {
        torn: &[Torn::Filled(0), Torn::Filled(0xFF), Torn::Lost],
        first: SYNC_ITEMS + UPDATE_ITEMS,
        last: SYNC_ITEMS + UPDATE_ITEMS,
        shows: NEW_BYTES,
    },
];

// ---- The cylinder is told as changed in both copies of its row, before the record is written.

const CHANGE_STOPS: &[Stops] = &[Stops {
    torn: &[
        Torn::Next(&[0xC1]),
        Torn::Next(&[0]),
        Torn::Whole,
        Torn::Filled(0),
        Torn::Filled(0xFF),
        Torn::Lost,
    ],
    first: STAGED,
    last: CHANGED,
    shows: NO_TRACK,
}];

// ---- Three records stand on a track. The gate of the second is closed and synced; that of the third is closed, the new
// second one is put, and both are synced; its gate is opened and synced.

const THREE: &str =
    "MSS VOLUMES 1\nvolume 0 VOL001\ntrack 0 0\nrecord 0000000001 - 41\nrecord 0000000002 - 42\nrecord 0000000003 - 43\nEND\n";

const FIRST_ALONE: &str =
    "MSS VOLUMES 1\nvolume 0 VOL001\ntrack 0 0\nrecord 0000000001 - 41\nEND\n";

const NEW_SECOND: &str =
    "MSS VOLUMES 1\nvolume 0 VOL001\ntrack 0 0\nrecord 0000000001 - 41\nrecord 0000000002 - 58\nEND\n";

const FORMATTED: u64 = THREE_APPENDED + FORMAT_ITEMS;

const FORMAT_STOPS: &[Stops] = &[
    Stops {
        torn: &[Torn::Whole],
        first: THREE_APPENDED,
        last: THREE_APPENDED,
        shows: THREE,
    },
    Stops {
        torn: &[Torn::Whole],
        first: THREE_APPENDED + 1,
        last: FORMATTED - 2,
        shows: FIRST_ALONE,
    },
    Stops {
        torn: &[Torn::Whole],
        first: FORMATTED - 1,
        last: FORMATTED,
        shows: NEW_SECOND,
    },
    Stops {
        torn: &[Torn::Lost],
        first: THREE_APPENDED,
        last: THREE_APPENDED + 1,
        shows: THREE,
    },
    Stops {
        torn: &[Torn::Lost],
        first: THREE_APPENDED + 2,
        last: FORMATTED - 1,
        shows: FIRST_ALONE,
    },
    Stops {
        torn: &[Torn::Filled(0), Torn::Filled(0xFF)],
        first: THREE_APPENDED,
        last: FORMATTED - 1,
        shows: FIRST_ALONE,
    },
    Stops {
        torn: &[Torn::Filled(0), Torn::Filled(0xFF), Torn::Lost],
        first: FORMATTED,
        last: FORMATTED,
        shows: NEW_SECOND,
    },
];

// ---- One frame for two pages. A record is there once its gate is open, and stays once that is firm, whichever page has
// the frame.

const SHOWN: u64 = APPENDED - 1;

const SHOWN_AGAIN: u64 = APPENDED_AGAIN - 1;

const BOTH: &str =
    "MSS VOLUMES 1\nvolume 0 VOL001\ntrack 0 0\nrecord 0000000001 - 41\ntrack 8 0\nrecord 0008000001 - 42\nEND\n";

const REPLACEMENT_STOPS: &[Stops] = &[
    Stops {
        torn: &[Torn::Whole],
        first: 0,
        last: SHOWN - 1,
        shows: NO_TRACK,
    },
    Stops {
        torn: &[Torn::Whole],
        first: SHOWN,
        last: SHOWN_AGAIN - 1,
        shows: FIRST_ALONE,
    },
    Stops {
        torn: &[Torn::Whole],
        first: SHOWN_AGAIN,
        last: RETURNED,
        shows: BOTH,
    },
    Stops {
        torn: &[Torn::Filled(0xFF)],
        first: 0,
        last: SHOWN,
        shows: NO_TRACK,
    },
    Stops {
        torn: &[Torn::Filled(0xFF)],
        first: SHOWN + 1,
        last: SHOWN_AGAIN,
        shows: FIRST_ALONE,
    },
    Stops {
        torn: &[Torn::Filled(0xFF)],
        first: SHOWN_AGAIN + 1,
        last: RETURNED,
        shows: BOTH,
    },
    Stops {
        torn: &[Torn::Next(&[0xFF, 0, 0xFF])],
        first: APPENDED,
        last: REPLACED_ONCE,
        shows: FIRST_ALONE,
    },
];

const SESSIONS: &[Stopped] = &[
    Stopped {
        before: Some(WRITE_AND_READ),
        job: UPDATE,
        items: SYNC_ITEMS + UPDATE_ITEMS,
        stops: UPDATE_STOPS,
    },
    Stopped {
        before: None,
        job: WRITE_AND_READ,
        items: APPENDED,
        stops: CHANGE_STOPS,
    },
    Stopped {
        before: None,
        job: THREE_RECORDS,
        items: FORMATTED,
        stops: FORMAT_STOPS,
    },
    Stopped {
        before: None,
        job: REPLACEMENT,
        items: RETURNED,
        stops: REPLACEMENT_STOPS,
    },
];

/// The devices that a session leaves at its end.
fn played<S: Site + Drop, C: Choose + Drop>(core: Core<S, C>, job: &Job) -> Option<S>
    requires { IsUnused core job.now }
{
    let Ok(mut drive) = Drive::new(core, job, None) else {
        return None;
    };
    let answer = drive.run_to_end();
    let (core, _) = drive.into_core();
    let (site, _session, _rows) = core.into_session();
    match answer {
        DriveAnswer::Done => Some(site),
        _ => None,
    }
}

fn run_on<S: Site + Drop, C: Choose + Drop>(
    alloc: Global,
    job: &Job,
    site: S,
    chooser: C,
) -> Option<S>
    requires { C.can_choose chooser }
{
    match restart(alloc, site, &job.config, chooser) {
        Ok(core) => played(core, job),
        Err(_) => None,
    }
}

/// Devices that hold what others do, with no writes yet.
fn left_by(alloc: Global, text: &str) -> Option<MemorySite> {
    let job = job_of(alloc, text)?;
    let site = run_on(alloc, &job, failing_site(alloc, NONE_FAILS)?, Lru)?;
    site.image(site.writes(), None).ok()
}

/// The devices of a session at its end.
fn devices_of(alloc: Global, stopped: &Stopped, job: &Job) -> Option<MemorySite> {
    let site = match stopped.before {
        Some(text) => left_by(alloc, text)?,
        None => failing_site(alloc, NONE_FAILS)?,
    };
    run_on(alloc, job, site, Lru)
}

fn tear_of(alloc: Global, torn: Torn) -> Result<Option<Tear>, NoMemory> {
    match torn {
        Torn::Whole => Ok(None),
        Torn::Next(bytes) => Ok(Some(Tear::Write(Bytes::of(alloc, bytes)?))),
        Torn::Filled(byte) => Ok(Some(Tear::Fill(byte))),
        Torn::Lost => Ok(Some(Tear::Lost)),
    }
}

/// Whether this is the listing of the volumes with which a session begins.
fn lists<S: Site + Drop, C: Choose + Drop>(alloc: Global, core: Core<S, C>, shown: &str) -> bool {
    let (mut site, _session, rows) = core.into_session();
    let Ok(mut sink) = MemorySink::new(alloc, &[]) else {
        return false;
    };
    listing(alloc, &mut site, &rows, &mut sink).is_ok() && sink.bytes() == shown.as_bytes()
}

fn shows<S: Site + Drop, C: Choose + Drop>(
    alloc: Global,
    config: &Config,
    site: S,
    chooser: C,
    shown: &str,
) -> bool
    requires { C.can_choose chooser }
{
    match restart(alloc, site, config, chooser) {
        Ok(core) => lists(alloc, core, shown),
        Err(_) => false,
    }
}

/// Whether a start shows this of what a stop at a moment leaves.
fn shows_then(
    alloc: Global,
    config: &Config,
    site: &MemorySite,
    moment: u64,
    torn: Torn,
    shown: &str,
) -> bool {
    let Ok(tear) = tear_of(alloc, torn) else {
        return false;
    };
    match site.image(moment, tear.as_ref()) {
        Ok(left) => shows(alloc, config, left, Lru, shown),
        Err(_) => false,
    }
}

/// The first moment behind which something else is shown.
fn other_moment(
    alloc: Global,
    config: &Config,
    site: &MemorySite,
    stops: &Stops,
    torn: Torn,
) -> Option<u64> {
    for moment in stops.first..=stops.last {
        if !shows_then(alloc, config, site, moment, torn, stops.shows) {
            return Some(moment);
        }
    }
    None
}

/// The place of the first row of which a tear leaves something else, and the moment.
fn other_row(
    alloc: Global,
    config: &Config,
    site: &MemorySite,
    rows: &[Stops],
) -> Option<(usize, u64)> {
    for (place, stops) in rows.iter().enumerate() {
        for torn in stops.torn {
            if let Some(moment) = other_moment(alloc, config, site, stops, *torn) {
                return Some((place, moment));
            }
        }
    }
    None
}

/// Behind the last item there is no moment.
fn other_stop(alloc: Global, stopped: &Stopped) -> Option<(usize, u64)> {
    let Some(job) = job_of(alloc, stopped.job) else {
        return Some((0, u64::MAX));
    };
    let Some(site) = devices_of(alloc, stopped, &job) else {
        return Some((1, u64::MAX));
    };
    if site.writes() != stopped.items || site.image(stopped.items.saturating_add(1), None).is_ok() {
        return Some((2, u64::MAX));
    }
    other_row(alloc, &job.config, &site, stopped.stops)
}

/// The place of the first session of which a stop leaves something else.
fn other_session(alloc: Global) -> Option<(usize, (usize, u64))> {
    for (place, stopped) in SESSIONS.iter().enumerate() {
        if let Some(other) = other_stop(alloc, stopped) {
            return Some((place, other));
        }
    }
    None
}

#[test]
fn each_stop_of_a_session_leaves_the_volumes_of_its_moment(rt: HostRuntime) {
    assert_eq!(rt; other_session(rt.alloc()), None);
}
