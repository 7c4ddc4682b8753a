// The restart of a site.
ghost use Rattle.std.specs.Prelude.{◌≡◌, IfOk, IfErr, OnOk};
ghost use Rattle.mss_restart.specs.Survey.{NeverFails, TellsNoFailure};
ghost use Rattle.mss_restart.specs.Creations.{WritesOn};
ghost use Rattle.mss_restart.specs.Opening.{answer_of, site_of};
ghost use Rattle.core_state.specs.SessionData.{new_session};
ghost use Rattle.core_state.specs.Sessions.{session_data};
ghost use Rattle.core_restart.specs.Begins.{Begins};
ghost use Rattle.core_restart.specs.Opening.{
  HasOpened,
  IsUnsynced,
  Restarts,
  SyncsAll,
  opening_answer,
  site_left,
};
ghost use Rattle.core_restart.specs.Prepared.{prepared_answer, prepared_site};
ghost use Rattle.core_restart.specs.Parts.{AreParts, MayBegin};
ghost use Rattle.core_restart.specs.TakingUp.{StopsStart, TakesUp};
ghost use Rattle.core_state.specs.CoreValue.{seen_site};

use crate::console::tell_steps;
use crate::law::restart_takes_up_its_own_stops;
use crate::owners::own_frames;
use crate::parts::Parts;
use accessors::Rail;
use core_state::{Core, MessageList, Session};
use mss_base::{Config, Site};
use mss_restart::{Opened, Refused, open_rows};
use std::alloc::Global;
use victim_choice::{Choose, Chooser};

/// The session that begins now.
fn session_of<S: Site>(alloc: Global, site: &S, console: MessageList) -> Session
    ensures { session_data result
        ≡ new_session console.items (S.writes site.now) (S.faults site.now) }
{
    Session::new(alloc, console, site.writes(), site.faults())
}

/// An opened site, and what a core on it is made of.
struct Prepared<S> {
    site: S,
    opened: Opened,
    parts: Parts,
}

/// The core of a session that begins now.
fn begin<S: Site, C: Choose>(alloc: Global, prepared: Prepared<S>, chooser: C) -> Core<S, C>
    requires able { C.can_choose chooser }
    requires parts { AreParts prepared.parts.config prepared.parts }
    requires opened { MayBegin S.tells (S.told prepared.site) (S.writes prepared.site)
        prepared.parts.config prepared.opened }
    ensures begins { Begins prepared.parts.config chooser (S.writes prepared.site)
        (S.faults prepared.site) result }
    ensures site { result.site ≡ prepared.site }
    ensures opened { HasOpened prepared.opened result }
{
    let Prepared {
        site,
        opened,
        parts,
    } = prepared;
    let Parts {
        config,
        buffer,
        mut frames,
        recency,
        requests,
        tasks,
        store,
        recorders,
        hosts,
        mut console,
    } = parts;
    // A body knows of a configuration that it looks into that the numbers of its volumes rise.
    let _volumes = &config.volumes;
    own_frames(&mut frames, &opened.rows);
    tell_steps(&mut console, opened.creations.as_slice());
    tell_steps(&mut console, opened.marks.as_slice());
    let session = session_of(alloc, &site, console);
    Core {
        config,
        chooser: Chooser::new(chooser),
        site,
        alloc,
        buffer,
        rows: opened.rows,
        used: opened.used,
        frames,
        recency,
        requests,
        tasks,
        store,
        rail: Rail::start(),
        recorders,
        hosts,
        session,
    }
}

/// Makes firm all that earlier runs wrote to a site.
fn sync_site<S: Site>(site: &mut S) -> Result<(), Refused>
    ensures synced { OnOk result
        (SyncsAll S.tells (seen_site S.Site site.old) (seen_site S.Site site.new)) }
    ensures unsynced { IfErr result
        (IsUnsynced S.tells (seen_site S.Site site.old) (seen_site S.Site site.new)) }
    ensures works { NeverFails S.Site site.old → TellsNoFailure result }
    ensures devices { WritesOn S.Site site.old site.new }
{
    site.reserve(1)?;
    if site.sync_all().is_err() {
        return Err(Refused::Stopped {
            fault: site.faults(),
        });
    }
    Ok(())
}

/// Makes firm all that earlier runs wrote to a site, and opens its rows.
fn open_synced<S: Site>(
    alloc: Global,
    site: S,
    config: &Config,
) -> Result<(S, Opened), (S, Refused)>
    ensures opens { Restarts S.tells config.now (seen_site S.Site site)
        (seen_site S.Site (site_of result)) (answer_of result) }
    ensures works { NeverFails S.Site site → TellsNoFailure (answer_of result) }
    ensures devices { WritesOn S.Site site (site_of result) }
{
    let mut site = site;
    match sync_site(&mut site) {
        Ok(()) => open_rows(alloc, site, config),
        Err(refused) => Err((site, refused)),
    }
}

/// Takes the memory of a core, but for that of the rows that it creates, and opens a site for it.
fn prepare<S: Site>(alloc: Global, site: S, config: &Config) -> Result<Prepared<S>, (S, Refused)>
    ensures opens { Restarts S.tells config.now (seen_site S.Site site)
        (seen_site S.Site (prepared_site result)) (prepared_answer result) }
    ensures works { NeverFails S.Site site → TellsNoFailure (prepared_answer result) }
    ensures devices { WritesOn S.Site site (prepared_site result) }
    ensures parts { IfOk result (λ prepared. AreParts config.now prepared.parts) }
{
    let Ok(parts) = Parts::new(alloc, config) else {
        return Err((site, Refused::Memory));
    };
    match open_synced(alloc, site, config) {
        Ok((site, opened)) => Ok(Prepared {
            site,
            opened,
            parts,
        }),
        Err(refusal) => Err(refusal),
    }
}

/// Opens a site and makes the core of a session on it, in which nothing has happened yet. The session begins with the
/// volumes that the site showed and the further ones of the configuration, blank, with the marks that it asks for; its
/// console tells which were created, and which marks were changed.
///
/// It begins with a sync of all units, so that what an earlier run left is firm before anything counts on it. A
/// content with a fault is refused by its first fault, and nothing is written. `RowUnread` and `Stopped` come only
/// where a call of the site failed, and keep its count of faults. After want of memory all that was begun was written
/// to its end. Where it refuses, it hands the site back. A stop at any moment, also within a call that fails, leaves
/// a sound content sound; it then shows the volumes that it showed before, after a front of the new ones and the new
/// marks. A content with a fault it leaves as it was.
///
/// The memory of the core is taken before anything is written, but for that of the rows
/// that it creates.
pub fn restart<S: Site, C: Choose + Drop>(
    alloc: Global,
    site: S,
    config: &Config,
    chooser: C,
) -> Result<Core<S, C>, (S, Refused)>
    requires able { C.can_choose chooser }
    ensures restarts { Restarts S.tells config.now (seen_site S.Site site)
        (seen_site S.Site (site_left result)) (opening_answer result) }
    ensures takes_up { S.tells → TakesUp config.now (seen_site S.Site site)
        (seen_site S.Site (site_left result)) result }
    ensures stops { S.tells → StopsStart config.now (S.told site) (S.told (site_left result))
        (opening_answer result) }
    ensures works { NeverFails S.Site site → TellsNoFailure (opening_answer result) }
    ensures devices { WritesOn S.Site site (site_left result) }
    ensures begins { IfOk result (λ core.
        Begins config.now chooser (S.writes core.site) (S.faults core.site) core) }
{
    // The numbers of its volumes rise.
    let _volumes = &config.volumes;
    restart_takes_up_its_own_stops::<S, C>();
    match prepare(alloc, site, config) {
        Err(refusal) => Err(refusal),
        Ok(prepared) => {
            prepared.opened.rows.look();
            Ok(begin(alloc, prepared, chooser))
        }
    }
}
