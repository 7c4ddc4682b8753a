// The rows of a site opened: surveyed, repaired and migrated, those of the further volumes created, and marks changed.
ghost use Rattle.std.specs.Prelude.{◌≡◌, ◌<◌, None, OnOk, IfOk, IfErr, length, map};
ghost use Rattle.std.specs.Ordering.{nat_cmp};
ghost use Rattle.std.specs.List.Sorted.{IsStrictlySortedBy};
ghost use Rattle.mss_base.specs.Content.{content};
ghost use Rattle.mss_base.specs.Sites.{OnlyReads};
ghost use Rattle.mss_base.specs.Configs.{serial_in};
ghost use Rattle.shown_volumes.specs.Faults.{first_fault};
ghost use Rattle.volume_table.specs.Listed.{row_in_list};
ghost use Rattle.mss_restart.specs.Usable.{AreUsable};
ghost use Rattle.mss_restart.specs.Opening.{AreKnown, AreRowsNew, RowsAre, answer_of, opening_changes, site_of};
ghost use Rattle.mss_restart.specs.Creations.{
  AreTold,
  ChangesWhole,
  CompletesWhole,
  OpensVolumes,
  RewritesRows,
  StepsOn,
  WritesOn,
};
ghost use Rattle.mss_restart.specs.Answers.{
  AnswersOpening,
  HasNoSteps,
  IsRoom,
  IsUsable,
  KeepsOpening,
  LeavesRows,
  MakesCounted,
  Opens,
  OpensExactly,
  OpensSite,
  RefusalLeaves,
  RefusesAs,
  WritesIfFaultless,
  counters,
  run_of,
  steps_of,
};
ghost use Rattle.mss_restart.specs.Survey.{NeverFails, TellsNoFailure};

use crate::creations::create_volumes;
use crate::marks::mark_volumes;
use crate::migrations::migrate_rows;
use crate::repairs::repair_rows;
use crate::steps::OpeningSteps;
use crate::surveying::survey_rows;
use mss_base::{Config, NoMemory, Serial, Site, VolumeNo};
use shown_volumes::Refused;
use std::alloc::Global;
use table_pair::{SlotsUsed, SlotsUsedList};
use volume_table::Rows;

/// The rows of an opened site, and what the opening did to its volumes.
#[derive(Drop)]
pub struct Opened {
    pub rows: Rows,
    /// How many slots of the copies of each row are in use.
    pub used: SlotsUsedList,
    /// The volumes that were created.
    pub creations: OpeningSteps,
    /// The marks that were changed behind that.
    pub marks: OpeningSteps,
}

/// What an opening tells, before it was begun: room for a creation and for a mark of each volume, and no slot in use.
#[derive(Drop)]
struct OpeningRoom {
    used: SlotsUsedList,
    creations: OpeningSteps,
    marks: OpeningSteps,
}

impl OpeningRoom {
    fn of(alloc: Global, volumes: usize) -> Result<OpeningRoom, NoMemory>
        ensures { IfOk result (λ room. IsRoom room volumes) }
    {
        let mut creations = OpeningSteps::new(alloc);
        creations.reserve(volumes)?;
        let mut marks = OpeningSteps::new(alloc);
        marks.reserve(volumes)?;
        Ok(OpeningRoom {
            used: SlotsUsedList::of(alloc, &[SlotsUsed::none(); 32])?,
            creations,
            marks,
        })
    }
}

/// Surveys a site whose rows have to be told by all that was read of both copies.
fn known_rows<S: Site>(alloc: Global, site: &mut S, config: &Config) -> Result<Rows, Refused>
    ensures known { S.tells → IfOk result (λ rows. RowsAre rows (content (S.told site.old))) }
    ensures faultless { S.tells → OnOk result (first_fault config.now.frames
        (serial_in config.now.volumes) (content (S.told site.old)) ≡ None) }
    ensures usable { IfOk result (λ rows. AreUsable config.now.frames (serial_in config.now.volumes)
        (row_in_list rows)) }
    ensures refused { S.tells → IfErr result (RefusesAs (S.faults site.old) (S.faults site.new)
        config.now (S.told site.old) (S.told site.new)) }
    ensures exact { S.tells → S.faults site.new ≡ S.faults site.old
        → S.faults site.old < 18446744073709551615
        → OpensExactly config.now (content (S.told site.old)) result }
    ensures kept { KeepsOpening (S.faults site.old) (S.faults site.new) result }
    ensures works { NeverFails S.Site site.old → TellsNoFailure result }
    ensures devices { OnlyReads S.Site site.old site.new }
{
    let read = survey_rows(alloc, site, config)?;
    read.rows.look();
    match read.unread {
        None => Ok(read.rows),
        Some(fault) => Err(Refused::Stopped { fault }),
    }
}

/// Repairs and migrates the rows of a site without a fault. The rows are known then, and each is of version 2.
fn rewrite_rows<S: Site>(
    alloc: Global,
    site: &mut S,
    rows: &Rows,
    used: &mut SlotsUsedList,
) -> Result<(), Refused>
    requires places { length used.old.items ≡ 32 }
    requires told { S.tells → RowsAre rows.now (content (S.told site.old)) }
    ensures rewrites { S.tells →
        RewritesRows rows.now used.new.items (S.told site.old) (S.told site.new) result }
    ensures places { length used.new.items ≡ 32 }
    ensures site_ { StepsOn S.Site site.old site.new result }
{
    rows.look();
    if !repair_rows(alloc, site, used)? {
        return Ok(());
    }
    migrate_rows(site, rows, used)
}

/// Makes the further volumes of a configuration, and gives its volumes the marks that it asks for.
fn change_volumes<S: Site>(
    alloc: Global,
    site: &mut S,
    volumes: &[(VolumeNo, Serial, bool)],
    opened: &mut Opened,
) -> Result<(), Refused>
    requires none { HasNoSteps opened.old (length volumes.now) }
    requires rising { IsStrictlySortedBy nat_cmp (map (λ v. v.0) volumes.now) }
    requires known { S.tells →
        AreKnown opened.old.rows opened.old.used.items (content (S.told site.old)) }
    requires renewed { S.tells → AreRowsNew (content (S.told site.old)) }
    requires places { length opened.old.used.items ≡ 32 }
    ensures told { S.tells → OpensVolumes ChangesWhole
        (run_of volumes.now opened.old opened.new) (S.told site.old) (S.told site.new) result }
    ensures places { length opened.new.used.items ≡ 32 }
    ensures rows { OnOk result (AreTold
        (opening_changes (row_in_list opened.old.rows) volumes.now) (steps_of opened.new)
        (row_in_list opened.old.rows) (row_in_list opened.new.rows) (S.writes site.old)
        (S.writes site.new)) }
    ensures site_ { StepsOn S.Site site.old site.new result }
{
    create_volumes(
        alloc,
        site,
        &mut opened.rows,
        &mut opened.used,
        &mut opened.creations,
        volumes,
    )?;
    mark_volumes(
        site,
        &mut opened.rows,
        &mut opened.used,
        &mut opened.marks,
        volumes,
    )
}

/// Repairs and migrates the rows of a site without a fault, and makes the changes that the configuration asks for.
fn complete_rows<S: Site>(
    alloc: Global,
    site: &mut S,
    config: &Config,
    opened: &mut Opened,
) -> Result<(), Refused>
    requires none { HasNoSteps opened.old (length config.now.volumes) }
    requires places { length opened.old.used.items ≡ 32 }
    requires told { S.tells → RowsAre opened.old.rows (content (S.told site.old)) }
    ensures told { S.tells → OpensVolumes CompletesWhole
        (run_of config.now.volumes opened.old opened.new)
        (S.told site.old) (S.told site.new) result }
    ensures places { length opened.new.used.items ≡ 32 }
    ensures rows { OnOk result (AreTold
        (opening_changes (row_in_list opened.old.rows) config.now.volumes) (steps_of opened.new)
        (row_in_list opened.old.rows) (row_in_list opened.new.rows) (S.writes site.old)
        (S.writes site.new)) }
    ensures site_ { StepsOn S.Site site.old site.new result }
{
    rewrite_rows(alloc, site, &opened.rows, &mut opened.used)?;
    change_volumes(alloc, site, config.volumes.as_slice(), opened)
}

/// Opens the rows of a site that is lent.
fn open_lent<S: Site>(alloc: Global, site: &mut S, config: &Config) -> Result<Opened, Refused>
    ensures opens { S.tells → Opens (S.faults site.old) (S.faults site.new) config.now
        (S.told site.old) (S.told site.new) result }
    ensures exact { S.tells → S.faults site.new ≡ S.faults site.old
        → S.faults site.old < 18446744073709551615
        → OpensExactly config.now (content (S.told site.old)) result }
    ensures leaves { S.tells → LeavesRows config.now (S.told site.old) (S.told site.new) result }
    ensures untouched { S.tells → WritesIfFaultless config.now (S.told site.old) (S.told site.new) }
    ensures usable { IfOk result (IsUsable config.now) }
    ensures counted { MakesCounted config.now (S.writes site.old) (S.writes site.new) result }
    ensures refused { IfErr result (RefusalLeaves (S.writes site.old) (S.writes site.new)
        (S.faults site.old) (S.faults site.new)) }
    ensures kept { KeepsOpening (S.faults site.old) (S.faults site.new) result }
    ensures works { NeverFails S.Site site.old → TellsNoFailure result }
    ensures devices { WritesOn S.Site site.old site.new }
{
    // The numbers of its volumes rise, which a body knows of a configuration that it looks into.
    let room = OpeningRoom::of(alloc, config.volumes.as_slice().len())?;
    let rows = known_rows(alloc, site, config)?;
    rows.look();
    let OpeningRoom {
        used,
        creations,
        marks,
    } = room;
    let mut opened = Opened {
        rows,
        used,
        creations,
        marks,
    };
    complete_rows(alloc, site, config, &mut opened)?;
    opened.rows.look();
    Ok(opened)
}

/// Opens the rows of a site: surveys it, makes the two copies of each row equal, writes those of version 1 anew,
/// creates the volumes of the configuration that have no row, in order, blank, each on the two lowest cartridges that
/// no row names, and then gives each configured volume the mark that is asked for, in order. Where it answers rows,
/// both copies of each are of version 2.
///
/// It answers over every content and every failing device, and takes the room for its writes itself. A stop at any
/// moment, also within a call that fails, leaves a sound content sound; it then shows the volumes that it showed
/// before, after a front of the new ones and the new marks. A content with a fault is refused by its first fault, and
/// nothing is written. `RowUnread` and `Stopped` come only where a call of the site failed, and keep its count of
/// faults behind that; `Stopped` also where one copy alone told a row, since a read of the other failed: then it keeps
/// the count of the first such row, and nothing is written. After want of memory all that was begun was written to its
/// end. At each moment the made marks of all volumes but the new ones stay, and so do the copies of a volume that is
/// neither new nor gets another mark, where they need no repair and are of version 2. Where each copy told its row
/// alone, it does so afterwards, unless a call failed.
pub fn open_rows<S: Site>(
    alloc: Global,
    site: S,
    config: &Config,
) -> Result<(S, Opened), (S, Refused)>
    ensures told { S.tells → OpensSite (S.faults site) (S.faults (site_of result)) config.now
        (S.told site) (S.told (site_of result)) (answer_of result) }
    ensures any { AnswersOpening config.now (counters S.Site site (site_of result))
        (answer_of result) }
    ensures works { NeverFails S.Site site → TellsNoFailure (answer_of result) }
    ensures devices { WritesOn S.Site site (site_of result) }
{
    let mut site = site;
    match open_lent(alloc, &mut site, config) {
        Ok(opened) => Ok((site, opened)),
        Err(fault) => Err((site, fault)),
    }
}
