// The survey: four walks, one after the other, which end at the first fault.
ghost use Rattle.std.specs.Prelude.{◌≡◌, ◌<◌, ℕ, List, Option, IfOk, IfErr, OnOk};
ghost use Rattle.mss_base.specs.Content.{content};
ghost use Rattle.mss_base.specs.Sites.{OnlyReads};
ghost use Rattle.mss_base.specs.Configs.{serial_in};
ghost use Rattle.volume_table.specs.Listed.{row_in_list};
ghost use Rattle.mss_restart.specs.Walks.{rest_fault};
ghost use Rattle.mss_restart.specs.OneCopy.{ArePaired, LosesOneTable};
ghost use Rattle.mss_restart.specs.Survey.{
  AreRead,
  CanReadRows,
  CanReadTable,
  CountsFaults,
  Finds,
  IsExact,
  KeepsFault,
  KeepsRows,
  NeverFails,
  ReadsWholeRows,
  StopsBehind,
  Surveys,
  TellsNoFailure,
  rows_read,
};
ghost use Rattle.mss_restart.specs.Usable.{AreUsable};
ghost use Rattle.shown_volumes.specs.Shown.{rows_of};
ghost use Rattle.shown_volumes.specs.Sound.{HasSerialsAsked};

use crate::halves::halves_fault;
use crate::pages::pages_fault;
use crate::rows::{RowsRead, read_rows};
use crate::tracks::check_tracks;
use mss_base::{Block, Config, Site};
use shown_volumes::Refused;
use std::alloc::Global;
use volume_table::Rows;

/// Checks the halves, then the pages, then the tracks of rows.
fn check_rows<S: Site>(alloc: Global, site: &mut S, frames: u16, rows: &Rows) -> Result<(), Refused>
    ensures finds { S.tells → Finds result
        (rest_fault frames (row_in_list rows.now) (content (S.told site.old))) }
    ensures behind { IfErr result (StopsBehind frames (row_in_list rows.now)) }
    ensures usable { (asked : ℕ → Option (List ℕ)) → HasSerialsAsked asked (row_in_list rows.now)
        → OnOk result (AreUsable frames asked (row_in_list rows.now)) }
    ensures counts { CountsFaults (S.faults site.old) (S.faults site.new) result }
    ensures works { CanReadRows S.Site site.old (row_in_list rows.now) → TellsNoFailure result }
    ensures devices { OnlyReads S.Site site.old site.new }
{
    rows.look();
    if let Some(fault) = halves_fault(rows) {
        return Err(fault);
    }
    if let Some(fault) = pages_fault(frames, rows) {
        return Err(fault);
    }
    let mut shown = Block::zeros(alloc)?;
    let mut staged = Block::zeros(alloc)?;
    check_tracks(site, rows, &mut shown, &mut staged)
}

/// Surveys a site, and says whether a row was known from one copy alone.
pub fn survey_rows<S: Site>(
    alloc: Global,
    site: &mut S,
    config: &Config,
) -> Result<RowsRead, Refused>
    ensures found { S.tells → Surveys (S.faults site.old) (S.faults site.new) config.now.frames
        (serial_in config.now.volumes) (content (S.told site.old)) (rows_read result) }
    ensures read { S.tells → IfOk result (λ read. AreRead (S.faults site.old) (S.faults site.new)
        (serial_in config.now.volumes) (content (S.told site.old)) read.rows read.unread) }
    ensures usable { IfOk result (λ read. AreUsable config.now.frames (serial_in config.now.volumes)
        (row_in_list read.rows)) }
    ensures counts { KeepsRows (S.faults site.old) (S.faults site.new) result }
    ensures works { NeverFails S.Site site.old → ReadsWholeRows result }
    ensures reads { S.tells → CanReadTable S.Site site.old
        → CanReadRows S.Site site.old (rows_of (content (S.told site.old)))
        → TellsNoFailure result }
    ensures one_copy { S.tells → LosesOneTable S.Site site.old
        → ArePaired (content (S.told site.old)) → TellsNoFailure result }
    ensures devices { OnlyReads S.Site site.old site.new }
{
    let read = read_rows(alloc, site, config.volumes.as_slice())?;
    read.rows.look();
    check_rows(alloc, site, config.frames, &read.rows)?;
    Ok(read)
}

/// Surveys a site: the rows of all volumes, or the first fault in the order of the four walks.
///
/// Nothing is written. Where no read failed, the answer is exactly the content's. So it is where reads of one unit of
/// the table fail, and no others, if each copy tells its row alone. `RowUnread` and `Stopped` come only where a read
/// failed, the last one, and keep the site's count of faults behind it; `Stopped` comes behind the walks over rows,
/// halves and pages, where these found no fault. Neither comes where the table can be read, and each block on which a
/// track of a row stands. The rows can be used whatever the devices tell: no cartridge and no frame stands in two of
/// them.
pub fn survey<S: Site>(alloc: Global, site: &mut S, config: &Config) -> Result<Rows, Refused>
    ensures found { S.tells → Surveys (S.faults site.old) (S.faults site.new) config.now.frames
        (serial_in config.now.volumes) (content (S.told site.old)) result }
    ensures exact { S.tells → S.faults site.new ≡ S.faults site.old
        → S.faults site.old < 18446744073709551615
        → IsExact config.now.frames (serial_in config.now.volumes) (content (S.told site.old))
        result }
    ensures usable { IfOk result (λ rows. AreUsable config.now.frames (serial_in config.now.volumes)
        (row_in_list rows)) }
    ensures kept { KeepsFault (S.faults site.old) (S.faults site.new) result }
    ensures works { NeverFails S.Site site.old → TellsNoFailure result }
    ensures reads { S.tells → CanReadTable S.Site site.old
        → CanReadRows S.Site site.old (rows_of (content (S.told site.old)))
        → TellsNoFailure result }
    ensures one_copy { S.tells → LosesOneTable S.Site site.old
        → ArePaired (content (S.told site.old))
        → IsExact config.now.frames (serial_in config.now.volumes) (content (S.told site.old))
        result }
    ensures devices { OnlyReads S.Site site.old site.new }
{
    match survey_rows(alloc, site, config) {
        Ok(read) => Ok(read.rows),
        Err(fault) => Err(fault),
    }
}
