//! A look at the volumes of a site.
ghost use Rattle.std.specs.Prelude.{◌≡◌, ◌≢◌, ◌≤◌, [], None, Some, map, string_bytes};
ghost use Rattle.command_words.specs.Words.{meaning};
ghost use Rattle.command_words.specs.declared.command.Command.TheVariants.{Show};
ghost use Rattle.mss_base.specs.Content.{content};
ghost use Rattle.mss_base.specs.Sites.{OnlyReads};
ghost use Rattle.session_report.specs.Parties.{sink_between};
ghost use Rattle.job_runs.specs.Parties.{devices};
ghost use Rattle.mss_restart.specs.OneCopy.{ArePaired, LosesOneTable};
ghost use Rattle.table_pair.specs.Reads.{CanReadTracks};
ghost use Rattle.mss_top.specs.Showing.{EndsShown, FRAMES, IsShown, Lists};
ghost use Rattle.mss_top.specs.Showing.{LooksByOneCopy, LooksExactly, LooksWell, SurveysAny};
ghost use Rattle.mss_top.specs.Showing.{BrokeOff, LookBrokeOff};
ghost use Rattle.mss_top.specs.declared.status.Status.TheVariants.{Stopped};

use crate::admission::command_in;
use crate::ending::{Ended, refusal_line, refuse, say, status_of};
use crate::status::Status;
use command_words::Command;
use mss_base::{Config, Sink, Site, VolumeList};
use mss_restart::survey;
use report_text::OneLine;
use serial_driver::DriveAnswer;
use session_report::listing;
use std::alloc::Global;
use volume_table::Rows;

/// As many frames as there may be: the devices may have a frame of any number.
const FRAMES: u16 = 200;

/// The configuration of a look or an audit, with 1 to 200 frames: it asks for no volume.
pub fn any_config(alloc: Global, frames: u16) -> Config
    requires { (1 ≤ frames) × (frames ≤ FRAMES) }
    ensures frames { result.frames ≡ frames }
    ensures volumes { result.volumes ≡ [] }
{
    Config {
        frames,
        recorders: 1,
        volumes: VolumeList::new(alloc),
    }
}

/// Surveys a site whatever its volumes are: its rows, or the line of its first fault.
fn survey_any<S: Site>(alloc: Global, site: &mut S) -> Result<Rows, OneLine>
    ensures survey { SurveysAny (devices S.Site site.old site.new) result }
    ensures one_copy { S.tells → LosesOneTable S.Site site.old
        → ArePaired (content (S.told site.old)) → LooksExactly (content (S.told site.old)) result }
    ensures site { OnlyReads S.Site site.old site.new }
{
    match survey(alloc, site, &any_config(alloc, FRAMES)) {
        Ok(rows) => Ok(rows),
        Err(refused) => Err(refusal_line(&refused)),
    }
}

/// Lists the volumes of the rows that a survey found, and answers with the status.
fn list<S: Site, O: Sink>(alloc: Global, site: &mut S, rows: &Rows, output: &mut O) -> Status
    ensures lists { Lists rows.now (devices S.Site site.old site.new)
        (sink_between O.Sink output.old output.new) result }
    ensures works { CanReadTracks S.Site site.old → result ≢ Stopped }
    ensures unread { result ≡ Stopped
        → BrokeOff S.Site site.old rows.now (devices S.Site site.old site.new)
        (sink_between O.Sink output.old output.new) }
    ensures site { OnlyReads S.Site site.old site.new }
{
    let told = listing(alloc, site, rows, output);
    status_of(DriveAnswer::Done, told)
}

/// Looks at a site that is lent, and answers with the status.
fn look_at<S: Site, O: Sink>(alloc: Global, output: &mut O, site: &mut S) -> Status
    ensures ended { EndsShown (Some Show) (devices S.Site site.old site.new)
        (sink_between O.Sink output.old output.new) result }
    ensures unread { result ≡ Stopped → LookBrokeOff S.Site site.old
        (devices S.Site site.old site.new) (sink_between O.Sink output.old output.new) }
    ensures one_copy { LooksByOneCopy (Some Show) S.Site site.old
        (sink_between O.Sink output.old output.new)
        → IsShown (content (S.told site.old)) (sink_between O.Sink output.old output.new) result }
    ensures site { OnlyReads S.Site site.old site.new }
{
    match survey_any(alloc, site) {
        Ok(rows) => list(alloc, site, &rows, output),
        Err(line) => say(output, line),
    }
}

/// Looks at a site, and puts the listing, or the line of its first fault.
pub fn list_site<S: Site, O: Sink>(alloc: Global, output: &mut O, mut site: S) -> Ended<S>
    ensures ended { EndsShown (Some Show) (devices S.Site site result.site)
        (sink_between O.Sink output.old output.new) result.status }
    ensures unread { result.status ≡ Stopped → LookBrokeOff S.Site site
        (devices S.Site site result.site) (sink_between O.Sink output.old output.new) }
    ensures one_copy { LooksByOneCopy (Some Show) S.Site site
        (sink_between O.Sink output.old output.new)
        → IsShown (content (S.told site))
        (sink_between O.Sink output.old output.new) result.status }
    ensures site { OnlyReads S.Site site result.site }
    ensures session { result.session ≡ None }
{
    let status = look_at(alloc, output, &mut site);
    Ended {
        status,
        site,
        session: None,
    }
}

/// Puts the listing of a site: every volume that has a row, with its tracks.
///
/// The words are the command `show`. Nothing is written to the site. One with a fault is told by its first, by one
/// line; which frames and recorders a run would have, and which volumes its job asks for, doesn't matter. Where one
/// unit of the table can't be read, and each copy tells its row alone, that changes nothing. Where a read for a track
/// fails, the listing ends before that track.
pub fn show<S: Site, O: Sink>(alloc: Global, words: &[String], output: &mut O, site: S) -> Ended<S>
    ensures ended { EndsShown (meaning (map string_bytes words.now))
        (devices S.Site site result.site)
        (sink_between O.Sink output.old output.new) result.status }
    ensures unread { result.status ≡ Stopped → LookBrokeOff S.Site site
        (devices S.Site site result.site) (sink_between O.Sink output.old output.new) }
    ensures complete { LooksWell (meaning (map string_bytes words.now))
        (devices S.Site site result.site) (sink_between O.Sink output.old output.new)
        → IsShown (content (S.told site))
        (sink_between O.Sink output.old output.new) result.status }
    ensures one_copy { LooksByOneCopy (meaning (map string_bytes words.now)) S.Site site
        (sink_between O.Sink output.old output.new)
        → IsShown (content (S.told site))
        (sink_between O.Sink output.old output.new) result.status }
    ensures site { OnlyReads S.Site site result.site }
    ensures session { result.session ≡ None }
{
    match command_in(alloc, words) {
        Ok(Command::Show) => list_site(alloc, output, site),
        Ok(_) => refuse(output, site, OneLine::WordsRefused),
        Err(line) => refuse(output, site, line),
    }
}
