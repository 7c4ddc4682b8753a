// A search, read or write on the blocks of a cylinder.
ghost use Rattle.std.specs.Prelude.{◌≡◌, ◌≤◌, length, true, false, IsTrue};
ghost use Rattle.mss_base.specs.Sites.{OnlyReads};
ghost use Rattle.channel_commands.specs.Codes.{least, is_write};
ghost use Rattle.ckd_plain.specs.declared.host.Prior.{Prior};
ghost use Rattle.ckd_plain.specs.Checks.{Passes, is_prior_permitted};
ghost use Rattle.ckd_plain.specs.Effects.{effect, is_data, prior_number};
ghost use Rattle.ckd_plain.specs.Plain.{with_open_chain};
ghost use Rattle.ckd_plain.specs.Views.{effect_of};
ghost use Rattle.track_engine.specs.Answers.{asked_command, AsksNothing, RunsCommand, LeavesHost, LeavesDevices};
ghost use Rattle.track_engine.specs.Faults.{ReadsDevices, UsesDevices};
ghost use Rattle.track_engine.specs.Found.{GivesBut, KeepsVolume};
ghost use Rattle.track_engine.specs.Tracks.{tracks_on, AreTracksOn};
ghost use Rattle.track_engine.specs.Writing.{CarriesOut, IsOfNothing, most_writes, target_of};
ghost use Rattle.mss_base.specs.Geometry.{format_items};

use crate::place::{CylinderPlace, EngineFault, NotDone};
use crate::read::read;
use crate::search::{search_home, search_id, search_key};
use crate::write::{write_count_key_data, write_data};
use channel_commands::{Command, Reply, SearchField, WriteKind};
use ckd_plain::steps::{DoneCommand, cleared, finished, opened, refused};
use ckd_plain::{HostState, Prior};
use mss_base::Site;
use std::alloc::Global;

/// A search or a read.
#[tactic(auto, unfolding(ckd_plain::specs::Effects::effect))]
fn search_or_read<S: Site>(
    alloc: Global,
    site: &mut S,
    place: &CylinderPlace,
    host: &HostState,
    command: Command,
    argument: &[u8],
) -> Result<DoneCommand, NotDone>
    requires long { least command ≤ length argument.now }
    requires data { is_data command ≡ true }
    requires reads { is_write command ≡ false }
    ensures done { S.tells → (left : Prior)
        → GivesBut effect_of result
        (effect (tracks_on (S.told site.old) place.now) host.now left command argument.now) }
    ensures volume { KeepsVolume (λ done. done.host) host.now.mounted result }
    ensures site_ { ReadsDevices S.Site place.now.unit site.old site.new result }
{
    match command {
        Command::Search { field, test, multi } => match field {
            SearchField::Home => Ok(search_home(alloc, host, multi, argument)?),
            SearchField::Id => search_id(alloc, site, place, host, test, multi, argument),
            SearchField::Key => search_key(alloc, site, place, host, test, multi, argument),
        },
        Command::Read { what, multi } => read(alloc, site, place, host, what, multi),
        _ => unreachable!(),
    }
}

/// A search, read or write, where the command before left this prior.
#[tactic(auto, unfolding(ckd_plain::specs::Effects::effect))]
fn carry_out<S: Site>(
    alloc: Global,
    site: &mut S,
    place: &CylinderPlace,
    host: &HostState,
    left: Prior,
    command: Command,
    argument: &[u8],
) -> Result<DoneCommand, NotDone>
    requires long { least command ≤ length argument.now }
    requires permitted { IsTrue (is_prior_permitted left command) }
    requires data { is_data command ≡ true }
    requires tracks { S.tells → AreTracksOn (S.told site.old) place.now }
    requires room { format_items ≤ S.spare site.old }
    ensures done { S.tells → CarriesOut
        (effect (tracks_on (S.told site.old) place.now) host.now left command argument.now)
        command (target_of (S.told site.old) place.now host.now left)
        (S.told site.old) (S.told site.new) result }
    ensures volume { KeepsVolume (λ done. done.host) host.now.mounted result }
    ensures untouched { S.tells → IsOfNothing command (prior_number left)
        (tracks_on (S.told site.old) place.now host.now.head)
        → OnlyReads S.Site site.old site.new }
    ensures site_ { UsesDevices S.Site (most_writes command) (is_write command) place.now.unit
        site.old site.new result }
{
    match command {
        Command::Write(WriteKind::Data) => {
            write_data(alloc, site, place, host, left, false, argument)
        }
        Command::Write(WriteKind::KeyData) => {
            write_data(alloc, site, place, host, left, true, argument)
        }
        Command::Write(WriteKind::CountKeyData) => {
            write_count_key_data(alloc, site, place, host, left, argument)
        }
        _ => search_or_read(alloc, site, place, host, command, argument),
    }
}

/// A search, read or write that passed its checks, on the blocks of the host's cylinder.
///
/// After a fault the host is as it was. When the reply comes,
/// all that was written is firm. An update makes one write at most and a sync, and of no bytes nothing.
pub fn run_command<S: Site>(
    alloc: Global,
    site: &mut S,
    place: &CylinderPlace,
    command: &Command,
    argument: &[u8],
    chained: bool,
    host: &mut HostState,
) -> Result<Reply, EngineFault>
    requires passes { Passes (with_open_chain host.old) command.now argument.now }
    requires data { is_data command.now ≡ true }
    requires tracks { S.tells → AreTracksOn (S.told site.old) place.now }
    requires room { format_items ≤ S.spare site.old }
    ensures runs { S.tells → RunsCommand
        (asked_command command.now argument.now chained host.old place.now)
        (S.told site.old) (S.told site.new) result host.new }
    ensures host_ { LeavesHost chained host.old host.new result }
    ensures site_ { LeavesDevices S.Site command.now place.now.unit site.old site.new result }
    ensures untouched { S.tells → AsksNothing
        (asked_command command.now argument.now chained host.old place.now) (S.told site.old)
        → OnlyReads S.Site site.old site.new }
{
    let now = opened(host);
    let ready = cleared(*command, &now);
    match carry_out(alloc, site, place, &ready, now.prior, *command, argument) {
        Ok(done) => Ok(finished(host, *command, chained, done)),
        Err(NotDone::Refused(refusal)) => Ok(refused(alloc, host, &refusal)),
        Err(NotDone::Fault(fault)) => Err(fault),
    }
}
