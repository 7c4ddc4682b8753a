// A recorder's event.
ghost use Rattle.std.specs.Prelude.{◌≡◌, ◌⊎◌, ◌≤◌, ◌<◌, Bool};
ghost use Rattle.mss_base.specs.Sites.{MayWrite};
ghost use Rattle.mss_base.specs.declared.place.UnitNo.{UnitNo};
ghost use Rattle.transfers.specs.Copies.{IsReadable};
ghost use Rattle.transfers.specs.declared.transfer.Transfer.{Transfer};
ghost use Rattle.core_state.specs.CoreValue.{seen_core};
ghost use Rattle.core_state.specs.Devices.{FailRead};
ghost use Rattle.core_state.specs.WorkEvents.{WorkEvent};
ghost use Rattle.core_state.specs.WorkRules.{work_rule};
ghost use Rattle.core_state.specs.declared.rule.WorkRule.TheVariants.{Copies, Ends};
ghost use Rattle.work_events.specs.Steps.{DidNothing, FailsNone};

use crate::carrying::{fetch, give_back};
use crate::copy::copy;
use crate::ending::{END_ITEMS, end};
use crate::frames::{assign, free};
use crate::picking::{abandon, pick, pick_victim};
use crate::rule::work_rule;
use core_state::{Core, WorkAnswer, WorkRule};
use mss_base::{RecorderNo, Site};
use victim_choice::Choose;

/// Does what the first rule that applies to a recorder says, one step of work, and answers what it
/// did.
///
/// Its memory comes first: after `Memory` all is as it was, but that the site may have more room. It
/// answers `Idle` where no rule applies, and `Stopped` where a row couldn't be written, in this event
/// or one before; the core does nothing more then. Where no call of the site fails but reads, no event stops the core;
/// where the next track can be read, its copy doesn't fail its request; a copy that fails has
/// written nothing; and the end of a transfer fails none.
pub fn work_event<S: Site, C: Choose>(core: &mut Core<S, C>, recorder: RecorderNo) -> WorkAnswer
    requires recorder { recorder < core.old.config.recorders }
    ensures event { WorkEvent S.tells (C.may core.old.chooser)
        (seen_core S.Site core.old) recorder result (seen_core S.Site core.new) }
    ensures chooser { core.new.chooser ≡ core.old.chooser }
    ensures devices { MayWrite S.Site END_ITEMS core.old.site core.new.site }
    ensures room { DidNothing core.old.stopped result
        → S.spare core.old.site ≤ S.spare core.new.site }
    ensures only_reads_fail { (but : UnitNo → Bool) → S.never_fails_but core.old.site but
        → core.new.stopped ≡ core.old.stopped }
    ensures works { (but : UnitNo → Bool) (t : Transfer) → S.never_fails_but core.old.site but
        → work_rule core.old recorder ≡ Copies t → IsReadable but t
        → core.new.requests ≡ core.old.requests }
    ensures unread { (but : UnitNo → Bool) (t : Transfer) → S.never_fails_but core.old.site but
        → work_rule core.old recorder ≡ Copies t
        → (core.new.requests ≡ core.old.requests)
        ⊎ FailRead S.tells (seen_core S.Site core.old).site
        (seen_core S.Site core.new).site }
    ensures ends { (but : UnitNo → Bool) (t : Transfer) → S.never_fails_but core.old.site but
        → work_rule core.old recorder ≡ Ends t → FailsNone core.old.requests core.new.requests }
{
    match work_rule(core, recorder) {
        WorkRule::IsStopped { fault } => WorkAnswer::Stopped { fault },
        WorkRule::IsIdle => WorkAnswer::Idle,
        WorkRule::GivesBack { cartridge } => give_back(core, recorder, cartridge),
        WorkRule::Fetches { cartridge } => fetch(core, recorder, cartridge),
        WorkRule::Picks { host, frame } => pick(core, recorder, host, frame),
        WorkRule::PicksVictim { host } => pick_victim(core, recorder, host),
        WorkRule::Abandons => abandon(core, recorder),
        WorkRule::Copies { transfer } => copy(core, recorder, transfer),
        WorkRule::Ends { transfer } => end(core, recorder, transfer),
        WorkRule::Frees { volume, page } => free(core, recorder, volume, page),
        WorkRule::Assigns { volume, page } => assign(core, recorder, volume, page),
    }
}
