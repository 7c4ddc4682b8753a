//! The law of sessions. A function calls a law to have it in its proof.
ghost use Rattle.std.specs.Prelude.{◌≡◌};
ghost use Rattle.mss_base.specs.Configs.{ConfigData};
ghost use Rattle.mss_base.specs.Content.{content};
ghost use Rattle.core_state.specs.Beginning.{IsLater};
ghost use Rattle.core_state.specs.CoreValue.{CoreData, DevicesSeen};
ghost use Rattle.core_state.specs.IsCore.{IsTold, opening_of};
ghost use Rattle.core_state.specs.SessionData.{data_of};
ghost use Rattle.plain_sessions.specs.Sessions.{BeganOver, IsPlainSession, StopsAnywhere, plain_start};

use mss_base::Site;

/// A session that a restart began is, at every later moment, one of plain volumes, which begins with those that the
/// devices showed; and so is what a stop leaves at any moment until then.
pub fn sessions_are_plain<S: Site>()
    ensures begins { (config : ConfigData) (was : DevicesSeen) (began left : CoreData)
        → S.tells → BeganOver config was began → IsLater S.tells began left
        → IsTold left.site.told left
        → opening_of left.site.told left ≡ plain_start config (content was.told) }
    ensures plain { (config : ConfigData) (was : DevicesSeen) (began left : CoreData)
        → S.tells → BeganOver config was began → IsLater S.tells began left
        → IsTold left.site.told left
        → IsPlainSession config was.told left.site.told (data_of left) }
    ensures stops { (config : ConfigData) (was : DevicesSeen) (began left : CoreData)
        → S.tells → BeganOver config was began → IsLater S.tells began left
        → IsTold left.site.told left
        → StopsAnywhere config was.told left.site.told (data_of left) }
{
    ckd_plain::laws::only_the_track_under_a_write_changes();
    ckd_plain::laws::hosts_know_their_marks();
    shown_volumes::law::first_fault_is_of_unsound_content();
}
