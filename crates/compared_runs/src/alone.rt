//! A job on devices of its own.
ghost use Rattle.std.specs.Prelude.{◌≡◌, ◌≢◌, Bool, IfOk};
ghost use Rattle.mss_base.specs.declared.place.UnitNo.{UnitNo};
ghost use Rattle.core_state.specs.CoreValue.{seen_site};
ghost use Rattle.core_state.specs.Sessions.{session_data};
ghost use Rattle.shown_volumes.specs.declared.refused.Refused.TheVariants as refusal;
ghost use Rattle.serial_driver.specs.declared.answer.DriveAnswer.TheVariants.{Memory};
ghost use Rattle.compared_runs.specs.Alone.{AreBlank, IsAlone, IsOver};

use crate::sound_site::SoundSite;
use core_restart::Refused;
use core_state::Session;
use job_runs::{Played, play};
use job_text::Job;
use mss_base::{NoMemory, Site};
use serial_driver::DriveAnswer;
use std::alloc::Global;
use victim_choice::Choose;

/// A session that memory didn't end, and how it ended.
#[derive(Drop)]
pub struct Told {
    pub session: Session,
    pub end: DriveAnswer,
}

/// A session, unless memory ran out in it.
fn kept(session: Session, end: DriveAnswer) -> Result<Told, NoMemory>
    ensures { IfOk result (λ told.
        (told.session ≡ session) × (told.end ≡ end) × (end ≢ Memory)) }
{
    match end {
        DriveAnswer::Memory => Err(NoMemory),
        end => Ok(Told { session, end }),
    }
}

/// Why a blank site isn't taken up.
fn want_of_memory(refused: &Refused) -> NoMemory
    requires { refused.now ≡ refusal.Memory }
{
    match refused {
        Refused::Memory => NoMemory,
        _ => unreachable!(),
    }
}

/// Plays a job on a blank site of which no call fails, and lets the site go.
fn play_on<S: Site + Drop, C: Choose + Drop>(
    alloc: Global,
    job: &Job,
    site: S,
    chooser: C,
) -> Result<Told, NoMemory>
    requires able { C.can_choose chooser }
    requires can_see { S.tells }
    requires blank { AreBlank (seen_site S.Site site) }
    requires sound { (but : UnitNo → Bool) → S.never_fails_but site but }
    requires faultless { (s : S) → S.faults s ≡ 0 }
    ensures alone { IfOk result (λ told. IsAlone S.tells (C.may chooser) job.now
        told.end (session_data told.session)) }
    ensures over { IfOk result (λ told. IsOver told.end) }
{
    match play(alloc, job, &[], site, chooser, None) {
        Ok(played) => {
            let Played {
                site: _,
                rows: _,
                session,
                end,
                copier: _,
            } = played;
            kept(session, end)
        }
        Err(back) => Err(want_of_memory(&back.1)),
    }
}

/// Plays a job on devices of its own, of zeros and of which no call fails: by rounds, without turns ahead of them.
pub fn play_alone<C: Choose + Drop>(alloc: Global, job: &Job, chooser: C) -> Result<Told, NoMemory>
    requires { C.can_choose chooser }
    ensures alone { IfOk result (λ told. IsAlone (Unit {0}) (C.may chooser) job.now
        told.end (session_data told.session)) }
    ensures over { IfOk result (λ told. IsOver told.end) }
{
    let site = SoundSite::new(alloc)?;
    play_on(alloc, job, site, chooser)
}
