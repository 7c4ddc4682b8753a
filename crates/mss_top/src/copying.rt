//! The copier of a run.
ghost use Rattle.std.specs.Prelude.{◌≡◌, [], IfOk, IfSome, Some};
ghost use Rattle.command_words.specs.Words.{IsCopyWithin};
ghost use Rattle.volume_copy.specs.Beside.{IsReadyFor, asked_copy};
ghost use Rattle.volume_copy.specs.Copies.{asked_by};
ghost use Rattle.mss_top.specs.Admission.{copy_asked};

use command_words::CopyAsked;
use mss_base::{NoMemory, VolumeNo};
use std::alloc::Global;
use volume_copy::Copier;

/// The copier of this copy, before it begins.
fn armed(alloc: Global, copy: CopyAsked) -> Result<Copier, NoMemory>
    requires within { IsCopyWithin (Some copy) }
    ensures asked { IfOk result (λ copier. Some (asked_by copier) ≡ copy_asked (Some copy)) }
    ensures ready { IfOk result (IsReadyFor []) }
{
    let Some(volume) = VolumeNo::of(copy.volume) else {
        unreachable!()
    };
    Copier::new(alloc, volume, copy.after)
}

/// The copier of the copy that the words ask for, if they ask for one.
pub fn copier_for(alloc: Global, copy: Option<CopyAsked>) -> Result<Option<Copier>, NoMemory>
    requires within { IsCopyWithin copy }
    ensures asked { IfOk result (λ copier. asked_copy copier ≡ copy_asked copy) }
    ensures ready { IfOk result (λ copier. IfSome copier (IsReadyFor [])) }
{
    match copy {
        Some(copy) => {
            let copier = armed(alloc, copy)?;
            Ok(Some(copier))
        }
        None => Ok(None),
    }
}
