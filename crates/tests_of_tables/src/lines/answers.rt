// What is told, as the numbers of a line.
use crate::lines::words::{code, letters};
use mss_base::Page;
use mss_restart::{Opened, OpeningStep, Refused};
use std::alloc::Global;
use volume_table::{Change, Rows, VolumeRow};

/// The words that a line tells. None where it can't be done, or memory runs out.
pub type Told = Option<Vec<u64>>;

pub fn list(alloc: Global, words: &[u64]) -> Told {
    Vec::from_slice(alloc, words).ok()
}

pub fn outcome(alloc: Global, good: bool) -> Told {
    let word = if good { code("done") } else { code("failed") };
    list(alloc, &[word])
}

// The frame of its first page, if that has one.
fn push_frame(told: &mut Vec<u64>, row: &VolumeRow) -> Option<()> {
    let Some(frame) = row.frame(Page::of(0)?) else {
        return Some(());
    };
    told.push(code("frame")).ok()?;
    told.push(u64::from(frame.get())).ok()
}

// Its mark, where it is read-only.
fn push_mark(told: &mut Vec<u64>, row: &VolumeRow) -> Option<()> {
    if row.read_only {
        told.push(code("readonly")).ok()?;
    }
    Some(())
}

// The serial of a row and its cartridges, then what it may have.
fn push_row(told: &mut Vec<u64>, row: &VolumeRow) -> Option<()> {
    told.push(letters(row.serial.as_slice())).ok()?;
    told.push(u64::from(row.first.get())).ok()?;
    told.push(u64::from(row.second.get())).ok()?;
    push_frame(told, row)?;
    push_mark(told, row)
}

fn push_volume(told: &mut Vec<u64>, volume: usize, row: &Option<VolumeRow>) -> Option<()> {
    let Some(row) = row else {
        return Some(());
    };
    told.push(u64::try_from(volume).ok()?).ok()?;
    push_row(told, row)
}

fn push_volumes(told: &mut Vec<u64>, rows: &Rows) -> Option<()> {
    for (volume, row) in rows.as_slice().iter().enumerate() {
        push_volume(told, volume, row)?;
    }
    Some(())
}

/// Each volume that has a row, with it.
pub fn volumes(alloc: Global, rows: &Rows) -> Told {
    let mut told = Vec::new(alloc);
    push_volumes(&mut told, rows)?;
    Some(told)
}

fn mark_word(change: &Change) -> Option<u64> {
    match change {
        Change::Protect { on: true } => Some(code("protect")),
        Change::Protect { on: false } => Some(code("unprotect")),
        _ => None,
    }
}

// `protect 3 34`: the new mark, the volume, and the writes behind it.
fn push_step(told: &mut Vec<u64>, step: &OpeningStep) -> Option<()> {
    told.push(mark_word(&step.change)?).ok()?;
    told.push(u64::from(step.volume.get())).ok()?;
    told.push(step.writes).ok()
}

fn push_steps(told: &mut Vec<u64>, steps: &[OpeningStep]) -> Option<()> {
    for step in steps {
        push_step(told, step)?;
    }
    Some(())
}

/// What was opened: each volume that has a row, then each mark that was changed.
pub fn opening(alloc: Global, opened: &Opened) -> Told {
    let mut told = volumes(alloc, &opened.rows)?;
    push_steps(&mut told, opened.marks.as_slice())?;
    Some(told)
}

/// Why a site is refused, where a call failed.
pub fn refused(alloc: Global, fault: &Refused) -> Told {
    match fault {
        Refused::RowUnread { volume, fault } => {
            list(alloc, &[code("unread"), u64::from(volume.get()), *fault])
        }
        Refused::Stopped { fault } => list(alloc, &[code("stopped"), *fault]),
        _ => None,
    }
}
