// The rows of the 32 volumes.
ghost use Rattle.std.specs.Prelude.{◌≡◌, ℕ, None, IfOk, IfSome, length, slice_set};
ghost use Rattle.std.specs.Option.{option_map};
ghost use Rattle.volume_table.specs.Row.{IsRow};
ghost use Rattle.volume_table.specs.Changes.{IsAllowed, effect};
ghost use Rattle.volume_table.specs.Listed.{AreRows, HasRow, row_in_list, with_changed};

use crate::changes::{Change, apply};
use crate::row::VolumeRow;
use mss_base::{NoMemory, VolumeNo};
use std::alloc::Global;
use std::marker::Model;

/// A place for the row of each of the 32 volumes, by number. In a clause it is their list.
#[derive(Drop)]
pub struct Rows {
    places: Vec<Option<VolumeRow>>,
}

impl Model for Rows {
    ghost use Rattle.std.specs.Prelude.{List, Option};
    ghost use Rattle.volume_table.specs.Row.{RowValue};
    ghost use Rattle.volume_table.specs.Listed.{AreAllRows};

    ghost Value = { List (Option RowValue) };

    ghost view = { λ r. r.places.items };

    ghost invariant = { λ r. AreAllRows r.places.items };
}

/// A list of 32 places without a row.
fn empty_places(alloc: Global) -> Result<Vec<Option<VolumeRow>>, NoMemory>
    ensures places { IfOk result (λ places. length places.items ≡ 32) }
    ensures none { IfOk result (λ places. (volume : ℕ) → row_in_list places.items volume ≡ None) }
{
    let mut places = Vec::new(alloc);
    for _ in 0..32u8 {
        places.push(None)?;
    }
    Ok(places)
}

/// What stands in a place is a row, if anything does.
fn look(place: &Option<VolumeRow>)
    ensures { IfSome place.now IsRow }
{
    if let Some(row) = place {
        let _ = &row.states;
    }
}

impl Rows {
    /// The places of 32 volumes of which none has a row.
    pub fn none(alloc: Global) -> Result<Self, NoMemory>
        ensures { IfOk result (λ rows. (volume : ℕ) → row_in_list rows volume ≡ None) }
    {
        let places = empty_places(alloc)?;
        Ok(Rows { places })
    }

    /// What the type keeps, which a body knows of rows that it looks into: each of the 32 volumes has a place, and what
    /// stands in a place is a row.
    pub fn look(&self)
        ensures places { length self.now ≡ 32 }
        ensures are_rows { AreRows self.now }
    {
        let _ = &self.places;
    }

    /// The places, in the order of the volumes.
    pub fn as_slice(&self) -> &[Option<VolumeRow>]
        ensures rows { result.now ≡ self.now }
        ensures places { length self.now ≡ 32 }
    {
        &self.places
    }

    /// The row of a volume, if it has one.
    pub fn row(&self, volume: VolumeNo) -> &Option<VolumeRow>
        ensures { result.now ≡ row_in_list self.now volume }
    {
        &self.places[usize::from(volume.get())]
    }

    /// Puts what is given into the place of a volume.
    pub fn put(&mut self, volume: VolumeNo, row: Option<VolumeRow>)
        ensures rows { self.new ≡ slice_set self.old volume row }
        ensures places { length self.old ≡ 32 }
    {
        look(&row);
        self.places[usize::from(volume.get())] = row;
    }

    /// Changes the row of a volume. It takes no memory.
    pub fn change(&mut self, volume: VolumeNo, change: &Change)
        requires { HasRow self.old volume (λ r. IsAllowed change.now r) }
        ensures rows { self.new ≡ with_changed volume change.now self.old }
        ensures row { row_in_list self.new volume
            ≡ option_map (effect change.now) (row_in_list self.old volume) }
    {
        let Some(row) = &mut self.places[usize::from(volume.get())] else {
            unreachable!()
        };
        apply(row, change);
        // That it is a row still, which a body knows of one that it looks into.
        let _ = &row.states;
    }
}
