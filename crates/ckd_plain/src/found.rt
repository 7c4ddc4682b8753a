// A record that a command found.
ghost use Rattle.std.specs.Prelude.{◌≡◌, true};
ghost use Rattle.ckd_track.specs.Data.{HasCount};
ghost use Rattle.ckd_plain.specs.Data.{two_bytes, count_of, record_zero};
ghost use Rattle.ckd_plain.specs.Effects.{is_ending, status_of};
ghost use Rattle.ckd_plain.specs.Views.{item_of};

use crate::done::{DONE, END_OF_FILE};
use crate::host::HostState;
use ckd_track::Record;

static EIGHT_ZEROS: [u8; 8] = [0; 8];

/// A record that was found, lent from where it stands, and the host as it is then.
#[derive(Clone, Copy)]
pub struct FoundRecord<'a> {
    /// Its place on the track, 0 for R0.
    pub number: u8,
    pub id: [u8; 5],
    pub key: &'a [u8],
    pub body: &'a [u8],
    pub host: HostState,
}

/// The two bytes of a number.
pub fn two_bytes(number: u16) -> [u8; 2]
    ensures { result ≡ two_bytes number }
{
    [(number / 256) as u8, (number % 256) as u8]
}

impl<'a> FoundRecord<'a> {
    /// R0 of the host's track.
    pub fn zero(host: &HostState) -> FoundRecord<'a>
        ensures item { item_of result ≡ record_zero host.now }
        ensures number { result.number ≡ 0 }
        ensures host_ { result.host ≡ host.now }
    {
        let [c, cc] = two_bytes(host.cylinder.get());
        let [h, hh] = two_bytes(u16::from(host.head.get()));
        FoundRecord {
            number: 0,
            id: [c, cc, h, hh, 0],
            key: &[],
            body: &EIGHT_ZEROS,
            host: *host,
        }
    }

    /// A record of a track.
    pub fn stored(number: u8, stored: &'a Record, host: &HostState) -> FoundRecord<'a>
        ensures item { item_of result ≡ stored.now }
        ensures number { result.number ≡ number }
        ensures host_ { result.host ≡ host.now }
    {
        FoundRecord {
            number,
            id: stored.id,
            key: stored.key.as_slice(),
            body: stored.body.as_slice(),
            host: *host,
        }
    }

    /// Its count, CC HH R KL DL DL.
    pub fn count(&self) -> [u8; 8]
        requires { HasCount (item_of self.now) }
        ensures { result ≡ count_of (item_of self.now) }
    {
        let [c, cc, h, hh, r] = self.id;
        let [d, dd] = two_bytes(self.body.len() as u16);
        [c, cc, h, hh, r, self.key.len() as u8, d, dd]
    }

    /// The status of a command that reads or updates it: end of file where it has no data.
    #[tactic(auto, unfolding(crate::specs::Effects::is_ending))]
    pub fn status(&self) -> u8
        ensures value { result ≡ status_of (item_of self.now) }
        ensures ends { is_ending result ≡ true }
    {
        if self.body.is_empty() {
            END_OF_FILE
        } else {
            DONE
        }
    }
}
