// Searches.
ghost use Rattle.std.specs.Prelude.{◌≡◌, ◌≤◌, length, true};
ghost use Rattle.ckd_plain.specs.Effects.{is_ending, is_met, is_key_met, search_status, prior_left, home_searched, id_searched, key_searched, key_at_hand, search};
ghost use Rattle.ckd_plain.specs.Views.{found_of, effect_of};

use crate::done::{DONE, DoneCommand, MET};
use crate::found::{FoundRecord, two_bytes};
use crate::host::{HostState, Position, Prior};
use channel_commands::SearchTest;
use mss_base::Bytes;
use std::alloc::Global;
use std::cmp::Ordering;

/// Whether the track's bytes, which compare so with the argument's, meet the test.
fn is_met(test: SearchTest, order: Ordering) -> bool
    ensures { result ≡ is_met test order }
{
    match test {
        SearchTest::Equal => order == Ordering::Equal,
        SearchTest::High => order == Ordering::Greater,
        SearchTest::EqualOrHigh => order != Ordering::Less,
    }
}

fn is_key_met(test: SearchTest, key: &[u8], argument: &[u8]) -> bool
    ensures { result ≡ is_key_met test key.now argument.now }
{
    let compared = key.len().min(argument.len());
    !key.is_empty() && is_met(test, (&key[..compared]).cmp(&&argument[..compared]))
}

#[tactic(auto, unfolding(crate::specs::Effects::is_ending))]
fn search_status(met: bool) -> u8
    ensures value { result ≡ search_status met }
    ensures ends { is_ending result ≡ true }
{
    if met { MET } else { DONE }
}

fn prior_left(test: SearchTest, met: bool, left: Prior) -> Prior
    ensures { result ≡ prior_left test met left }
{
    if met && test == SearchTest::Equal {
        left
    } else {
        Prior::Nothing
    }
}

/// Search home address equal, of a host that stands at the home address.
pub fn home_searched(alloc: Global, there: &HostState, argument: &[u8]) -> DoneCommand
    requires { 4 ≤ length argument.now }
    ensures value { effect_of result ≡ home_searched argument.now there.now }
{
    let [c, cc] = two_bytes(there.cylinder.get());
    let [h, hh] = two_bytes(u16::from(there.head.get()));
    let address = [c, cc, h, hh];
    let met = is_met(SearchTest::Equal, address.as_slice().cmp(&&argument[..4]));
    DoneCommand {
        status: search_status(met),
        bytes: Bytes::new(alloc),
        host: HostState {
            position: Position::Home,
            ..*there
        },
    }
}

impl FoundRecord<'_> {
    /// Search ID at this record.
    pub fn id_searched(&self, alloc: Global, test: SearchTest, argument: &[u8]) -> DoneCommand
        requires { 5 ≤ length argument.now }
        ensures value { effect_of result ≡ id_searched test argument.now (found_of self.now) }
    {
        let met = is_met(test, self.id.as_slice().cmp(&&argument[..5]));
        DoneCommand {
            status: search_status(met),
            bytes: Bytes::new(alloc),
            host: HostState {
                position: Position::Count(self.number),
                prior: prior_left(test, met, Prior::IdEqual(self.number)),
                ..self.host
            },
        }
    }

    /// Search key at this record.
    pub fn key_searched(&self, alloc: Global, test: SearchTest, argument: &[u8]) -> DoneCommand
        ensures value { effect_of result ≡ key_searched test argument.now (found_of self.now) }
    {
        let met = is_key_met(test, self.key, argument);
        DoneCommand {
            status: search_status(met),
            bytes: Bytes::new(alloc),
            host: HostState {
                position: Position::Key(self.number),
                prior: prior_left(test, met, Prior::KeyEqual(self.number)),
                ..self.host
            },
        }
    }
}

/// The record at hand for a search key.
pub fn key_at_hand(position: Position) -> Option<u8>
    ensures { result ≡ key_at_hand position }
{
    match position {
        Position::Count(number) if number > 0 => Some(number),
        _ => None,
    }
}
