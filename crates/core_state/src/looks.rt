// What the rules ask of hosts, rows and frames.
ghost use Rattle.std.specs.Prelude.{◌≡◌, ◌≤◌, ◌<◌, length, None};
ghost use Rattle.core_state.specs.Pins.{
  are_frames_bound,
  asks_for,
  binds,
  host_at,
  is_frame_bound,
  is_on,
  is_volume_bound,
  owner_among,
  owns,
  state_in,
};

use ckd_plain::HostState;
use fault_queue::{Queue, Request};
use mss_base::{Cylinder, FrameNo, HostNo, VolumeNo};
use staging_adapter::Frames;
use volume_table::Rows;

/// The state of a host.
#[tactic(auto, using(crate::proofs::LookLemmas::host_there))]
pub fn host_at(hosts: &[HostState], host: HostNo) -> HostState
    requires { length hosts.now ≡ 8 }
    ensures { result ≡ host_at hosts.now host }
{
    hosts[usize::from(host.get()) - 1]
}

/// Whether a host has the volume mounted.
pub fn is_on(host: &HostState, volume: VolumeNo) -> bool
    ensures { result ≡ is_on volume host.now.mounted }
{
    match host.mounted {
        Some((mounted, _)) => mounted == volume,
        None => false,
    }
}

/// Whether a host has the volume mounted with bind.
pub fn binds(host: &HostState, volume: VolumeNo) -> bool
    ensures { result ≡ binds volume host.now.mounted }
{
    match host.mounted {
        Some((mounted, bind)) => mounted == volume && bind,
        None => false,
    }
}

/// Whether some host has the volume mounted with bind.
pub fn is_volume_bound(hosts: &[HostState], volume: VolumeNo) -> bool
    ensures { result ≡ is_volume_bound hosts.now volume }
{
    hosts.iter().any(|host| binds(host, volume))
}

/// Whether a request is on the volume.
fn asks_for(request: Option<Request>, volume: VolumeNo) -> bool
    ensures { result ≡ asks_for volume request }
{
    match request {
        Some(request) => request.volume == volume,
        None => false,
    }
}

/// Whether a host owns the volume.
fn owns(hosts: &[HostState], requests: &Queue, volume: VolumeNo, host: HostNo) -> bool
    requires { length hosts.now ≡ 8 }
    ensures { result ≡ owns hosts.now requests.now host volume }
{
    let state = host_at(hosts, host);
    is_on(&state, volume) && (state.chain_open || asks_for(requests.of(host), volume))
}

/// The host that owns the volume.
pub fn owner_of(hosts: &[HostState], requests: &Queue, volume: VolumeNo) -> Option<HostNo>
    requires { length hosts.now ≡ 8 }
    ensures { result ≡ owner_among hosts.now requests.now volume }
{
    for number in 1..9 {
        let host = HostNo::of(number).unwrap();
        if owns(hosts, requests, volume, host) {
            return Some(host);
        }
    }
    None
}

/// The number of a cylinder's state.
pub fn state_in(rows: &Rows, volume: VolumeNo, cylinder: Cylinder) -> u8
    ensures { result ≡ state_in rows.now volume cylinder }
{
    match rows.row(volume) {
        Some(row) => row.state(cylinder).number(),
        None => 0,
    }
}

/// Whether the page that has the frame is bound.
pub fn is_bound(hosts: &[HostState], frames: &Frames, frame: FrameNo) -> bool
    requires { frame < length frames.now.owners }
    ensures { result ≡ is_frame_bound hosts.now frames.now.owners frame }
{
    match frames.owner(frame) {
        Some((volume, _)) => is_volume_bound(hosts, volume),
        None => false,
    }
}

/// Whether each of so many frames is bound.
pub fn are_all_bound(hosts: &[HostState], frames: &Frames, count: u16) -> bool
    requires count { count ≡ length frames.now.owners }
    requires few { count ≤ 200 }
    ensures { result ≡ are_frames_bound hosts.now frames.now.owners count }
{
    for number in 0..count {
        let frame = FrameNo::of(number as u8).unwrap();
        if !is_bound(hosts, frames, frame) {
            return false;
        }
    }
    true
}
