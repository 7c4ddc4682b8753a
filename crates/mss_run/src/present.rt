// Who is in a run, and whether it is over.
ghost use Rattle.std.specs.Prelude.{◌≡◌};
ghost use Rattle.std.specs.List.{list_any};
ghost use Rattle.mss_run.specs.Presence.{ended_presence, has_hosts, nobody, with_host, with_worker};
ghost use Rattle.mss_run.specs.Sleep.{has_worker};

use mss_base::{HostNo, RecorderNo};

/// Which hosts and which recorders' workers are counted in, and whether the run has ended. So a host can see whether a
/// recorder's own worker is in.
#[derive(Clone, Copy)]
pub(crate) struct Presence {
    /// By a host's number. Place 0 is nobody's.
    hosts: [bool; 9],
    /// By a recorder's number.
    workers: [bool; 8],
    ended: bool,
}

/// Whether any of these is in.
fn is_any_in(places: &[bool]) -> bool
    ensures { result ≡ list_any (λ b. b) places.now }
{
    places.iter().any(|is_in| *is_in)
}

impl Presence {
    /// Before any actor is in.
    pub fn nobody() -> Self
        ensures { result ≡ nobody }
    {
        Presence {
            hosts: [false; 9],
            workers: [false; 8],
            ended: false,
        }
    }

    /// Counts a host in or out.
    pub fn set_host(&mut self, host: HostNo, is_in: bool)
        ensures { self.new ≡ with_host host is_in self.old }
    {
        self.hosts[usize::from(host.get())] = is_in;
    }

    /// Counts a recorder's worker in or out.
    pub fn set_worker(&mut self, recorder: RecorderNo, is_in: bool)
        ensures { self.new ≡ with_worker recorder is_in self.old }
    {
        self.workers[usize::from(recorder.get())] = is_in;
    }

    /// Ends the run, for every actor.
    pub fn end(&mut self)
        ensures { self.new ≡ ended_presence self.old }
    {
        self.ended = true;
    }

    pub fn is_over(&self) -> bool
        ensures { result ≡ self.now.ended }
    {
        self.ended
    }

    /// Whether any host is in.
    pub fn has_hosts(&self) -> bool
        ensures { result ≡ has_hosts self.now }
    {
        is_any_in(&self.hosts)
    }

    /// Whether a recorder's own worker is in.
    pub fn has_worker(&self, recorder: RecorderNo) -> bool
        ensures { result ≡ has_worker recorder self.now }
    {
        self.workers[usize::from(recorder.get())]
    }
}
