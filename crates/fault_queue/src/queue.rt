// The queue of requests.
ghost use Rattle.std.specs.Prelude.{◌≡◌, ◌++◌, [], ◌∷◌, None, OnOk, OnErr, IfOk, IsSome, slice_get};
ghost use Rattle.fault_queue.specs.Requests.{request_of, with_state, without_request};

use indexmap::IndexMap;
use mss_base::{Cylinder, HostNo, NoMemory, VolumeNo};
use std::alloc::Global;
use std::marker::Model;

/// How far a request is.
#[derive(Clone, Copy, PartialEq, Eq)]
pub enum RequestState {
    /// It waits for a recorder.
    Queued,
    /// A recorder serves it.
    Moving,
    /// Its cylinder is staged, or marked as changed, and the host may go on.
    Ready,
    /// A copy failed, and the site's count of faults was this behind it.
    Failed { fault: u64 },
}

/// What a host waits for.
#[derive(Clone, Copy, PartialEq, Eq)]
pub struct Request {
    pub volume: VolumeNo,
    pub cylinder: Cylinder,
    pub state: RequestState,
}

/// At most one request per host, in order of asking.
#[derive(Drop)]
pub struct Queue {
    requests: IndexMap<HostNo, Request>,
}

impl Model for Queue {
    ghost use Rattle.fault_queue.specs.Requests.{RequestsData, IsOnce};

    ghost Value = { RequestsData };

    ghost view = { λ q. q.requests.entries };

    ghost invariant = { λ q. IsOnce q.requests.entries };
}

impl Queue {
    /// No request, with room for one of each host.
    pub fn new(alloc: Global) -> Result<Queue, NoMemory>
        ensures { IfOk result (λ queue. queue ≡ []) }
    {
        let mut requests = IndexMap::new(alloc);
        requests.reserve(8)?;
        Ok(Queue { requests })
    }

    /// Puts a request last, for a host that has none. After want of memory nothing has changed.
    pub fn ask(&mut self, host: HostNo, request: Request) -> Result<(), NoMemory>
        requires { request_of self.old host ≡ None }
        ensures ok { OnOk result (self.new ≡ self.old ++ (host, request) ∷ []) }
        ensures err { OnErr result (self.new ≡ self.old) }
    {
        self.requests.insert(host, request)?;
        Ok(())
    }

    /// The request of a host.
    pub fn of(&self, host: HostNo) -> Option<Request>
        ensures { result ≡ request_of self.now host }
    {
        self.requests.get(&host).copied()
    }

    /// Sets the state of a host's request, which keeps its place.
    pub fn set(&mut self, host: HostNo, state: RequestState)
        requires { IsSome (request_of self.old host) }
        ensures { self.new ≡ with_state host state self.old }
    {
        if let Some(request) = self.requests.get_mut(&host) {
            request.state = state;
        }
    }

    /// Ends a host's request, if it has one. The others keep their order.
    pub fn end(&mut self, host: HostNo)
        ensures { self.new ≡ without_request host self.old }
    {
        // Mostly there is none, and then no host needs to be looked up.
        if self.requests.is_empty() {
            return;
        }
        self.requests.shift_remove(&host);
    }

    /// The request at a place, from 0, with its host.
    pub fn nth(&self, place: usize) -> Option<(HostNo, Request)>
        ensures { result ≡ slice_get self.now place }
    {
        self.requests
            .get_index(place)
            .map(|(host, request)| (*host, *request))
    }
}
