// The request of a host, of which there is mostly none.
ghost use Rattle.std.specs.Prelude.{◌≡◌, [], true};
ghost use Rattle.fault_queue.specs.Requests.{request_of, without_request};

use fault_queue::{Queue, Request};
use mss_base::HostNo;

/// Whether no host has a request, so that none needs to be looked up.
fn is_empty(requests: &Queue) -> bool
    ensures { result ≡ true → requests.now ≡ [] }
{
    requests.nth(0).is_none()
}

/// The request of a host.
pub fn request_of(requests: &Queue, host: HostNo) -> Option<Request>
    ensures { result ≡ request_of requests.now host }
{
    if is_empty(requests) {
        return None;
    }
    requests.of(host)
}

/// Ends a host's request, if it has one.
pub fn end_request(requests: &mut Queue, host: HostNo)
    ensures { requests.new ≡ without_request host requests.old }
{
    if !is_empty(requests) {
        requests.end(host);
    }
}
