// Requests of three hosts, by value.
use fault_queue::{Queue, Request, RequestState};
use mss_base::{Cylinder, HostNo, NoMemory, VolumeNo};
use std::test::Fail;

/// What a host does: it asks for a cylinder, its request fails, or it ends.
const FAILS: u16 = 1000;

const ENDS: u16 = 1001;

/// What is done, one after the other: a host, and a cylinder or what else; and the hosts in order, with their cylinders.
const STEPS: [(u8, u16, &[[u16; 2]]); 7] = [
    (8, 403, &[[8, 403]]),
    (1, 0, &[[8, 403], [1, 0]]),
    (4, 7, &[[8, 403], [1, 0], [4, 7]]),
    (1, FAILS, &[[8, 403], [1, 0], [4, 7]]),
    (8, ENDS, &[[1, 0], [4, 7]]),
    (8, ENDS, &[[1, 0], [4, 7]]),
    (8, 1, &[[1, 0], [4, 7], [8, 1]]),
];

fn request_for(cylinder: u16, state: RequestState) -> Option<Request> {
    let volume = VolumeNo::of(3)?;
    let cylinder = Cylinder::of(cylinder)?;
    Some(Request {
        volume,
        cylinder,
        state,
    })
}

/// Does one step. A host that has a request asks for no further one.
fn step(queue: &mut Queue, host: HostNo, what: u16) -> Result<(), NoMemory> {
    if what == ENDS {
        queue.end(host);
    } else if queue.of(host).is_some() {
        queue.set(host, RequestState::Failed { fault: 9 });
    } else if let Some(request) = request_for(what, RequestState::Queued) {
        queue.ask(host, request)?;
    }
    Ok(())
}

/// The host of the request at a place, and its cylinder.
fn asked_at(queue: &Queue, place: usize) -> Option<[u16; 2]> {
    let (host, request) = queue.nth(place)?;
    Some([u16::from(host.get()), request.cylinder.get()])
}

fn is_order(queue: &Queue, order: &[[u16; 2]]) -> bool {
    (0..4).all(|place| asked_at(queue, place) == order.get(place).copied())
}

fn goes(queue: &mut Queue, host: u8, what: u16, order: &[[u16; 2]]) -> Result<bool, NoMemory> {
    let Some(host) = HostNo::of(host) else {
        return Ok(false);
    };
    step(queue, host, what)?;
    Ok(is_order(queue, order))
}

/// Whether the request of host 1 is for cylinder 0 and failed.
fn has_failed(queue: &Queue) -> bool {
    let Some(host) = HostNo::of(1) else {
        return false;
    };
    let failed = request_for(0, RequestState::Failed { fault: 9 });
    failed.is_some() && queue.of(host) == failed
}

/// Whether the requests are as they are due behind each step.
fn all_go(queue: &mut Queue) -> Result<bool, NoMemory> {
    for (host, what, order) in STEPS {
        if !goes(queue, host, what, order)? {
            return Ok(false);
        }
    }
    Ok(true)
}

#[test]
fn requests_keep_the_order_of_asking(rt: HostRuntime) -> Result<(), Fail> {
    let mut queue = Queue::new(rt.alloc())?;
    assert!(rt; all_go(&mut queue)?);
    assert!(rt; has_failed(&queue));
    Ok(())
}
