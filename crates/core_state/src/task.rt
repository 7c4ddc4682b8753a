// What a recorder works on.
ghost use Rattle.std.specs.Prelude.{◌≡◌};
ghost use Rattle.core_state.specs.Tasks.{takes, touched_all, touched_by};

use mss_base::{FrameNo, HostNo, Page, VolumeNo};
use transfers::Transfer;

/// The staging of the cylinder that a host asks for.
#[derive(Clone, Copy, Debug, PartialEq, Eq)]
pub struct Task {
    pub host: HostNo,
    /// The frame that the page has, or is to get.
    pub frame: FrameNo,
    /// The page from which the frame is still to be taken.
    pub victim: Option<(VolumeNo, Page)>,
    /// Whether a host used the victim since the task began.
    pub touched: bool,
    /// The cylinder that is being copied.
    pub transfer: Option<Transfer>,
}

/// Whether a victim is this page.
pub fn is_taken(victim: Option<(VolumeNo, Page)>, volume: VolumeNo, page: Page) -> bool
    ensures { result ≡ takes volume page victim }
{
    match victim {
        Some((of, taken)) => of == volume && taken == page,
        None => false,
    }
}

/// Marks the task touched, where it takes this page.
pub fn touch(task: Option<Task>, volume: VolumeNo, page: Page) -> Option<Task>
    ensures { result ≡ touched_by volume page task }
{
    let Some(task) = task else {
        return None;
    };
    let touched = task.touched || is_taken(task.victim, volume, page);
    Some(Task { touched, ..task })
}

/// Marks each task touched that takes this page.
pub fn touch_all(tasks: &mut Vec<Option<Task>>, volume: VolumeNo, page: Page)
    ensures { tasks.new.items ≡ touched_all volume page tasks.old.items }
{
    for i in 0..tasks.len() {
        tasks[i] = touch(tasks[i], volume, page);
    }
}
