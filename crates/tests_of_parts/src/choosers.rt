// Choosers at three candidates.
ghost use Rattle.std.specs.Prelude.{◌≤◌, length};

use mss_base::{Cylinder, FrameNo, VolumeNo};
use std::test::Fail;
use victim_choice::{Candidate, Choose, Chooser, Kept, Lru};

fn candidate(frame: u8, changed: u8) -> Result<Candidate, Fail> {
    Ok(Candidate {
        frame: FrameNo::of(frame).ok_or("frame")?,
        volume: VolumeNo::of(3).ok_or("volume")?,
        page: Cylinder::of(403).ok_or("cylinder")?.page(),
        changed,
    })
}

fn chosen<C: Choose + Drop>(chooser: C, candidates: &[Candidate]) -> usize
    requires able { C.can_choose chooser }
    requires some { 1 ≤ length candidates.now }
{
    Chooser::new(chooser).choose(candidates)
}

#[test]
fn choosers_answer_a_place(rt: HostRuntime) -> Result<(), Fail> {
    let three = [candidate(9, 8)?, candidate(0, 0)?, candidate(199, 1)?];
    let most = 1;
    assert_eq!(rt; chosen(Lru, &three), 0);
    assert_eq!(rt; chosen(Kept::new(|list| list.len() - 1), &three), 2);
    assert_eq!(rt;
        chosen(Kept::new(move |list| most.min(list.len() - 1)), &three),
        1
    );
    assert_eq!(rt;
        chosen(
            Kept::new(|list| list.iter().position(|c| c.changed == 0).unwrap_or(0)),
            &three
        ),
        1
    );
    Ok(())
}
