// The worked moves, and moves between all places from many rails.
use accessors::{
    Accessor, CELL_PLACES, MovePlan, RAIL_END, Rail, cell_place, plan_move, recorder_place,
};
use mss_base::RecorderNo;
use std::test::Fail;

/// Where the other accessor goes first, if it stays.
const STAYS: u8 = 255;

/// The rail, a move, and what is due: whether the left accessor serves, and where the other one goes first.
const MOVES: [[u8; 6]; 6] = [
    [0, 65, 3, 5, 1, STAYS],
    [0, 65, 64, 5, 0, STAYS],
    [5, 65, 3, 13, 1, STAYS],
    [5, 13, 10, 2, 0, 1],
    [10, 20, 15, 30, 1, 31],
    [63, 65, 64, 1, 1, STAYS],
];

/// Moves one after the other, and the rail behind each.
const CARRIED: [[u8; 4]; 4] = [
    [3, 5, 5, 65],
    [3, 13, 13, 65],
    [64, 14, 13, 14],
    [10, 2, 2, 14],
];

/// The rails from which every move is tried.
const RAILS: [[u8; 2]; 11] = [
    [0, 65],
    [0, 1],
    [64, 65],
    [1, 64],
    [32, 33],
    [5, 13],
    [13, 61],
    [0, 33],
    [33, 65],
    [20, 22],
    [60, 65],
];

fn plan_of(rail: &Rail, from: u8, to: u8) -> Option<MovePlan> {
    if from < 1 || from > CELL_PLACES || to < 1 || to > CELL_PLACES {
        return None;
    }
    Some(plan_move(rail, from, to))
}

fn rail_of(left: u8, right: u8) -> Option<Rail> {
    if left >= right || right > RAIL_END {
        return None;
    }
    Some(Rail { left, right })
}

/// Whether the left accessor serves a move, where the other one goes first, and the move; nothing for another move.
fn planned(left: u8, right: u8, from: u8, to: u8) -> Option<[u8; 4]> {
    let rail = rail_of(left, right)?;
    let plan = plan_of(&rail, from, to)?;
    let is_left = u8::from(plan.serving == Accessor::Left);
    let other_to = plan.other_to.unwrap_or(STAYS);
    Some([is_left, other_to, plan.from, plan.to])
}

#[test]
fn the_nearer_accessor_serves(rt: HostRuntime) {
    for [left, right, from, to, is_left, other_to] in MOVES {
        let due = [is_left, other_to, from, to];
        assert_eq!(rt; planned(left, right, from, to), Some(due));
    }
}

/// First the other accessor gives way, then the serving one goes to the cartridge and on with it.
fn stay_apart(rail: &Rail, plan: &MovePlan) -> bool {
    let (left, right) = (rail.left, rail.right);
    let (from, to) = (plan.from, plan.to);
    match plan.serving {
        Accessor::Left => {
            let right_then = plan.other_to.unwrap_or(right);
            left < right.min(right_then) && left.max(from).max(to) < right_then
        }
        Accessor::Right => {
            let left_then = plan.other_to.unwrap_or(left);
            left.max(left_then) < right && left_then < right.min(from).min(to)
        }
    }
}

/// Whether the accessors stay apart in each move from a rail.
fn never_meet(rail: &Rail) -> bool {
    for from in 1..65 {
        for to in 1..65 {
            match plan_of(rail, from, to) {
                Some(plan) if stay_apart(rail, &plan) => (),
                _ => return false,
            }
        }
    }
    true
}

#[test]
fn the_accessors_never_meet(rt: HostRuntime) {
    for [left, right] in RAILS {
        assert!(rt; rail_of(left, right).is_some_and(|rail| never_meet(&rail)));
    }
}

/// The rail behind a move.
fn carry(rail: &mut Rail, from: u8, to: u8) -> [u8; 2] {
    if from < 1 || from > CELL_PLACES || to < 1 || to > CELL_PLACES {
        return [0, 0];
    }
    let plan = plan_move(rail, from, to);
    rail.done(&plan);
    [rail.left, rail.right]
}

#[test]
fn a_move_leaves_the_serving_accessor_at_its_end(rt: HostRuntime) {
    let mut rail = Rail::start();
    for [from, to, left, right] in CARRIED {
        assert_eq!(rt; carry(&mut rail, from, to), [left, right]);
    }
}

#[test]
fn cells_and_recorders_have_their_places(rt: HostRuntime) -> Result<(), Fail> {
    assert_eq!(rt; [cell_place(64), cell_place(2047)], [1, 64]);
    let recorder = RecorderNo::of(7).ok_or("recorder")?;
    assert_eq!(rt; recorder_place(recorder), 61);
    Ok(())
}
