// A place in a script.
ghost use Rattle.std.specs.Prelude.{◌≡◌, ◌≢◌, ◌≤◌, ◌<◌, List, None, IfOk, OnErr, length, map, drop, is_some, IsTrue};
ghost use Rattle.std.specs.Option.{option_map};
ghost use Rattle.channel_commands.specs.Views.{call_of, reply_of};
ghost use Rattle.channel_program.specs.Script.{ItemData, Standing, at_start, next_call};
ghost use Rattle.channel_program.specs.Views.{Says};
ghost use Rattle.channel_program.specs.declared.cursor.NextCall.TheVariants.{Ended};
ghost use Rattle.job_text.specs.Views.{item_of};
ghost use Rattle.script_places.specs.Places.{StandsAt, KnowsNext, HoldsNext, IsPlace, IsWithin, IsAt, IsPassed};
ghost use Rattle.script_places.specs.Scripts.{Left, not_begun, next_of, left_by};

use channel_commands::{BreakCause, Call, Reply};
use channel_program::{Cursor, NextCall, Program, command_call, next};
use job_text::Item;
use mss_base::NoMemory;

/// A place in a script: its item, what comes next in it, if it is a program, and the call that waits there.
#[derive(Drop)]
pub struct Place {
    /// The number of the item. Behind the last one nothing is left.
    pub item: usize,
    /// The next call of the item's program.
    pub next: NextCall,
    /// Where the program stands, once this call is made.
    pub cursor: Cursor,
    /// The call that comes next, once it was made. It waits here for its reply, so that it isn't made anew at each try.
    pub call: Option<Call>,
}

impl Place {
    /// At an item that is no program, or behind the last one.
    fn at(item: usize) -> Place
        ensures item { result.item ≡ item }
        ensures fresh { result.call ≡ None }
    {
        Place {
            item,
            next: NextCall::Ended,
            cursor: Cursor::start(),
            call: None,
        }
    }
}

/// The place at the start of an item, or behind the last one.
pub fn entered(items: &[Item], item: usize) -> Place
    requires within { item ≤ length items.now }
    ensures { StandsAt (map item_of items.now) (not_begun (drop item (map item_of items.now)))
        result }
{
    match items.get(item) {
        Some(Item::Run(program)) => begun(program, item),
        Some(Item::Mount { .. }) => Place::at(item),
        Some(Item::Demount) => Place::at(item),
        None => Place::at(item),
    }
}

/// The place at the start of a program.
fn begun(program: &Program, item: usize) -> Place
    ensures item { result.item ≡ item }
    ensures knows { KnowsNext program.now at_start result }
    ensures fresh { result.call ≡ None }
{
    let mut cursor = Cursor::start();
    let next = next(program, &mut cursor, None);
    Place {
        item,
        next,
        cursor,
        call: None,
    }
}

/// Moves a place to the start of an item, or behind the last one. It stands apart, so that the way within a program
/// stays short.
#[inline(never)]
fn enter(items: &[Item], item: usize, place: &mut Place)
    requires within { item ≤ length items.now }
    ensures { StandsAt (map item_of items.now) (not_begun (drop item (map item_of items.now)))
        place.new }
{
    *place = entered(items, item);
}

/// Lets go of the call that waits at a place. Mostly none does, and then nothing is written.
#[inline(always)]
fn forget_call(place: &mut Place)
    ensures { place.new ≡ record place.old { call = None } }
{
    if place.call.is_some() {
        place.call = None;
    }
}

/// Moves a place behind the reply to the call that came next. Within a program it changes in place.
#[inline(always)]
pub fn pass(items: &[Item], place: &mut Place, reply: &Reply)
    ensures { let script = map item_of items.now in
        (left : Left) → StandsAt script left place.old
        → StandsAt script (left_by left.items left.at (reply_of reply.now)) place.new }
{
    match items.get(place.item) {
        Some(Item::Run(program)) => pass_call(items, program, place, reply),
        Some(Item::Mount { .. }) => enter(items, place.item + 1, place),
        Some(Item::Demount) => enter(items, place.item + 1, place),
        None => forget_call(place),
    }
}

/// Moves a place on within a program, or behind it, after the reply to its call.
#[inline(always)]
fn pass_call(items: &[Item], program: &Program, place: &mut Place, reply: &Reply)
    requires within { place.old.item < length items.now }
    ensures { (at : Standing) (more : List ItemData)
        → IsWithin (map item_of items.now) program.now at more place.old
        → IsPassed (map item_of items.now) program.now at more
        (reply_of reply.now) place.new }
{
    match place.next {
        NextCall::Command { .. } => pass_command(items, program, place, reply),
        NextCall::ProgramCheck => enter(items, place.item + 1, place),
        NextCall::ChainLimit => enter(items, place.item + 1, place),
        NextCall::Ended => enter(items, place.item + 1, place),
    }
}

/// Moves a place on within a program, or behind it, after the reply to its command.
#[inline(always)]
fn pass_command(items: &[Item], program: &Program, place: &mut Place, reply: &Reply)
    requires within { place.old.item < length items.now }
    ensures { (at : Standing) (more : List ItemData)
        → IsWithin (map item_of items.now) program.now at more place.old
        → IsAt program.now at place.old.cursor (reply_of reply.now)
        → IsPassed (map item_of items.now) program.now at more
        (reply_of reply.now) place.new }
{
    match next(program, &mut place.cursor, Some(reply)) {
        NextCall::Ended => enter(items, place.item + 1, place),
        next => go_on(place, next),
    }
}

/// Moves a place on to the next call of its program.
#[inline(always)]
fn go_on(place: &mut Place, next: NextCall)
    ensures { place.new ≡ record place.old { next = next; call = None } }
{
    place.next = next;
    forget_call(place);
}

/// The call that comes next in a program.
#[inline(always)]
fn program_call(program: &Program, next: NextCall) -> Result<Call, NoMemory>
    requires some { next ≢ Ended }
    requires held { HoldsNext program.now next }
    ensures { (at : Standing) → Says program.now at next
        → IfOk result (λ call. next_call program.now at ≡ Some (call_of call)) }
{
    match next {
        NextCall::Command { word, chained } => command_call(program, word, chained),
        NextCall::ProgramCheck => Ok(Call::Break {
            cause: BreakCause::Program,
        }),
        NextCall::ChainLimit => Ok(Call::Break {
            cause: BreakCause::Limit,
        }),
        NextCall::Ended => unreachable!(),
    }
}

/// Makes the call that comes next in a script, if one does.
#[inline(always)]
fn next_call(items: &[Item], place: &Place) -> Result<Option<Call>, NoMemory>
    requires stands { IsPlace (map item_of items.now) place.now }
    ensures call { (left : Left) → StandsAt (map item_of items.now) left place.now
        → IfOk result (λ call. option_map call_of call ≡ next_of left.items left.at) }
    ensures memory { (left : Left) → StandsAt (map item_of items.now) left place.now
        → OnErr result (IsTrue (is_some (next_of left.items left.at))) }
{
    match items.get(place.item) {
        Some(Item::Mount { volume, bind }) => Ok(Some(Call::Mount {
            volume: *volume,
            bind: *bind,
        })),
        Some(Item::Demount) => Ok(Some(Call::Demount)),
        Some(Item::Run(program)) => Ok(Some(program_call(program, place.next)?)),
        None => Ok(None),
    }
}

/// The call that comes next in a script, if one does: the one that waits at the place, or else one that is made. It
/// waits there no longer.
#[inline(always)]
pub fn due_call(items: &[Item], place: &mut Place) -> Result<Option<Call>, NoMemory>
    requires stands { IsPlace (map item_of items.now) place.old }
    ensures call { (left : Left) → StandsAt (map item_of items.now) left place.old
        → IfOk result (λ call. option_map call_of call ≡ next_of left.items left.at) }
    ensures memory { (left : Left) → StandsAt (map item_of items.now) left place.old
        → OnErr result (IsTrue (is_some (next_of left.items left.at))) }
    ensures stays { (left : Left) → StandsAt (map item_of items.now) left place.old
        → StandsAt (map item_of items.now) left place.new }
{
    if place.call.is_some() {
        return Ok(place.call.take());
    }
    next_call(items, place)
}

/// Whether a call is left in a script.
pub fn has_call(items: &[Item], place: &Place) -> bool
    ensures { (left : Left) → StandsAt (map item_of items.now) left place.now
        → result ≡ is_some (next_of left.items left.at) }
{
    place.item < items.len()
}
