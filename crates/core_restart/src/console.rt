// The messages of what was done to the volumes.
ghost use Rattle.std.specs.Prelude.{◌≡◌, ◌≤◌, ◌+◌, ◌++◌, [], ◌∷◌, length, map};
ghost use Rattle.core_restart.specs.Console.{message_in};

use core_state::{Message, MessageList};
use mss_restart::OpeningStep;

/// Puts the message of a step.
fn tell(console: &mut MessageList, step: &OpeningStep)
    requires { 1 ≤ console.old.spare }
    ensures items { console.new.items ≡ console.old.items ++ message_in step.now ∷ [] }
    ensures room { console.new.spare + 1 ≡ console.old.spare }
{
    console.push(Message {
        mark: step.writes,
        volume: step.volume,
        change: step.change,
        freed: None,
    });
}

/// Puts a message of each step, in order.
pub fn tell_steps(console: &mut MessageList, steps: &[OpeningStep])
    requires { length steps.now ≤ console.old.spare }
    ensures items { console.new.items ≡ console.old.items ++ map message_in steps.now }
    ensures room { console.new.spare + length steps.now ≡ console.old.spare }
{
    for step in steps {
        tell(console, step);
    }
}
