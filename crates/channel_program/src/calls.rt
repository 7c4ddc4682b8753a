// A program's command, as a call that its caller owns.
ghost use Rattle.std.specs.Prelude.{◌≡◌, ℕ, List, Some, slice_get, IsOk, IfOk};
ghost use Rattle.channel_commands.specs.Data.{device};
ghost use Rattle.channel_commands.specs.Views.{IsShort, call_of};
ghost use Rattle.channel_program.specs.Script.{Standing, next_call};
ghost use Rattle.channel_program.specs.Views.{HoldsCommand, IsNextCommand};

use crate::cursor::command_at;
use crate::program::Program;
use channel_commands::{Call, DeviceCommand};
use mss_base::NoMemory;

/// The command at a word, as a call, which shares its argument. Where that has eight bytes or fewer it doesn't fail.
#[inline(always)]
pub fn command_call(program: &Program, word: u8, chained: bool) -> Result<Call, NoMemory>
    requires { HoldsCommand program.now word }
    ensures call { (at : Standing) → IsNextCommand program.now at word chained
        → IfOk result (λ call. next_call program.now at ≡ Some (call_of call)) }
    ensures short { (code : ℕ) (argument : List ℕ)
        → slice_get program.now word ≡ Some (device code argument)
        → IsShort argument → IsOk result }
{
    let (code, argument) = command_at(program, word);
    Ok(Call::Command(DeviceCommand {
        code,
        argument: argument.share()?,
        chained,
    }))
}
