// The changes of rows that a session's console tells.
ghost use Rattle.std.specs.Prelude.{◌≡◌};
ghost use Rattle.mss_base.specs.Puts.{Puts};
ghost use Rattle.report_text.specs.Causes.{HasOutputCause};
ghost use Rattle.session_report.specs.Reports.{changes_text, message_line};

use core_state::Message;
use mss_base::{Bytes, Sink};
use report_text::{ReportFault, put_change};

fn put_message<O: Sink>(
    output: &mut O,
    line: &mut Bytes,
    number: u64,
    message: &Message,
) -> Result<(), ReportFault>
    ensures bytes { O.tells → Puts result (O.told output.old) (O.told output.new)
        (message_line number message.now) }
    ensures cause { HasOutputCause (O.faults output.old) (O.faults output.new) result }
{
    put_change(
        output,
        line,
        number,
        message.volume,
        &message.change,
        message.freed,
    )
}

/// Puts the changes of rows, numbered from 1, a line each.
#[tactic(auto, unfolding(crate::specs::Reports::changes_text))]
pub fn put_changes<O: Sink>(
    output: &mut O,
    line: &mut Bytes,
    console: &[Message],
) -> Result<(), ReportFault>
    ensures bytes { O.tells → Puts result (O.told output.old) (O.told output.new)
        (changes_text console.now) }
    ensures cause { HasOutputCause (O.faults output.old) (O.faults output.new) result }
{
    let mut number = 1;
    for message in console {
        put_message(output, line, number, message)?;
        number += 1;
    }
    Ok(())
}
