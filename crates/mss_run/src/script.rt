// A host's script, call after call.
ghost use Rattle.std.specs.Prelude.{◌≡◌, [], map};
ghost use Rattle.channel_program.specs.Items.{EndsScript};
ghost use Rattle.channel_program.specs.Script.{Follows};
ghost use Rattle.job_text.specs.Views.{item_of};
ghost use Rattle.mss_run.specs.Owns.{asked_by, exchanges_by};
ghost use Rattle.mss_run.specs.Walks.{HasWalked, WalksOn};

use crate::actor::{Gate, Run};
use crate::hold::Hold;
use crate::host::Running;
use crate::setup::Setup;
use job_text::Item;
use mss_base::Site;
use script_places::{Place, due_call, entered, pass};
use std::sync::Wait;
use victim_choice::Choose;

impl<'a, N: Setup, S: Site, C: Choose, G: Gate, R: Wait> Run<'a, N, S, C, G, R> {
    /// Makes the next call of a script. None where the script goes on behind its reply; else whether the script is
    /// finished: it isn't where the run has ended.
    fn step_script(
        &self,
        hold: &mut Hold<'a, N, S, C>,
        running: Running<N>,
        items: &[Item],
        place: &mut Place,
    ) -> (Running<N>, Option<bool>)
        requires walked { HasWalked (map item_of items.now) running place.old }
        ensures goes { WalksOn (map item_of items.now) result.0 place.new result.1 }
        ensures host { result.0.host ≡ running.host }
    {
        let Ok(due) = due_call(items, place) else {
            self.shared.end(self.rt, hold);
            return (running, Some(false));
        };
        let Some(call) = due else {
            return (running, Some(true));
        };
        let (now, reply) = self.make_call(hold, running, &call);
        let Some(reply) = reply else {
            return (now, Some(false));
        };
        pass(items, place, &reply);
        (now, None)
    }

    /// Runs a host's script from its first item. False where the run ended before the script.
    pub fn run_script(
        &self,
        hold: &mut Hold<'a, N, S, C>,
        mut running: Running<N>,
        items: &[Item],
    ) -> (Running<N>, bool)
        requires begins { exchanges_by running ≡ [] }
        requires unasked { asked_by running ≡ [] }
        ensures ends { EndsScript (map item_of items.now) (exchanges_by result.0) result.1 }
        ensures asks { Follows (map item_of items.now) (asked_by result.0) }
        ensures host { result.0.host ≡ running.host }
    {
        let mut place = entered(items, 0);
        for _ in self.rt.forever() {
            let (now, end) = self.step_script(hold, running, items, &mut place);
            match end {
                None => running = now,
                Some(finished) => return (now, finished),
            }
        }
        unreachable!()
    }
}
