//! Scripts and ticks run on a live page.

ghost use Rattle.std.specs.Prelude.{◌≡◌, ◌<◌};
ghost use Rattle.script_model.specs.Scripts.{handlers_in};
ghost use Rattle.script_syntax.specs.Allowed.{IsTime};
ghost use Rattle.page_model.specs.Outcome.{run_item, run_tick};
ghost use Rattle.page_model.specs.Runs.{caught, for_each};
ghost use Rattle.trace_runs.specs.Flows.{goes_on};
ghost use Rattle.trace_runs.specs.Runs.{Runs};
ghost use Rattle.live_page.specs.Lives.{handlers_after, KeepsNames, Played, RunsText, Ticked};

use crate::faults::LiveFault;
use crate::further::goes_with;
use crate::live::{LivePage, read};
use frame_update::tick;
use handlers::Run;
use script_items::{play, play_items};
use script_syntax::Script;
use std::marker::Brand;
use std::sync::ledger::{Blank, Ledger};
use step_count::Steps;
use text_io::Sink;
use trace_runs::RunFault;

/// The line number of a tick that no line of a script asks for.
const NO_LINE: u32 = 0;

/// The last time of a clock, in milliseconds.
pub(crate) const MOST_TIME: u64 = 1_000_000_000_000;

impl LivePage {
    /// Runs a text as a further script of the page (`play`), and writes its lines as they are produced.
    ///
    /// # Errors
    /// - `Text` if the text isn't a script, or no memory is left to read it; nothing is changed or written then.
    /// - Those of `play`.
    pub fn run<K: Sink>(&mut self, text: &[u8], sink: &mut K) -> Result<(), LiveFault>
        ensures { RunsText text.now result self.old self.new (K.taken sink.old) (K.taken sink.new) (K.faults sink.old) (K.faults sink.new) }
    {
        match read(self.alloc, text) {
            Ok(script) => self.play(script, sink),
            Err(fault) => Err(LiveFault::Text(fault)),
        }
    }

    /// Runs the items of a further script on the page as it is, and writes their lines as they are produced. What was named
    /// before keeps its name. A script without handlers uses those of the page. A script with handlers takes their place: its
    /// first ones must be those of the page, by their names and in their order, and further ones may follow; so each listener,
    /// observer and timer keeps its handler by name, with the block of the latest script.
    ///
    /// # Errors
    /// - `OtherVersion`, `OtherHandlers`: exactly if the script is of another version, or its handlers aren't so; nothing is
    ///   changed or written then.
    /// - `Stopped`: at a limit, of which only its own line isn't written yet; for want of memory; or since a write failed. The
    ///   items before were run.
    pub fn play<K: Sink>(&mut self, script: Script, sink: &mut K) -> Result<(), LiveFault>
        ensures { Played script result self.old self.new (K.taken sink.old) (K.taken sink.new) (K.faults sink.old) (K.faults sink.new) }
    {
        if script.version() != self.page.version() {
            return Err(LiveFault::OtherVersion);
        }
        if !goes_with(&self.script, &script) {
            return Err(LiveFault::OtherHandlers);
        }
        match self.play_counted::<K, Brand>(Blank::new(1), script, sink) {
            Ok(()) => Ok(()),
            Err(fault) => Err(LiveFault::Stopped(fault)),
        }
    }

    // Runs a further script, with a count of steps of its own.
    fn play_counted<K: Sink, L: Ledger>(
        &mut self,
        blank: Blank,
        script: Script,
        sink: &mut K,
    ) -> Result<(), RunFault>
        requires name { blank.name ≡ L.name }
        requires parts { blank.parts ≡ L.parts }
        requires one_part { 0 < blank.parts }
        requires kept { KeepsNames self.old.handlers (handlers_after self.old.handlers (handlers_in script.items)) }
        ensures handlers { self.new.handlers ≡ handlers_after self.old.handlers (handlers_in script.items) }
        ensures says { Runs goes_on self.new.page.world result (K.taken sink.old) (K.taken sink.new) (K.faults sink.old) (K.faults sink.new)
            (for_each (run_item (handlers_after self.old.handlers (handlers_in script.items))) (script.items) (self.old.page.world)) }
    {
        let mut steps = Steps::<L>::new(blank);
        if script.handlers() == 0 {
            let mut run = Run {
                alloc: self.alloc,
                page: &mut self.page,
                script: &self.script,
                sink,
                steps: &mut steps,
            };
            return play_items(&mut run, script.items());
        }
        self.script = script;
        let mut run = Run {
            alloc: self.alloc,
            page: &mut self.page,
            script: &self.script,
            sink,
            steps: &mut steps,
        };
        play(&mut run)
    }

    /// Runs a tick at a time in milliseconds, at most 1,000,000,000,000, and writes its lines as they are produced: the due
    /// timers, an update of the rendering, and the queued tasks. It is counted as a command; a time before the clock's
    /// throws, which is written with line 0, and the result is `Ok`.
    ///
    /// # Errors
    /// - `Time` exactly if the time is past the last one; nothing is changed or written then.
    /// - `Stopped`: at a limit, of which only its own line isn't written yet; for want of memory; or since a write failed.
    pub fn tick<K: Sink>(&mut self, time: u64, sink: &mut K) -> Result<(), LiveFault>
        ensures { Ticked time result self.old self.new (K.taken sink.old) (K.taken sink.new) (K.faults sink.old) (K.faults sink.new) }
    {
        if time > MOST_TIME {
            return Err(LiveFault::Time);
        }
        match self.tick_counted::<K, Brand>(Blank::new(1), time, sink) {
            Ok(()) => Ok(()),
            Err(fault) => Err(LiveFault::Stopped(fault)),
        }
    }

    // Runs a tick, with a count of steps of its own.
    fn tick_counted<K: Sink, L: Ledger>(
        &mut self,
        blank: Blank,
        time: u64,
        sink: &mut K,
    ) -> Result<(), RunFault>
        requires name { blank.name ≡ L.name }
        requires parts { blank.parts ≡ L.parts }
        requires one_part { 0 < blank.parts }
        requires time { IsTime time }
        ensures handlers { self.new.handlers ≡ self.old.handlers }
        ensures says { Runs goes_on self.new.page.world result (K.taken sink.old) (K.taken sink.new) (K.faults sink.old) (K.faults sink.new)
            (caught (run_tick (self.old.handlers) 0 time (self.old.page.world))) }
    {
        let mut steps = Steps::<L>::new(blank);
        let mut run = Run {
            alloc: self.alloc,
            page: &mut self.page,
            script: &self.script,
            sink,
            steps: &mut steps,
        };
        tick(&mut run, NO_LINE, time)
    }
}
