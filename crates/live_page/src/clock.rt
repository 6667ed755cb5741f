//! The clock of a live page, for hosts that run the parts of an update themselves.

ghost use Rattle.std.specs.Prelude.{◌≡◌};
ghost use Rattle.live_page.specs.Engines.{ClockSet};

use crate::faults::LiveFault;
use crate::live::LivePage;
use crate::runs::MOST_TIME;

impl LivePage {
    /// Sets the clock to a time in milliseconds, at most 1,000,000,000,000, for a host that runs the parts of an update
    /// itself; `tick` sets it by itself. No command is counted.
    ///
    /// # Errors
    /// `Time` exactly if the time is past the last one or before the clock's; nothing is changed then.
    pub fn set_time(&mut self, time: u64) -> Result<(), LiveFault>
        ensures { ClockSet time result self.old self.new }
    {
        if time > MOST_TIME {
            return Err(LiveFault::Time);
        }
        match self.page.set_time(time) {
            Ok(()) => Ok(()),
            Err(_) => Err(LiveFault::Time),
        }
    }
}
