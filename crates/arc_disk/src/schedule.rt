//! Which device calls of a disk in memory fail.
ghost use Rattle.std.specs.Prelude.{◌≡◌, ◌≤◌};
ghost use Rattle.arc_bytes.specs.Counts.{next_count};
ghost use Rattle.arc_disk.specs.declared.schedule.Arming.TheVariants.{Unarmed};
ghost use Rattle.arc_disk.specs.Schedule.{after_stop, after_turn, due, fill_of, nearer};

/// The stop that is set.
#[derive(Clone, Copy, PartialEq, Eq)]
pub(crate) enum Arming {
    /// None.
    Unarmed,
    /// The disk stops in this many device calls.
    Armed { calls: u32, fill: u8 },
    /// The disk stopped.
    Stopped { fill: u8 },
}

/// What becomes of a device call.
#[derive(Clone, Copy, PartialEq, Eq)]
pub(crate) enum Turn {
    /// It is done.
    Goes,
    /// The disk stops in it.
    Stops,
    /// It fails and changes nothing.
    Fails,
}

/// The device calls that are to fail, the stop that is set, and the count of faults.
#[derive(Drop)]
pub(crate) struct Schedule {
    pub failing: Vec<u64>,
    pub arming: Arming,
    pub faults: u64,
}

impl Schedule {
    /// The device calls with these numbers fail, and no stop is set.
    pub(crate) fn new(failing: Vec<u64>) -> Schedule
        ensures failing { result.failing ≡ failing }
        ensures arming { result.arming ≡ Unarmed }
        ensures faults { result.faults ≡ 0 }
    {
        Schedule {
            failing,
            arming: Arming::Unarmed,
            faults: 0,
        }
    }

    /// What becomes of the device call with this number, which comes now. One that fails is counted.
    pub(crate) fn turn(&mut self, call: u64) -> Turn
        ensures turn { result ≡ due self.old call }
        ensures after { self.new ≡ after_turn self.old result }
        ensures later { self.old.faults ≤ next_count self.old.faults }
    {
        let turn = self.due(call);
        self.arming = nearer(self.arming);
        let faults = self.faults.saturating_add(1);
        if turn == Turn::Fails {
            self.faults = faults;
        }
        turn
    }

    /// The disk stops, which is counted. Each later call fails.
    pub(crate) fn stop(&mut self)
        ensures { self.new ≡ after_stop self.old }
    {
        self.arming = Arming::Stopped { fill: self.fill() };
        self.faults = self.faults.saturating_add(1);
    }

    /// The byte that a crash leaves in what waits.
    pub(crate) fn fill(&self) -> u8
        ensures { result ≡ fill_of self.now.arming }
    {
        match self.arming {
            Arming::Unarmed => 0,
            Arming::Armed { fill, .. } | Arming::Stopped { fill } => fill,
        }
    }

    fn due(&self, call: u64) -> Turn
        ensures { result ≡ due self.now call }
    {
        match self.arming {
            Arming::Armed { calls: 0, .. } => Turn::Stops,
            Arming::Stopped { .. } => Turn::Fails,
            _ if self.failing.contains(&call) => Turn::Fails,
            _ => Turn::Goes,
        }
    }
}

/// One device call later.
fn nearer(arming: Arming) -> Arming
    ensures { result ≡ nearer arming }
{
    match arming {
        Arming::Armed { calls, fill } => Arming::Armed {
            calls: calls.saturating_sub(1),
            fill,
        },
        _ => arming,
    }
}
