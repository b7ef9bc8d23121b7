//! Practice runs with their configurations and the red alarms, which contracts see as plain lists.
ghost use Rattle.std.specs.Prelude.{◌≡◌, ◌<◌, All, IfOk, IsSome, IsNone, option_copied};
ghost use Rattle.arc_plain.specs.Part.{Does};
ghost use Rattle.arc_plain.specs.Practice.{alarm_set, config_changed, config_of, configured, interrupted, no_practices, pending_of, run_canceled, run_of, run_started, without_config, without_run};
ghost use Rattle.arc_practice.specs.Kept.{AreAlone, AreInOrder, HaveStarted};

use crate::alarms::{cause, redden};
use crate::configs::{config_with, is_configured, place_of, replace};
use crate::progress::{outcome, status_of};
use crate::runs::{self, new_run, run_with};
use arc_bytes::Memory;
use arc_data::{
    Configured, Named, Outcome, PartEnd, PracticeChange, PracticeConfig, Refusal, ResourceId, Run,
    ShiftId, Text, ZoneName,
};
use std::alloc::Global;
use std::marker::Model;

/// The configurations in the order in which they were made, the runs by ascending identifier, and the red alarms.
#[derive(Drop)]
pub struct Practices {
    configs: Vec<Configured>,
    runs: Vec<Run>,
    red: Vec<Text>,
}

impl Model for Practices {
    ghost use Rattle.arc_plain.specs.Practice.{PlainPractices};
    ghost use Rattle.arc_practice.specs.Kept.{AreKept};

    ghost Value = { PlainPractices };

    ghost view = { λ p. record { configs = p.configs.items; runs = p.runs.items; red = p.red.items } };

    ghost invariant = { λ p. AreKept (record { configs = p.configs.items; runs = p.runs.items; red = p.red.items }) };
}

impl Practices {
    /// No configuration, no run, and no red alarm.
    #[tactic(auto, using(crate::proofs::Kept::kept_at_first))]
    pub fn fresh(alloc: Global) -> Result<Practices, Memory>
        ensures { IfOk result (λ practices. practices ≡ no_practices) }
    {
        Ok(Practices {
            configs: Vec::new(alloc),
            runs: Vec::new(alloc),
            red: Vec::new(alloc),
        })
    }

    /// Configures practice runs of a resource. It is refused as `Configured` where the resource has a configuration.
    #[tactic(auto, unfolding(arc_plain::specs::Practice::configured))]
    pub fn configure(
        &mut self,
        alloc: Global,
        resource: ResourceId,
        config: &PracticeConfig,
    ) -> Result<(), PartEnd>
        ensures { Does (configured self.old resource config.now) result self.old self.new }
    {
        if is_configured(self.configs.as_slice(), resource) {
            return Err(PartEnd::Refused(Refusal::Configured { resource }));
        }
        let config = config.copy(alloc)?;
        self.configs.push(Configured { resource, config })?;
        Ok(())
    }

    /// Changes a resource's configuration: what is given replaces. Runs keep the outcome alarms with which they started.
    /// It is refused as `NotConfigured` where the resource has no configuration.
    #[tactic(auto, unfolding(arc_plain::specs::Practice::config_changed))]
    pub fn update(
        &mut self,
        alloc: Global,
        resource: ResourceId,
        change: &PracticeChange,
    ) -> Result<(), PartEnd>
        ensures { Does (config_changed self.old resource change.now) result self.old self.new }
    {
        let Some(place) = place_of(self.configs.as_slice(), resource) else {
            return Err(PartEnd::Refused(Refusal::NotConfigured { resource }));
        };
        let change = change.copy(alloc)?;
        replace(&mut self.configs[place], change);
        Ok(())
    }

    /// Removes a resource's configuration. Its runs stay.
    pub fn remove(&mut self, resource: ResourceId)
        requires { IsSome (config_of self.old resource) }
        ensures { self.new ≡ without_config self.old resource }
    {
        self.configs.retain(|kept| kept.resource.0 != resource.0);
    }

    /// Starts a run of a resource away from a zone, for 30 minutes from `now` on. It is refused as `Blocked` where a date,
    /// a window or a red alarm blocks it.
    #[tactic(auto, using(crate::proofs::Kept::kept_after_start), unfolding(arc_plain::specs::Practice::run_started))]
    pub fn start(
        &mut self,
        alloc: Global,
        id: ShiftId,
        resource: ResourceId,
        away_from: ZoneName,
        comment: &Text,
        now: u64,
    ) -> Result<(), PartEnd>
        requires configured { IsSome (config_of self.old resource) }
        requires none_pending { IsNone (pending_of self.old.runs resource now) }
        requires new_id { All (λ r. r.id.0 < id.0) self.old.runs }
        requires after_all { HaveStarted self.old.runs now }
        ensures { Does (run_started self.old id resource away_from comment.now now) result self.old self.new }
    {
        let Some(config) = config_with(self.configs.as_slice(), resource) else {
            unreachable!()
        };
        if let Some(cause) = cause(config, self.red.as_slice(), now) {
            return Err(PartEnd::Refused(Refusal::Blocked { cause }));
        }
        let run = new_run(alloc, config, id, resource, away_from, comment, now)?;
        self.runs.push(run)?;
        Ok(())
    }

    /// Cancels a pending run, which interrupts it. It is refused as `NotFound` where no such run is kept, and as
    /// `NotActive` where it isn't pending.
    #[tactic(auto, unfolding(arc_plain::specs::Practice::run_canceled))]
    pub fn cancel(&mut self, run: ShiftId, now: u64) -> Result<(), PartEnd>
        requires after_all { HaveStarted self.old.runs now }
        ensures { Does (run_canceled self.old run now) result self.old self.new }
    {
        let Some(found) = run_with(self.runs.as_slice(), run) else {
            return Err(PartEnd::Refused(Refusal::NotFound {
                id: Named::Shift(run),
            }));
        };
        match outcome(found, now) {
            Outcome::Pending => {
                runs::cancel(&mut self.runs, run, now);
                Ok(())
            }
            over => Err(PartEnd::Refused(Refusal::NotActive {
                status: status_of(over),
            })),
        }
    }

    /// Ends the pending run of a resource as interrupted, and changes nothing where there is none.
    pub fn interrupt(&mut self, resource: ResourceId, now: u64)
        requires after_all { HaveStarted self.old.runs now }
        ensures { self.new ≡ interrupted self.old resource now }
    {
        runs::interrupt(&mut self.runs, resource, now);
    }

    /// Sets whether an alarm is red. Pending runs of which a red one is an outcome alarm fail. It is refused by `Limit`
    /// where it isn't red, is to be, and so many are.
    #[tactic(auto, unfolding(arc_plain::specs::Practice::alarm_set, crate::specs::Kept::reddened))]
    pub fn alarm(&mut self, alloc: Global, alarm: &Text, red: bool, now: u64) -> Result<(), PartEnd>
        requires after_all { HaveStarted self.old.runs now }
        ensures { Does (alarm_set self.old alarm.now red now) result self.old self.new }
    {
        if !red {
            self.red.retain(|kept| kept.as_str() != alarm.as_str());
            return Ok(());
        }
        match redden(alloc, &mut self.red, alarm) {
            Ok(()) => {
                runs::fail(&mut self.runs, alarm, now);
                Ok(())
            }
            Err(end) => Err(end),
        }
    }

    /// Forgets a run that is kept.
    pub fn forget(&mut self, run: ShiftId)
        requires { IsSome (run_of self.old run) }
        ensures { self.new ≡ without_run self.old run }
    {
        self.runs.retain(|kept| kept.id.0 != run.0);
    }

    /// A resource's configuration.
    pub fn config_of(&self, resource: ResourceId) -> Option<&PracticeConfig>
        ensures { option_copied result ≡ config_of self.now resource }
    {
        config_with(self.configs.as_slice(), resource)
    }

    /// The runs that are kept, by ascending identifier. At most one of a resource is pending at a moment that isn't before
    /// the start of any.
    #[tactic(auto, using(crate::proofs::Kept::alone))]
    pub fn list(&self) -> &[Run]
        ensures all { result.now ≡ self.now.runs }
        ensures in_order { AreInOrder self.now.runs }
        ensures alone { AreAlone self.now.runs }
    {
        self.runs.as_slice()
    }
}
