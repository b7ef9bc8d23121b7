//! Configurations of practice runs.
ghost use Rattle.std.specs.Prelude.{◌≡◌, ◌==◌, find, is_some, option_copied, option_map, position};
ghost use Rattle.arc_plain.specs.Practice.{replaced};

use arc_data::{Configured, PracticeChange, PracticeConfig, ResourceId};

/// A resource's configuration.
pub(crate) fn config_with(configs: &[Configured], resource: ResourceId) -> Option<&PracticeConfig>
    ensures { option_copied result ≡ option_map (λ c. c.config) (find (λ c. c.resource.0 == resource.0) configs.now) }
{
    match configs.iter().find(|c| c.resource.0 == resource.0) {
        Some(found) => Some(&found.config),
        None => None,
    }
}

/// Whether a resource has a configuration.
pub(crate) fn is_configured(configs: &[Configured], resource: ResourceId) -> bool
    ensures { result ≡ is_some (option_map (λ c. c.config) (find (λ c. c.resource.0 == resource.0) configs.now)) }
{
    config_with(configs, resource).is_some()
}

/// The place of a resource's configuration.
pub(crate) fn place_of(configs: &[Configured], resource: ResourceId) -> Option<usize>
    ensures { result ≡ position (λ c. c.resource.0 == resource.0) configs.now }
{
    configs.iter().position(|c| c.resource.0 == resource.0)
}

/// Puts what is given in place of what is kept.
pub(crate) fn replace(kept: &mut Configured, change: PracticeChange)
    ensures { kept.new ≡ replaced change kept.old }
{
    let PracticeChange {
        blocked_dates,
        blocked_windows,
        blocking_alarms,
        outcome_alarms,
    } = change;
    if let Some(dates) = blocked_dates {
        kept.config.blocked_dates = dates;
    }
    if let Some(windows) = blocked_windows {
        kept.config.blocked_windows = windows;
    }
    if let Some(alarms) = blocking_alarms {
        kept.config.blocking_alarms = alarms;
    }
    if let Some(alarms) = outcome_alarms {
        kept.config.outcome_alarms = alarms;
    }
}
