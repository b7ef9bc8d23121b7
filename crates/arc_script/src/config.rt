//! Reading the configuration of a rule.
ghost use Rattle.std.specs.Prelude.{◌≡◌, ◌≤◌, IfOk};
ghost use Rattle.arc_data.specs.Valid.{IsThreshold};
ghost use Rattle.arc_script.specs.Configs.{at_least_of, plain_config, config_of};

use crate::ScriptCode;
use crate::words::{cut, read_count};
use arc_data::{RuleConfig, RuleKind};

/// `ATLEAST:N`, where N is from 1 to the number of controls.
#[tactic(auto, unfolding(crate::specs::Configs::at_least_of))]
fn read_at_least(controls: u16, inverted: bool, word: &str) -> Result<RuleConfig, ScriptCode>
    ensures exact { result ≡ at_least_of controls inverted word.now }
    ensures within { IfOk result (λ made. IsThreshold made.kind made.threshold controls) }
{
    let (kind, threshold) = cut(word, ':');
    if kind != "ATLEAST" {
        return Err(ScriptCode::Config);
    }
    match read_count(controls as u64, threshold) {
        Ok(threshold) => Ok(RuleConfig {
            kind: RuleKind::AtLeast,
            threshold: threshold as u16,
            inverted,
        }),
        Err(_) => Err(ScriptCode::Config),
    }
}

/// The configuration of a rule over so many controls, without the `!` that inverts.
#[tactic(auto, unfolding(crate::specs::Configs::plain_config))]
fn read_plain(controls: u16, inverted: bool, word: &str) -> Result<RuleConfig, ScriptCode>
    ensures exact { result ≡ plain_config controls inverted word.now }
    ensures within { IfOk result (λ made. IsThreshold made.kind made.threshold controls) }
{
    let kind = match word {
        "AND" => RuleKind::And,
        "OR" => RuleKind::Or,
        _ => return read_at_least(controls, inverted, word),
    };
    Ok(RuleConfig {
        kind,
        threshold: 0,
        inverted,
    })
}

/// The configuration of a rule over so many controls.
#[tactic(auto, unfolding(crate::specs::Configs::config_of))]
pub fn read_config(controls: u16, word: &str) -> Result<RuleConfig, ScriptCode>
    ensures exact { result ≡ config_of controls word.now }
    ensures within { IfOk result (λ made. IsThreshold made.kind made.threshold controls) }
{
    match word.strip_prefix('!') {
        Some(plain) => read_plain(controls, true, plain),
        None => read_plain(controls, false, word),
    }
}
