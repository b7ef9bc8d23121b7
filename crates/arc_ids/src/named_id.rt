//! Identifiers that are drawn from 1 on, one counter a kind, and have a text.
ghost use Rattle.std.specs.Prelude.{◌≡◌, IfOk, string_bytes};
ghost use Rattle.std.specs.Result.{result_ok};
ghost use Rattle.arc_ids.specs.Texts.{panel_text, control_text, rule_text, resource_text, panel_of_text, control_of_text, rule_of_text, resource_of_text};

use crate::digits::{digits, number_of};
use arc_bytes::Memory;
use std::alloc::{AllocError, Global};

/// A control panel.
#[derive(Clone, Copy, Debug, PartialEq, Eq, PartialOrd, Ord)]
pub struct PanelId(pub u64);

/// A routing control.
#[derive(Clone, Copy, Debug, PartialEq, Eq, PartialOrd, Ord)]
pub struct ControlId(pub u64);

/// A safety rule.
#[derive(Clone, Copy, Debug, PartialEq, Eq, PartialOrd, Ord)]
pub struct RuleId(pub u64);

/// A managed resource.
#[derive(Clone, Copy, Debug, PartialEq, Eq, PartialOrd, Ord)]
pub struct ResourceId(pub u64);

/// A zonal shift or a practice run.
#[derive(Clone, Copy, Debug, PartialEq, Eq, PartialOrd, Ord)]
pub struct ShiftId(pub u64);

/// The text is no identifier of its kind.
#[derive(Clone, Copy, Debug, PartialEq, Eq)]
pub struct BadId;

impl PanelId {
    /// The text of the identifier, as `arn:arc:panel/0000000000000001`.
    #[tactic(auto, unfolding(crate::specs::Texts::panel_text))]
    pub fn text(self, alloc: Global) -> Result<String, Memory>
        ensures { IfOk result (λ text. string_bytes text ≡ panel_text self) }
    {
        let digits = digits(alloc, self.0)?;
        Ok(format!(in alloc; "arn:arc:panel/{digits}")?)
    }

    /// The identifier with this text, whose sixteen digits may be of either case. `BadId` comes exactly for any other.
    #[tactic(auto, unfolding(crate::specs::Texts::panel_of_text))]
    pub fn of_text(text: &str) -> Result<PanelId, BadId>
        ensures { result_ok result ≡ panel_of_text text.now }
    {
        Ok(PanelId(number_of("arn:arc:panel/", text)?))
    }
}

impl ControlId {
    /// The text of the identifier, as `arn:arc:control/0000000000000001`.
    #[tactic(auto, unfolding(crate::specs::Texts::control_text))]
    pub fn text(self, alloc: Global) -> Result<String, Memory>
        ensures { IfOk result (λ text. string_bytes text ≡ control_text self) }
    {
        let digits = digits(alloc, self.0)?;
        Ok(format!(in alloc; "arn:arc:control/{digits}")?)
    }

    /// The identifier with this text, whose sixteen digits may be of either case. `BadId` comes exactly for any other.
    #[tactic(auto, unfolding(crate::specs::Texts::control_of_text))]
    pub fn of_text(text: &str) -> Result<ControlId, BadId>
        ensures { result_ok result ≡ control_of_text text.now }
    {
        Ok(ControlId(number_of("arn:arc:control/", text)?))
    }
}

impl RuleId {
    /// The text of the identifier, as `arn:arc:rule/0000000000000001`.
    #[tactic(auto, unfolding(crate::specs::Texts::rule_text))]
    pub fn text(self, alloc: Global) -> Result<String, Memory>
        ensures { IfOk result (λ text. string_bytes text ≡ rule_text self) }
    {
        let digits = digits(alloc, self.0)?;
        Ok(format!(in alloc; "arn:arc:rule/{digits}")?)
    }

    /// The identifier with this text, whose sixteen digits may be of either case. `BadId` comes exactly for any other.
    #[tactic(auto, unfolding(crate::specs::Texts::rule_of_text))]
    pub fn of_text(text: &str) -> Result<RuleId, BadId>
        ensures { result_ok result ≡ rule_of_text text.now }
    {
        Ok(RuleId(number_of("arn:arc:rule/", text)?))
    }
}

impl ResourceId {
    /// The text of the identifier, as `arn:arc:resource/0000000000000001`.
    #[tactic(auto, unfolding(crate::specs::Texts::resource_text))]
    pub fn text(self, alloc: Global) -> Result<String, Memory>
        ensures { IfOk result (λ text. string_bytes text ≡ resource_text self) }
    {
        let digits = digits(alloc, self.0)?;
        Ok(format!(in alloc; "arn:arc:resource/{digits}")?)
    }

    /// The identifier with this text, whose sixteen digits may be of either case. `BadId` comes exactly for any other.
    #[tactic(auto, unfolding(crate::specs::Texts::resource_of_text))]
    pub fn of_text(text: &str) -> Result<ResourceId, BadId>
        ensures { result_ok result ≡ resource_of_text text.now }
    {
        Ok(ResourceId(number_of("arn:arc:resource/", text)?))
    }
}
