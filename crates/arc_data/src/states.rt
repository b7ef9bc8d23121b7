//! Which controls are On, as a finite map.
ghost use Rattle.std.specs.Prelude.{◌≡◌, IfOk, OnOk, OnErr, IsTrue, true, false, Some, None};
ghost use Rattle.std.specs.FinMap as map;
ghost use Rattle.arc_data.specs.States.{has_state, is_on, map_of};

use crate::ControlId;
use arc_bytes::Memory;
use std::alloc::Global;
use std::collections::BTreeMap;
use std::marker::Model;

/// The state of each control, `true` for On, which contracts see as a finite map from the control's number.
#[derive(Drop)]
pub struct States {
    states: BTreeMap<ControlId, bool>,
}

impl Model for States {
    ghost use Rattle.std.specs.Prelude.{Bool};
    ghost use Rattle.std.specs.Ordering.{nat_cmp};
    ghost use Rattle.std.specs.Coded.{coded_bool, coded_ℕ};
    ghost use Rattle.std.specs.FinMap as map;

    ghost Value = { map.FinMap nat_cmp Bool };

    ghost coded = { map.code coded_ℕ coded_bool };

    ghost use Rattle.arc_data.specs.States.{map_of};

    ghost view = { λ s. map_of s.states };
}

impl States {
    /// No control.
    pub fn new(alloc: Global) -> States
        ensures { result ≡ map.empty }
    {
        States {
            states: BTreeMap::new(alloc),
        }
    }

    /// Whether a control is On; one that isn't there isn't.
    pub fn is_on(&self, control: ControlId) -> bool
        ensures { result ≡ is_on self.now control }
    {
        self.states.get(&control).copied().unwrap_or(false)
    }

    /// Whether a control is there.
    pub fn has(&self, control: ControlId) -> bool
        ensures { result ≡ has_state self.now control }
    {
        self.states.contains_key(&control)
    }

    /// Puts a control there, or changes its state. After want of memory nothing has changed.
    pub fn insert(&mut self, control: ControlId, on: bool) -> Result<(), Memory>
        ensures ok { OnOk result (self.new ≡ map.insert self.old control.0 on) }
        ensures err { OnErr result (self.new ≡ self.old) }
    {
        self.states.insert(control, on)?;
        Ok(())
    }

    /// Changes the state of a control that is there.
    pub fn set(&mut self, control: ControlId, on: bool)
        requires { IsTrue (has_state self.old control) }
        ensures { self.new ≡ map.insert self.old control.0 on }
    {
        if let Some(state) = self.states.get_mut(&control) {
            *state = on;
        }
    }

    /// Takes a control away.
    pub fn remove(&mut self, control: ControlId)
        ensures { self.new ≡ map.remove self.old control.0 }
    {
        let _ = self.states.remove(&control);
    }
}

impl From<BTreeMap<ControlId, bool>> for States {
    ghost from_gives = { λ m s. s ≡ map_of m };

    fn from(states: BTreeMap<ControlId, bool>) -> States {
        States { states }
    }
}

impl From<States> for BTreeMap<ControlId, bool> {
    ghost from_gives = { λ s m. map_of m ≡ s };

    fn from(states: States) -> BTreeMap<ControlId, bool> {
        let States { states } = states;
        states
    }
}
