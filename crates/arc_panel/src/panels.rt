//! The panels and controls that are kept.
ghost use Rattle.std.specs.Prelude.{◌≡◌, ◌-◌, ◌<◌, ◌^◌, ◌∷◌, [], IfOk, IsTrue, OnErr, option_copied};
ghost use Rattle.arc_ids.specs.declared.named_id.ControlId.{ControlId as Id};
ghost use Rattle.arc_data.specs.States.{has_state, is_on};
ghost use Rattle.arc_plain.specs.Panels.{add_control, add_panel, fresh_panels, has_control, has_panel, list_controls, name_of, on_of, panel_of, remove_control, remove_panel, with_states};
ghost use Rattle.arc_panel.specs.Rows.{Lists, Tells};

use crate::tables::{self, Control, Panel};
use arc_bytes::Memory;
use arc_data::{ControlId, ControlItem, List, Named, PanelId, PartEnd, Refusal, States, Text};
use std::alloc::{AllocError, Global};
use std::marker::Model;

/// The panel with which a cluster starts.
const FIRST_PANEL: PanelId = PanelId(1);

/// The most panels that are kept.
const MOST_PANELS: usize = 16;

/// The most controls that are kept, in all panels.
const MOST_CONTROLS: usize = 256;

/// Panels and controls, in order of creation.
#[derive(Drop)]
pub struct Panels {
    panels: Vec<Panel>,
    panels_drawn: u64,
    controls: Vec<Control>,
    controls_drawn: u64,
    states: States,
}

impl Model for Panels {
    ghost use Rattle.arc_plain.specs.Panels.{PlainPanels};
    ghost use Rattle.arc_panel.specs.Kept.{AreKept, seen_as};

    ghost Value = { PlainPanels };

    ghost view = { λ p. seen_as p.panels.items p.panels_drawn p.controls.items p.controls_drawn p.states };

    ghost invariant = { λ p. AreKept p.panels.items p.controls.items p.controls_drawn p.states };
}

impl Panels {
    /// Panel 1, named `DefaultControlPanel`, and no control.
    pub fn fresh(alloc: Global) -> Result<Panels, Memory>
        ensures { IfOk result (λ panels. panels ≡ fresh_panels) }
    {
        let mut panels = Vec::new(alloc);
        panels.push(Panel {
            panel: FIRST_PANEL,
            name: Text::of(alloc, "DefaultControlPanel")?,
        })?;
        Ok(Panels {
            panels,
            panels_drawn: 1,
            controls: Vec::new(alloc),
            controls_drawn: 0,
            states: States::new(alloc),
        })
    }

    /// Makes a panel with the next identifier. `Limit` comes where 16 panels are kept, then `NameTaken`.
    pub fn add_panel(&mut self, alloc: Global, name: &Text) -> Result<PanelId, PartEnd>
        requires { self.old.panels_drawn < 2 ^ 64 - 1 }
        ensures does { Tells (add_panel self.old name.now) result self.new }
        ensures unchanged { OnErr result (self.new ≡ self.old) }
    {
        if self.panels.len() >= MOST_PANELS {
            return Err(PartEnd::Refused(Refusal::Limit {
                count: self.panels.len() as u32,
            }));
        }
        if let Some(holder) = tables::panel_named(self.panels.as_slice(), name) {
            return Err(name_taken(Named::Panel(holder)));
        }
        let panel = PanelId(self.panels_drawn + 1);
        let name = name.copy(alloc)?;
        self.panels.push(Panel { panel, name })?;
        self.panels_drawn = panel.0;
        Ok(panel)
    }

    /// Removes a panel. `NotFound` comes where there is none; `InUse` names panel 1 itself, which stays, or the first
    /// control of the panel.
    pub fn remove_panel(&mut self, panel: PanelId) -> Result<(), PartEnd>
        ensures does { Tells (remove_panel self.old panel) result self.new }
        ensures unchanged { OnErr result (self.new ≡ self.old) }
    {
        if !tables::has_panel(self.panels.as_slice(), panel) {
            return Err(not_found(Named::Panel(panel)));
        }
        if panel.0 == FIRST_PANEL.0 {
            return Err(in_use(Named::Panel(panel)));
        }
        if let Some(control) = tables::first_in(self.controls.as_slice(), panel) {
            return Err(in_use(Named::Control(control)));
        }
        tables::drop_panel(&mut self.panels, panel);
        Ok(())
    }

    /// Makes a control in a panel with the next identifier, Off. `NotFound` comes where there is no such panel, `Limit`
    /// where 256 controls are kept, then `NameTaken` in the panel.
    pub fn add_control(
        &mut self,
        alloc: Global,
        name: &Text,
        panel: PanelId,
    ) -> Result<ControlId, PartEnd>
        requires { self.old.controls_drawn < 2 ^ 64 - 1 }
        ensures does { Tells (add_control self.old name.now panel) result self.new }
        ensures unchanged { OnErr result (self.new ≡ self.old) }
    {
        if !tables::has_panel(self.panels.as_slice(), panel) {
            return Err(not_found(Named::Panel(panel)));
        }
        if self.controls.len() >= MOST_CONTROLS {
            return Err(PartEnd::Refused(Refusal::Limit {
                count: self.controls.len() as u32,
            }));
        }
        if let Some(holder) = tables::control_named(self.controls.as_slice(), panel, name) {
            return Err(name_taken(Named::Control(holder)));
        }
        let control = ControlId(self.controls_drawn + 1);
        let name = name.copy(alloc)?;
        self.controls.reserve(1)?;
        self.states.insert(control, false)?;
        self.controls.push(Control {
            panel,
            control,
            name,
        })?;
        self.controls_drawn = control.0;
        Ok(control)
    }

    /// Removes a control, with its state. `NotFound` comes where there is none.
    pub fn remove_control(&mut self, control: ControlId) -> Result<(), PartEnd>
        ensures does { Tells (remove_control self.old control) result self.new }
        ensures unchanged { OnErr result (self.new ≡ self.old) }
    {
        if !tables::has_control(self.controls.as_slice(), control) {
            return Err(not_found(Named::Control(control)));
        }
        tables::drop_control(&mut self.controls, control);
        self.states.remove(control);
        Ok(())
    }

    /// Whether there is a panel.
    pub fn has(&self, panel: PanelId) -> bool
        ensures { result ≡ has_panel self.now panel }
    {
        tables::has_panel(self.panels.as_slice(), panel)
    }

    /// The panel of a control.
    pub fn panel_of(&self, control: ControlId) -> Option<PanelId>
        ensures { result ≡ panel_of self.now control }
    {
        match tables::control_of(self.controls.as_slice(), control) {
            Some(control) => Some(control.panel),
            None => None,
        }
    }

    /// The name of a control.
    pub fn name_of(&self, control: ControlId) -> Option<&Text>
        ensures { option_copied result ≡ name_of self.now control }
    {
        match tables::control_of(self.controls.as_slice(), control) {
            Some(control) => Some(&control.name),
            None => None,
        }
    }

    /// The controls of one panel, or of all, in order of creation. `NotFound` comes where there is no such panel.
    pub fn list(&self, alloc: Global, panel: Option<PanelId>) -> Result<List<ControlItem>, PartEnd>
        ensures { Lists (list_controls self.now panel) result }
    {
        let controls = self.controls.as_slice();
        match panel {
            None => Ok(List::of(tables::items(alloc, controls, &self.states, None)?)),
            Some(own) => {
                if !tables::has_panel(self.panels.as_slice(), own) {
                    return Err(not_found(Named::Panel(own)));
                }
                Ok(List::of(tables::items(alloc, controls, &self.states, Some(own))?))
            }
        }
    }

    /// Which controls are On.
    pub fn states(&self) -> &States
        ensures are_on { (c : Id) → is_on result.now c ≡ on_of self.now c }
        ensures are_there { (c : Id) → has_state result.now c ≡ has_control self.now c }
    {
        &self.states
    }

    /// Switches a control that is there.
    pub fn set(&mut self, control: ControlId, on: bool)
        requires { IsTrue (has_control self.old control) }
        ensures { self.new ≡ with_states self.old (record { control = control; on = on } ∷ []) }
    {
        self.states.set(control, on);
    }
}

fn not_found(id: Named) -> PartEnd
    ensures { result ≡ PartEnd.Refused (Refusal.NotFound id) }
{
    PartEnd::Refused(Refusal::NotFound { id })
}

fn in_use(id: Named) -> PartEnd
    ensures { result ≡ PartEnd.Refused (Refusal.InUse id) }
{
    PartEnd::Refused(Refusal::InUse { id })
}

fn name_taken(id: Named) -> PartEnd
    ensures { result ≡ PartEnd.Refused (Refusal.NameTaken id) }
{
    PartEnd::Refused(Refusal::NameTaken { id })
}
