//! Panels and controls as they are kept, and looking them up.
ghost use Rattle.std.specs.Prelude.{◌≡◌, ◌≤◌, ◌==◌, ◌&&◌, IfOk, filter, find, map, not, option_copied, vec_len};
ghost use Rattle.std.specs.List.{list_any};
ghost use Rattle.std.specs.Option.{option_map};
ghost use Rattle.std.specs.Str.{bytes_eq};
ghost use Rattle.arc_panel.specs.Kept.{item_with, in_scope};

use arc_bytes::Memory;
use arc_data::{ControlId, ControlItem, PanelId, States, Text};
use std::alloc::{AllocError, Global};

/// A panel.
#[derive(Drop)]
pub struct Panel {
    pub panel: PanelId,
    pub name: Text,
}

/// A control. Whether it is On is kept elsewhere.
#[derive(Drop)]
pub struct Control {
    pub panel: PanelId,
    pub control: ControlId,
    pub name: Text,
}

/// Whether there is a panel.
pub(crate) fn has_panel(panels: &[Panel], panel: PanelId) -> bool
    ensures { result ≡ list_any (λ p. p.panel.0 == panel.0) panels.now }
{
    panels.iter().any(|p| p.panel.0 == panel.0)
}

/// The panel that has this name.
pub(crate) fn panel_named(panels: &[Panel], name: &Text) -> Option<PanelId>
    ensures { result ≡ option_map (λ p. p.panel) (find (λ p. bytes_eq p.name name.now) panels.now) }
{
    panels
        .iter()
        .find(|p| p.name.as_str() == name.as_str())
        .map(|p| p.panel)
}

/// The control of this panel that has this name.
pub(crate) fn control_named(controls: &[Control], panel: PanelId, name: &Text) -> Option<ControlId>
    ensures { result ≡ option_map (λ c. c.control)
        (find (λ c. (c.panel.0 == panel.0) && bytes_eq c.name name.now) controls.now) }
{
    controls
        .iter()
        .find(|c| c.panel.0 == panel.0 && c.name.as_str() == name.as_str())
        .map(|c| c.control)
}

/// The first control of a panel.
pub(crate) fn first_in(controls: &[Control], panel: PanelId) -> Option<ControlId>
    ensures { result ≡ option_map (λ c. c.control) (find (λ c. c.panel.0 == panel.0) controls.now) }
{
    controls
        .iter()
        .find(|c| c.panel.0 == panel.0)
        .map(|c| c.control)
}

/// Whether there is a control.
pub(crate) fn has_control(controls: &[Control], control: ControlId) -> bool
    ensures { result ≡ list_any (λ c. c.control.0 == control.0) controls.now }
{
    controls.iter().any(|c| c.control.0 == control.0)
}

/// The control with this identifier.
pub(crate) fn control_of(controls: &[Control], control: ControlId) -> Option<&Control>
    ensures { option_copied result ≡ find (λ c. c.control.0 == control.0) controls.now }
{
    controls.iter().find(|c| c.control.0 == control.0)
}

/// The controls of one panel, or of all, as replies show them.
pub(crate) fn items(
    alloc: Global,
    controls: &[Control],
    states: &States,
    panel: Option<PanelId>,
) -> Result<Vec<ControlItem>, Memory>
    ensures { IfOk result (λ items. items.items ≡
        map (item_with states.now) (filter (λ c. in_scope panel c.panel) controls.now)) }
{
    let mut items = Vec::new(alloc);
    for control in controls {
        if in_scope(panel, control.panel) {
            items.push(item(alloc, control, states)?)?;
        }
    }
    Ok(items)
}

fn in_scope(panel: Option<PanelId>, own: PanelId) -> bool
    ensures { result ≡ in_scope panel own }
{
    match panel {
        Some(panel) => own.0 == panel.0,
        None => true,
    }
}

fn item(alloc: Global, control: &Control, states: &States) -> Result<ControlItem, Memory>
    ensures { IfOk result (λ item. item ≡ item_with states.now control.now) }
{
    Ok(ControlItem {
        panel: control.panel,
        control: control.control,
        name: control.name.copy(alloc)?,
        on: states.is_on(control.control),
    })
}

pub(crate) fn drop_panel(panels: &mut Vec<Panel>, panel: PanelId)
    ensures others { panels.new.items ≡ filter (λ p. not (p.panel.0 == panel.0)) panels.old.items }
    ensures no_more { vec_len panels.new ≤ vec_len panels.old }
{
    panels.retain(|p| p.panel.0 != panel.0);
}

pub(crate) fn drop_control(controls: &mut Vec<Control>, control: ControlId)
    ensures others { controls.new.items ≡ filter (λ c. not (c.control.0 == control.0)) controls.old.items }
    ensures no_more { vec_len controls.new ≤ vec_len controls.old }
{
    controls.retain(|c| c.control.0 != control.0);
}
