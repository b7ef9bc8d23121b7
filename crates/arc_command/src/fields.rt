//! The fields of several kinds: switches, identifiers, numbers within limits, names, and the items of lists.
ghost use Rattle.std.specs.Prelude.{ℕ, ◌≡◌, ◌==◌, ⊤, List, Bool};
ghost use Rattle.std.specs.Str.{IsUtf8, bytes_eq};
ghost use Rattle.arc_command.specs.Reader.{switch_at, is_new, any};
ghost use Rattle.arc_command.specs.Reading.{Gives, panel_at, control_at, rule_at, resource_at, shift_at, wait_at, minutes_at, day_at, window_at, status_at, zone_at, name_at, comment_at, entry_at, new_control_at, new_zone_at};
ghost use Rattle.arc_command.specs.Spelling.{text_bytes, switch_bytes, panel_bytes, control_bytes, rule_bytes, resource_bytes, shift_bytes, long_bytes, window_bytes, status_bytes, entry_bytes};
ghost use Rattle.arc_command.specs.Typed.{IsTypedEntry, IsTypedControl, IsTypedRule, IsTypedPanel, IsTypedResource, IsTypedShift, IsTypedZone};
ghost use Rattle.arc_data.specs.Valid.{IsName};
ghost use Rattle.arc_bytes.specs.Adding.{Adds};

use crate::field::{Field, put_byte, put_text, read_byte, read_text, read_u16, read_u32, read_u64};
use crate::{
    CommandEnd, ControlId, Entry, PanelId, ResourceId, RuleId, ShiftId, Status, Text, Window,
    ZoneName,
};
use arc_bytes::{Memory, put_u16, put_u32, put_u64};
use std::alloc::Global;

/// Puts a switch at the end: 1 for On.
pub(crate) fn put_switch(out: &mut Vec<u8>, on: bool) -> Result<(), Memory>
    ensures { Adds out.old out.new (switch_bytes on) result }
{
    if on {
        put_byte(out, 1)
    } else {
        put_byte(out, 0)
    }
}

/// A switch: 0 or 1.
#[tactic(auto, unfolding(crate::specs::Reader::switch_at))]
pub(crate) fn read_switch(bytes: &[u8], at: usize) -> Result<(bool, usize), CommandEnd>
    ensures { Gives result (switch_at bytes.now at) }
{
    let (b, after) = read_byte(bytes, at)?;
    if b > 1 {
        return Err(CommandEnd::BadCommand { place: at });
    }
    Ok((b == 1, after))
}

/// Puts a panel's identifier at the end.
pub(crate) fn put_panel(out: &mut Vec<u8>, panel: PanelId) -> Result<(), Memory>
    ensures adds { Adds out.old out.new (panel_bytes panel) result }
    ensures typed { IsTypedPanel panel }
{
    put_u64(out, panel.0)
}

/// A panel's identifier.
#[tactic(auto, unfolding(crate::specs::Reading::panel_at))]
pub(crate) fn read_panel(bytes: &[u8], at: usize) -> Result<(PanelId, usize), CommandEnd>
    ensures { Gives result (panel_at bytes.now at) }
{
    let (number, after) = read_u64(bytes, at)?;
    Ok((PanelId(number), after))
}

/// Puts a control's identifier at the end.
pub(crate) fn put_control(out: &mut Vec<u8>, control: ControlId) -> Result<(), Memory>
    ensures adds { Adds out.old out.new (control_bytes control) result }
    ensures typed { IsTypedControl control }
{
    put_u64(out, control.0)
}

/// A control's identifier.
#[tactic(auto, unfolding(crate::specs::Reading::control_at))]
pub(crate) fn read_control(bytes: &[u8], at: usize) -> Result<(ControlId, usize), CommandEnd>
    ensures { Gives result (control_at bytes.now at) }
{
    let (number, after) = read_u64(bytes, at)?;
    Ok((ControlId(number), after))
}

/// Puts a safety rule's identifier at the end.
pub(crate) fn put_rule(out: &mut Vec<u8>, rule: RuleId) -> Result<(), Memory>
    ensures adds { Adds out.old out.new (rule_bytes rule) result }
    ensures typed { IsTypedRule rule }
{
    put_u64(out, rule.0)
}

/// A safety rule's identifier.
#[tactic(auto, unfolding(crate::specs::Reading::rule_at))]
pub(crate) fn read_rule(bytes: &[u8], at: usize) -> Result<(RuleId, usize), CommandEnd>
    ensures { Gives result (rule_at bytes.now at) }
{
    let (number, after) = read_u64(bytes, at)?;
    Ok((RuleId(number), after))
}

/// Puts a resource's identifier at the end.
pub(crate) fn put_resource(out: &mut Vec<u8>, resource: ResourceId) -> Result<(), Memory>
    ensures adds { Adds out.old out.new (resource_bytes resource) result }
    ensures typed { IsTypedResource resource }
{
    put_u64(out, resource.0)
}

/// A resource's identifier.
#[tactic(auto, unfolding(crate::specs::Reading::resource_at))]
pub(crate) fn read_resource(bytes: &[u8], at: usize) -> Result<(ResourceId, usize), CommandEnd>
    ensures { Gives result (resource_at bytes.now at) }
{
    let (number, after) = read_u64(bytes, at)?;
    Ok((ResourceId(number), after))
}

/// Puts a shift's identifier at the end.
pub(crate) fn put_shift(out: &mut Vec<u8>, shift: ShiftId) -> Result<(), Memory>
    ensures adds { Adds out.old out.new (shift_bytes shift) result }
    ensures typed { IsTypedShift shift }
{
    put_u64(out, shift.0)
}

/// A shift's identifier.
#[tactic(auto, unfolding(crate::specs::Reading::shift_at))]
pub(crate) fn read_shift(bytes: &[u8], at: usize) -> Result<(ShiftId, usize), CommandEnd>
    ensures { Gives result (shift_at bytes.now at) }
{
    let (number, after) = read_u64(bytes, at)?;
    Ok((ShiftId(number), after))
}

/// A wait in milliseconds, of at most a week.
#[tactic(auto, unfolding(crate::specs::Reading::wait_at))]
pub(crate) fn read_wait(bytes: &[u8], at: usize) -> Result<(u32, usize), CommandEnd>
    ensures { Gives result (wait_at bytes.now at) }
{
    let (wait_ms, after) = read_u32(bytes, at)?;
    if wait_ms > 604_800_000 {
        return Err(CommandEnd::BadCommand { place: at });
    }
    Ok((wait_ms, after))
}

/// The minutes of a shift, 1 to 4,320.
#[tactic(auto, unfolding(crate::specs::Reading::minutes_at))]
pub(crate) fn read_minutes(bytes: &[u8], at: usize) -> Result<(u32, usize), CommandEnd>
    ensures { Gives result (minutes_at bytes.now at) }
{
    let (minutes, after) = read_u32(bytes, at)?;
    if minutes < 1 || 4_320 < minutes {
        return Err(CommandEnd::BadCommand { place: at });
    }
    Ok((minutes, after))
}

/// The number of a day, at most that of 9999-12-31.
#[tactic(auto, unfolding(crate::specs::Reading::day_at))]
fn read_day(bytes: &[u8], at: usize) -> Result<(u32, usize), CommandEnd>
    ensures { Gives result (day_at bytes.now at) }
{
    let (day, after) = read_u32(bytes, at)?;
    if day > 2_932_896 {
        return Err(CommandEnd::BadCommand { place: at });
    }
    Ok((day, after))
}

/// A window: two different minutes of the week.
#[tactic(auto, unfolding(crate::specs::Reading::window_at))]
fn read_window(bytes: &[u8], at: usize) -> Result<(Window, usize), CommandEnd>
    ensures { Gives result (window_at bytes.now at) }
{
    let (from, to_at) = read_u16(bytes, at)?;
    if from >= 10_080 {
        return Err(CommandEnd::BadCommand { place: at });
    }
    let (to, after) = read_u16(bytes, to_at)?;
    if to >= 10_080 || to == from {
        return Err(CommandEnd::BadCommand { place: to_at });
    }
    Ok((Window { from, to }, after))
}

/// Puts the status of a shift at the end.
pub(crate) fn put_status(out: &mut Vec<u8>, status: Status) -> Result<(), Memory>
    ensures { Adds out.old out.new (status_bytes status) result }
{
    match status {
        Status::Active => put_byte(out, 1),
        Status::Expired => put_byte(out, 2),
        Status::Canceled => put_byte(out, 3),
    }
}

/// The status of a shift: 1 to 3.
#[tactic(auto, unfolding(crate::specs::Reading::status_at))]
pub(crate) fn read_status(bytes: &[u8], at: usize) -> Result<(Status, usize), CommandEnd>
    ensures { Gives result (status_at bytes.now at) }
{
    let (b, after) = read_byte(bytes, at)?;
    match b {
        1 => Ok((Status::Active, after)),
        2 => Ok((Status::Expired, after)),
        3 => Ok((Status::Canceled, after)),
        _ => Err(CommandEnd::BadCommand { place: at }),
    }
}

/// Puts the name of a zone at the end.
#[tactic(auto, unfolding(crate::specs::Spelling::text_bytes))]
pub(crate) fn put_zone(out: &mut Vec<u8>, zone: &ZoneName) -> Result<(), Memory>
    ensures adds { Adds out.old out.new (text_bytes zone.now) result }
    ensures typed { IsTypedZone zone.now }
{
    let text = zone.as_str();
    put_u16(out, text.len() as u16)?;
    out.extend_from_slice(text.as_bytes())?;
    Ok(())
}

/// The name of a zone.
pub(crate) fn read_zone(
    alloc: Global,
    bytes: &[u8],
    at: usize,
) -> Result<(ZoneName, usize), CommandEnd>
    ensures { Gives result (zone_at bytes.now at) }
{
    let (text, after) = read_text(alloc, bytes, at, 1, 32)?;
    match ZoneName::of(text.as_str()) {
        Some(zone) => Ok((zone, after)),
        None => Err(CommandEnd::BadCommand { place: at }),
    }
}

/// Whether a control is none of the earlier ones.
fn is_new_control(earlier: &[ControlId], control: ControlId) -> bool
    ensures { result ≡ is_new (λ other x. other.0 == x.0) earlier.now control }
{
    earlier.iter().all(|other| other.0 != control.0)
}

/// Whether a control isn't changed yet.
fn is_unchanged(earlier: &[Entry], control: ControlId) -> bool
    ensures { result ≡ is_new (λ other x. other.control.0 == x.0) earlier.now control }
{
    earlier.iter().all(|other| other.control.0 != control.0)
}

/// Whether a zone is none of the earlier ones.
fn is_new_zone(earlier: &[ZoneName], zone: &ZoneName) -> bool
    ensures { result ≡ is_new bytes_eq earlier.now zone.now }
{
    earlier.iter().all(|other| other.as_str() != zone.as_str())
}

impl Field for RuleId {
    ghost spelling = { rule_bytes };

    ghost reading = { any rule_at };

    ghost IsShort = { λ _. ⊤ };

    ghost IsTyped = { IsTypedRule };

    fn put(&self, out: &mut Vec<u8>) -> Result<(), Memory> {
        put_rule(out, *self)
    }

    fn read(
        _alloc: Global,
        bytes: &[u8],
        at: usize,
        _earlier: &[RuleId],
    ) -> Result<(RuleId, usize), CommandEnd> {
        read_rule(bytes, at)
    }
}

impl Field for ControlId {
    ghost spelling = { control_bytes };

    ghost reading = { new_control_at };

    ghost IsShort = { λ _. ⊤ };

    ghost IsTyped = { IsTypedControl };

    fn put(&self, out: &mut Vec<u8>) -> Result<(), Memory> {
        put_control(out, *self)
    }

    #[tactic(auto, unfolding(crate::specs::Reading::new_control_at))]
    fn read(
        _alloc: Global,
        bytes: &[u8],
        at: usize,
        earlier: &[ControlId],
    ) -> Result<(ControlId, usize), CommandEnd> {
        let (control, after) = read_control(bytes, at)?;
        if !is_new_control(earlier, control) {
            return Err(CommandEnd::BadCommand { place: at });
        }
        Ok((control, after))
    }
}

impl Field for Entry {
    ghost spelling = { entry_bytes };

    ghost reading = { entry_at };

    ghost IsShort = { λ _. ⊤ };

    ghost IsTyped = { IsTypedEntry };

    fn put(&self, out: &mut Vec<u8>) -> Result<(), Memory> {
        put_control(out, self.control)?;
        put_switch(out, self.on)
    }

    #[tactic(auto, unfolding(crate::specs::Reading::entry_at))]
    fn read(
        _alloc: Global,
        bytes: &[u8],
        at: usize,
        earlier: &[Entry],
    ) -> Result<(Entry, usize), CommandEnd> {
        let (control, on_at) = read_control(bytes, at)?;
        if !is_unchanged(earlier, control) {
            return Err(CommandEnd::BadCommand { place: at });
        }
        let (on, after) = read_switch(bytes, on_at)?;
        Ok((Entry { control, on }, after))
    }
}

impl Field for ZoneName {
    ghost spelling = { text_bytes };

    ghost reading = { new_zone_at };

    ghost IsShort = { λ _. ⊤ };

    ghost IsTyped = { IsTypedZone };

    fn put(&self, out: &mut Vec<u8>) -> Result<(), Memory> {
        put_zone(out, self)
    }

    #[tactic(auto, unfolding(crate::specs::Reading::new_zone_at))]
    fn read(
        alloc: Global,
        bytes: &[u8],
        at: usize,
        earlier: &[ZoneName],
    ) -> Result<(ZoneName, usize), CommandEnd> {
        let (zone, after) = read_zone(alloc, bytes, at)?;
        if !is_new_zone(earlier, &zone) {
            return Err(CommandEnd::BadCommand { place: at });
        }
        Ok((zone, after))
    }
}

/// The number of a day.
impl Field for u32 {
    ghost spelling = { long_bytes };

    ghost reading = { any day_at };

    ghost IsShort = { λ _. ⊤ };

    ghost IsTyped = { λ _. ⊤ };

    fn put(&self, out: &mut Vec<u8>) -> Result<(), Memory> {
        put_u32(out, *self)
    }

    fn read(
        _alloc: Global,
        bytes: &[u8],
        at: usize,
        _earlier: &[u32],
    ) -> Result<(u32, usize), CommandEnd> {
        read_day(bytes, at)
    }
}

impl Field for Window {
    ghost spelling = { window_bytes };

    ghost reading = { any window_at };

    ghost IsShort = { λ _. ⊤ };

    ghost IsTyped = { λ _. ⊤ };

    fn put(&self, out: &mut Vec<u8>) -> Result<(), Memory> {
        put_u16(out, self.from)?;
        put_u16(out, self.to)
    }

    fn read(
        _alloc: Global,
        bytes: &[u8],
        at: usize,
        _earlier: &[Window],
    ) -> Result<(Window, usize), CommandEnd> {
        read_window(bytes, at)
    }
}

/// The name of an alarm.
impl Field for Text {
    ghost spelling = { text_bytes };

    ghost reading = { any name_at };

    ghost IsShort = { IsName };

    ghost IsTyped = { IsUtf8 };

    fn put(&self, out: &mut Vec<u8>) -> Result<(), Memory> {
        put_text(out, self)
    }

    fn read(
        alloc: Global,
        bytes: &[u8],
        at: usize,
        _earlier: &[Text],
    ) -> Result<(Text, usize), CommandEnd> {
        read_text(alloc, bytes, at, 1, 64)
    }
}
