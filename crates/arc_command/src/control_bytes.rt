//! The bytes of operations on panels and controls.
ghost use Rattle.std.specs.Prelude.{◌≡◌, ◌≤◌, ◌∷◌, [], IfSome, OnOk, length};
ghost use Rattle.arc_command.specs.Reader.{mapped, option_at, list_at, any};
ghost use Rattle.arc_command.specs.Reading.{Gives, panel_at, rule_at, batch_at, single_at, create_routing_control_at};
ghost use Rattle.arc_command.specs.Spelling.{option_bytes, panel_bytes, batch_bytes, single_bytes};
ghost use Rattle.arc_command.specs.Typed.{IsTypedBatch, IsTypedPanel};
ghost use Rattle.arc_data.specs.Valid.{IsBatch};
ghost use Rattle.arc_bytes.specs.Adding.{Adds};

use crate::field::{Field, put_items, put_list, read_list, read_text};
use crate::fields::{put_panel, put_switch, read_panel, read_switch};
use crate::{Batch, CommandEnd, Entry, List, Op, PanelId};
use arc_bytes::Memory;
use std::alloc::Global;

/// Puts a panel's identifier at the end, where one is given.
#[tactic(auto, unfolding(crate::specs::Spelling::option_bytes))]
pub(crate) fn put_given_panel(out: &mut Vec<u8>, panel: &Option<PanelId>) -> Result<(), Memory>
    ensures adds { Adds out.old out.new (option_bytes panel_bytes panel.now) result }
    ensures typed { OnOk result (IfSome panel.now IsTypedPanel) }
{
    match panel {
        Some(panel) => {
            put_switch(out, true)?;
            put_panel(out, *panel)
        }
        None => put_switch(out, false),
    }
}

/// A panel's identifier, where one is given.
#[tactic(auto, unfolding(crate::specs::Reader::option_at))]
pub(crate) fn read_given_panel(
    bytes: &[u8],
    at: usize,
) -> Result<(Option<PanelId>, usize), CommandEnd>
    ensures { Gives result (option_at panel_at bytes.now at) }
{
    let (given, at) = read_switch(bytes, at)?;
    if !given {
        return Ok((None, at));
    }
    let (panel, at) = read_panel(bytes, at)?;
    Ok((Some(panel), at))
}

/// The fields of a new control.
#[tactic(auto, unfolding(crate::specs::Reading::create_routing_control_at))]
pub(crate) fn read_create_routing_control(
    alloc: Global,
    bytes: &[u8],
    at: usize,
) -> Result<(Op, usize), CommandEnd>
    ensures { Gives result (create_routing_control_at bytes.now at) }
{
    let (name, at) = read_text(alloc, bytes, at, 1, 64)?;
    let (panel, at) = read_panel(bytes, at)?;
    Ok((Op::CreateRoutingControl { name, panel }, at))
}

/// Puts a batch at the end: its changes, and the rules that it bypasses.
#[tactic(auto, unfolding(crate::specs::Spelling::batch_bytes))]
pub(crate) fn put_batch(out: &mut Vec<u8>, batch: &Batch) -> Result<(), Memory>
    requires { IsBatch 16 batch.now }
    ensures adds { Adds out.old out.new (batch_bytes batch.now) result }
    ensures typed { OnOk result (IsTypedBatch batch.now) }
{
    put_list(out, &batch.entries)?;
    put_list(out, &batch.overrides)
}

/// A batch.
#[tactic(auto, unfolding(crate::specs::Reading::batch_at))]
pub(crate) fn read_batch(
    alloc: Global,
    bytes: &[u8],
    at: usize,
) -> Result<(Batch, usize), CommandEnd>
    ensures { Gives result (batch_at bytes.now at) }
{
    let (entries, at) = read_list(alloc, bytes, at, 1, 16)?;
    let (overrides, at) = read_list(alloc, bytes, at, 0, 16)?;
    Ok((Batch { entries, overrides }, at))
}

/// Puts a batch of one change at the end: the change has no count.
#[tactic(auto, unfolding(crate::specs::Spelling::single_bytes))]
pub(crate) fn put_single(out: &mut Vec<u8>, batch: &Batch) -> Result<(), Memory>
    requires { IsBatch 1 batch.now }
    ensures adds { Adds out.old out.new (single_bytes batch.now) result }
    ensures typed { OnOk result (IsTypedBatch batch.now) }
{
    put_items(out, batch.entries.as_slice())?;
    put_list(out, &batch.overrides)
}

/// A batch of one change.
#[tactic(auto, unfolding(crate::specs::Reading::single_at))]
pub(crate) fn read_single(
    alloc: Global,
    bytes: &[u8],
    at: usize,
) -> Result<(Batch, usize), CommandEnd>
    ensures { Gives result (single_at bytes.now at) }
{
    let (entry, at) = Entry::read(alloc, bytes, at, &[])?;
    let (overrides, at) = read_list(alloc, bytes, at, 0, 16)?;
    let entries = List::of(vec![in alloc; entry]?);
    Ok((Batch { entries, overrides }, at))
}
