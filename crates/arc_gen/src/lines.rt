//! The lines that are drawn.
ghost use Rattle.std.specs.Prelude.{◌≡◌, ◌<◌, ◌≤◌, ◌++◌, codes, OnOk};
ghost use Rattle.arc_gen.specs.Script.{drawn_line, drawn_state, get_line, next_drawn, set_line, withhold_line};

use arc_bytes::Memory;
use std::alloc::Global;

/// The number that is drawn behind another one.
#[tactic(auto, unfolding(crate::specs::Script::next_drawn))]
pub(crate) fn next_drawn(number: u64) -> u64
    requires { number < 2147483648 }
    ensures next { result ≡ next_drawn number }
    ensures within { result < 2147483648 }
{
    (number * 1_103_515_245 + 12_345) % 2_147_483_648
}

/// `get E T 0 c`
#[tactic(auto, unfolding(crate::specs::Script::get_line))]
fn add_get(alloc: Global, text: &mut Vec<u8>, place: u64, draw: u64) -> Result<(), Memory>
    requires { place ≤ 4000 }
    ensures { OnOk result (text.new.items ≡ text.old.items ++ get_line place draw ++ codes "\n") }
{
    let endpoint = draw % 5;
    let time = 1000 * place;
    let control = draw / 5 % 8 + 1;
    let line = format!(in alloc; "get {endpoint} {time} 0 {control}\n")?;
    Ok(text.extend_from_slice(line.as_bytes())?)
}

/// `net P once l`
#[tactic(auto, unfolding(crate::specs::Script::withhold_line))]
fn add_withhold(alloc: Global, text: &mut Vec<u8>, draw: u64) -> Result<(), Memory>
    ensures { OnOk result (text.new.items ≡ text.old.items ++ withhold_line draw ++ codes "\n") }
{
    let peer = draw / 640 % 5;
    let line = format!(in alloc; "net {peer} once l\n")?;
    Ok(text.extend_from_slice(line.as_bytes())?)
}

/// `set E T 0 c On` or `Off`
#[tactic(auto, unfolding(crate::specs::Script::set_line))]
fn add_set(alloc: Global, text: &mut Vec<u8>, place: u64, draw: u64) -> Result<(), Memory>
    requires { place ≤ 4000 }
    ensures { OnOk result (text.new.items ≡ text.old.items ++ set_line place draw ++ codes "\n") }
{
    let endpoint = draw % 5;
    let time = 1000 * place;
    let control = draw / 5 % 8 + 1;
    let state = state_of(draw);
    let line = format!(in alloc; "set {endpoint} {time} 0 {control} {state}\n")?;
    Ok(text.extend_from_slice(line.as_bytes())?)
}

/// The word for the state that a draw says.
fn state_of(draw: u64) -> &'static str
    ensures { result.now ≡ drawn_state draw }
{
    if draw / 40 % 2 == 0 { "On" } else { "Off" }
}

/// Adds the line at a place, counted from 1 behind the lines that are always there, that a draw says.
#[tactic(auto, unfolding(crate::specs::Script::drawn_line))]
pub(crate) fn add_line(
    alloc: Global,
    text: &mut Vec<u8>,
    place: u64,
    draw: u64,
) -> Result<(), Memory>
    requires { place ≤ 4000 }
    ensures { OnOk result (text.new.items ≡ text.old.items ++ drawn_line place draw ++ codes "\n") }
{
    match draw / 80 % 8 {
        0 => add_get(alloc, text, place, draw),
        1 => add_withhold(alloc, text, draw),
        _ => add_set(alloc, text, place, draw),
    }
}
