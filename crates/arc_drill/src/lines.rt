//! The lines of a report, in the spelling that they are printed in.
ghost use Rattle.std.specs.Prelude.{◌≡◌, ◌<◌, ◌^◌, codes, IfOk};
ghost use Rattle.arc_drill.specs.Line.{numbered, slot_line};
ghost use Rattle.arc_drill.specs.Lines.{bad_line, call_code_text, code_text};

use arc_bytes::Memory;
use arc_data::Reply;
use arc_json::{Code, reply_text};
use arc_script::ScriptCode;
use std::alloc::Global;

/// `slot <slot> token <token> <status> <text>`: a call that has its place in the list.
#[tactic(auto, unfolding(crate::specs::Line::slot_line))]
pub(crate) fn of_slot(alloc: Global, slot: u32, reply: &Reply) -> Result<Vec<u8>, Memory>
    ensures { IfOk result (λ line. line.items ≡ slot_line slot reply.now) }
{
    let (status, text) = reply_text(alloc, reply)?;
    let token = u64::from(slot) + 1;
    let head = format!(in alloc; "slot {slot} token {token} {status} ")?;
    let mut line = head.into_bytes();
    line.extend_from_slice(&text)?;
    line.push(b'\n')?;
    Ok(line)
}

/// A word, which ends in a space, and a number.
#[tactic(auto, unfolding(crate::specs::Line::numbered))]
pub(crate) fn numbered(alloc: Global, word: &str, number: u64) -> Result<Vec<u8>, Memory>
    ensures { IfOk result (λ line. line.items ≡ numbered word.now number) }
{
    let line = format!(in alloc; "{word}{number}\n")?;
    Ok(line.into_bytes())
}

/// A line without a number.
pub(crate) fn fixed(alloc: Global, line: &str) -> Result<Vec<u8>, Memory>
    ensures { IfOk result (λ text. text.items ≡ line.now) }
{
    Ok(line.as_bytes().to_vec(alloc)?)
}

/// `script line <line>: <code>`: why a text is no script.
#[tactic(auto, unfolding(crate::specs::Lines::bad_line))]
pub(crate) fn of_bad_script(alloc: Global, line: u32, code: ScriptCode) -> Result<Vec<u8>, Memory>
    ensures { IfOk result (λ text. text.items ≡ bad_line line code) }
{
    let name = name_of(code);
    let text = format!(in alloc; "script line {line}: {name}\n")?;
    Ok(text.into_bytes())
}

fn name_of(code: ScriptCode) -> &'static str
    ensures { result.now ≡ code_text code }
{
    match code {
        ScriptCode::NotUtf8 => "NotUtf8",
        ScriptCode::Word => "Word",
        ScriptCode::Shape => "Shape",
        ScriptCode::Number => "Number",
        ScriptCode::Name => "Name",
        ScriptCode::State => "State",
        ScriptCode::Config => "Config",
        ScriptCode::Slots => "Slots",
        ScriptCode::TooLong => "TooLong",
        ScriptCode::Call(code) => name_of_call(code),
    }
}

fn name_of_call(code: Code) -> &'static str
    ensures { result.now ≡ call_code_text code }
{
    match code {
        Code::UnknownOperation => "UnknownOperation",
        Code::BadJson => "BadJson",
        Code::NotObject => "NotObject",
        Code::MissingMember => "MissingMember",
        Code::WrongType => "WrongType",
        Code::BadId => "BadId",
        Code::BadName => "BadName",
        Code::BadComment => "BadComment",
        Code::BadState => "BadState",
        Code::EmptyEntries => "EmptyEntries",
        Code::TooManyEntries => "TooManyEntries",
        Code::DoubledEntry => "DoubledEntry",
        Code::BadRule => "BadRule",
        Code::BadType => "BadType",
        Code::BadThreshold => "BadThreshold",
        Code::BadWait => "BadWait",
        Code::BadZone => "BadZone",
        Code::BadExpiry => "BadExpiry",
        Code::BadDate => "BadDate",
        Code::BadWindow => "BadWindow",
        Code::BadStatus => "BadStatus",
    }
}
