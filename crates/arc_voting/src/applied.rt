//! What a node has applied.
ghost use Rattle.std.specs.Prelude.{◌≡◌};
ghost use Rattle.std.specs.List.{slice_get};
ghost use Rattle.std.specs.Option.{option_copied};
ghost use Rattle.arc_voting.specs.Lists.{applied, closed_by};

use arc_data::{Command, Record};

/// The command that this entry closes a slot with.
pub(crate) fn closed_command(entry: &Record) -> Option<&Command>
    ensures { option_copied result ≡ closed_by entry.now }
{
    match entry {
        Record::Closed { command, .. } => Some(command),
        _ => None,
    }
}

/// The command at this slot of the list that a node has applied, or `None` where the list ends before it.
pub fn applied_at(rs: &[Record], slot: u32) -> Option<&Command>
    ensures { option_copied result ≡ slice_get (applied rs.now) slot }
{
    let mut length: usize = 0;
    for entry in rs {
        match closed_command(entry) {
            Some(command) => {
                if length == slot as usize {
                    return Some(command);
                }
                length += 1;
            }
            None => {}
        }
    }
    None
}
