//! What a list of entries says of the starts of its node.
ghost use Rattle.std.specs.Prelude.{◌≡◌, ◌<◌, ◌^◌, length};
ghost use Rattle.arc_voting.specs.Journals.{inc_after, is_opened, last_inc, opened_count, since_opened};

use arc_data::Record;

/// The number of the last start, or 0 without one.
pub(crate) fn last_inc(entries: &[Record]) -> u32
    ensures { result ≡ last_inc entries.now }
{
    let mut last = 0;
    for entry in entries {
        last = inc_after(last, entry);
    }
    last
}

/// The number of the last start after this entry.
fn inc_after(last: u32, entry: &Record) -> u32
    ensures { result ≡ inc_after last entry.now }
{
    match entry {
        Record::Opened { inc } => *inc,
        _ => last,
    }
}

/// How many entries stand behind the last start.
pub(crate) fn since_opened(entries: &[Record]) -> u32
    requires { length entries.now < 2 ^ 32 }
    ensures { result ≡ since_opened entries.now }
{
    let mut count = 0;
    for entry in entries {
        count = if is_opened(entry) { 0 } else { count + 1 };
    }
    count
}

/// How often the node was started.
pub(crate) fn opened_count(entries: &[Record]) -> u32
    requires { length entries.now < 2 ^ 32 }
    ensures { result ≡ opened_count entries.now }
{
    let mut count = 0;
    for entry in entries {
        count += u32::from(is_opened(entry));
    }
    count
}

/// Whether this entry is a start.
fn is_opened(entry: &Record) -> bool
    ensures { result ≡ is_opened entry.now }
{
    matches!(entry, Record::Opened { .. })
}
