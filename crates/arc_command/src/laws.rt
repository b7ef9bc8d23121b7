//! The laws of the bytes, each as a call that does nothing.
ghost use Rattle.arc_command.specs.Laws.{ReadsCommands, HasOneSpelling, ReadsEntries, EntriesHaveOneSpelling};

/// A command that is spelled is read again, whatever follows it.
pub fn spelled_commands_are_read()
    ensures { ReadsCommands }
{}

/// A command has one spelling, and no spelling of a command begins with another's.
pub fn commands_have_one_spelling()
    ensures { HasOneSpelling }
{}

/// The spelling of an entry is read as that entry.
pub fn spelled_entries_are_read()
    ensures { ReadsEntries }
{}

/// An entry has one spelling, and entries with one spelling are one entry.
pub fn entries_have_one_spelling()
    ensures { EntriesHaveOneSpelling }
{}
