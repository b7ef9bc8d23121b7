//! The steps of a script, and why a text is none.
use arc_data::Op;
use arc_json::Code;

/// The longest script, in bytes.
pub const MAX_SCRIPT: usize = 16_777_216;

/// What every call begins with: whom it is made to, when, and the caller's token.
#[derive(Clone, Copy)]
pub struct Head {
    pub node: u8,
    pub at_ms: u64,
    pub token: u64,
}

/// One step of a drill.
#[derive(Drop)]
pub enum Step {
    /// How many commands the list may hold. Only the first step says so.
    Slots {
        /// From 1 to 16,384.
        n: u32,
    },
    /// A call on an endpoint.
    Call {
        /// The node that is called.
        node: u8,
        /// When, in milliseconds since 1970-01-01.
        at_ms: u64,
        /// The number of commands that the caller knows to be in the list.
        token: u64,
        /// What it asks for.
        op: Op,
    },
    /// Takes a node down, and crashes its disk.
    Crash {
        /// The node.
        node: u8,
    },
    /// Starts a node again from what its disk kept.
    Restart {
        /// The node.
        node: u8,
    },
}

/// The first test that a bad line fails.
#[derive(Clone, Copy, Debug, PartialEq, Eq)]
pub enum ScriptCode {
    /// The line isn't UTF-8.
    NotUtf8,
    /// The first word is none that is known, or an endpoint or a node isn't built.
    Word,
    /// There are too many or too few words, or one is empty.
    Shape,
    /// A word that has to be a number isn't, or is outside its range.
    Number,
    /// A name hasn't 1 to 64 bytes.
    Name,
    /// A state is neither `On` nor `Off`.
    State,
    /// A configuration of a rule is none, or its threshold is 0 or above the number of controls.
    Config,
    /// A `slots` line isn't the first step.
    Slots,
    /// The script is longer than `MAX_SCRIPT`; its line is 0.
    TooLong,
    /// A list, or the operation and body of a `call`, isn't one that can be asked for.
    Call(Code),
}

/// Why a script wasn't read.
#[derive(Clone, Copy, Debug, PartialEq, Eq)]
pub enum ScriptEnd {
    /// The first bad line, counted from 1 over all lines, and its code.
    BadScript { line: u32, code: ScriptCode },
    /// There was no memory left.
    Memory,
}
