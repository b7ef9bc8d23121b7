//! A command by numbers alone.
use arc_data::{Command, CommandId, ControlId, Op};

/// A command by the node, the start and the number of its id, and a token that tells commands of one id apart.
#[derive(Clone, Copy)]
pub(crate) struct Name(
    pub(crate) u8,
    pub(crate) u32,
    pub(crate) u32,
    pub(crate) u64,
);

/// The command with this name: a read of control 1.
pub(crate) fn command(Name(node, inc, n, token): Name) -> Command {
    Command {
        id: CommandId { node, inc, n },
        at_ms: 0,
        token,
        op: Op::GetRoutingControlState {
            control: ControlId(1),
        },
    }
}
