/// The identifier of a command: the node that drew it, which incarnation of that node, and a number in it.
#[derive(Clone, Copy, Debug, PartialEq, Eq)]
pub struct CommandId {
    /// The node, below 5.
    pub node: u8,
    /// How often the node has been started, from 1 on.
    pub inc: u32,
    /// The number of the command in that incarnation, from 0 on.
    pub n: u32,
}
