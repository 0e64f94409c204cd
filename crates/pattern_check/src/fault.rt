// What is told of a node that breaks a rule.

/// A rule that is broken, and the offset of the node that breaks it.
#[derive(Clone, Copy, Debug, PartialEq, Eq)]
pub struct NodeFault {
    pub rule: u32,
    pub at: u64,
}
