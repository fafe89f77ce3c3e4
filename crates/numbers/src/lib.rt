// The numbers of nodes and channels, which a command, a call and an answer name. With the batch number, `BatchNo` of `batch`, they are
// three kinds that are never taken for one another: no node is read where a channel is meant. Each holds any byte, also one that no node
// or channel of a ring has; the call that gets it refuses it.
#![tactic(auto)]

// A node of the ring.
#[derive(Clone, Copy, PartialEq, Eq)]
pub struct NodeNo(pub u8);

// A channel of the ring. A message is known by its channel.
#[derive(Clone, Copy, PartialEq, Eq)]
pub struct ChannelNo(pub u8);
