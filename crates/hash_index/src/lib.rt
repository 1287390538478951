// An index by hash: chains over keys of any kind, in one lent slice.
#![tactic(auto)]

pub mod backward; // chains that go from the last key to the first
pub mod chain; // chains that go from the first key to the last
pub mod hash; // a hash of bytes
pub mod keys; // an index of keys, built and searched
