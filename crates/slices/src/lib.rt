// Writing, comparing and clearing lent slices.
#![tactic(auto)]

pub mod block; // bytes gathered, and written a block at once
pub mod class; // whether all bytes are in a class
pub mod clearing; // lent space set to zero
pub mod compare; // equal bytes
pub mod part; // a part of a slice
pub mod space; // work space of a size that its type says
pub mod widen; // numbers in a wider type
pub mod words; // bytes as one number
pub mod write; // bytes written where they fit, and counted
