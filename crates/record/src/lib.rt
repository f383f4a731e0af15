// The packed record: one node of a tree in 38 bytes. Its fields are read and written one by one, read by its kind, or
// taken all at once as `Fields`.

#![tactic(auto)]

pub mod copy;
pub mod decode;
pub mod encode;
pub mod fields;
pub mod kinds;
pub mod layout;
pub mod spanned;
pub mod undo;
pub mod unused;

pub use kinds::Kind;
pub use layout::RECORD;
