// The records of data and undo pages: slots, and undo entries with their slot copies ("01, The page"). Bytes are met here, in
// `little`, `status` and `page`, and nowhere above.
#![tactic(auto)]

pub mod entry;
pub mod slot;
