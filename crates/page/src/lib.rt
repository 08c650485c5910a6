// The header of a page ("01, The page"): its fields, the item count, and what touching a page writes.
#![tactic(auto)]

pub mod count;
pub mod header;
