//! What the layers share: the parts that they work on, charges, and the traits by which one layer
//! calls another.
#![tactic(auto)]

mod convert;
mod entries;
mod infer;
mod instances;
mod nodes;
mod whd;
mod work;

pub use convert::Convert;
pub use entries::{constructor_type, entry, type_of_constructor};
pub use infer::Infer;
pub use nodes::{copy_branches, copy_ids, copy_node, listed_ids};
pub use whd::Whd;
pub use work::Work;
