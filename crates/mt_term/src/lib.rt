//! Terms, environments and states: the types that hold them, and the plain trees that they say.
#![tactic(auto)]

mod alikeness;
mod constructors;
mod copies;
mod depth;
mod entries;
mod environment;
mod equations;
mod hypotheses;
mod lifting;
mod modes;
mod names;
mod notes;
mod refusals;
mod replacement;
mod states;
mod stores;
mod substitution;
mod terms;
mod universe_forms;
pub mod universe_laws;
mod universes;

pub use alikeness::alike;
pub use constructors::{Cons, Constructor};
pub use copies::{copy, copy_branches, copy_terms};
pub use depth::{MAX_DEPTH, deeper, is_within};
pub use entries::{Entries, Entry};
pub use environment::{Pairs, PlainEnv};
pub use equations::{PlainEq, PlainEqs};
pub use hypotheses::{Hyp, Hyps};
pub use lifting::lift;
pub use modes::Mode;
pub use names::{Name, Names};
pub use notes::{Note, Notes, PlainHint};
pub use refusals::{Fault, Halt, Refusal, Stop};
pub use states::{GoalMarks, PlainProof, PlainState};
pub use std::alloc::AllocError as OutOfMemory;
pub use stores::{Metas, PlainMeta, PlainStore};
pub use substitution::{fill, substitute, under};
pub use terms::{Branch, Branches, Term, Terms};
pub use universe_forms::{maximum, normal_form, successor};
pub use universes::{Atom, Atoms, Sort, UnivExpr};
