//! Units of a script, and how they are read.
#![tactic(auto)]

mod blocks;
mod commands;
mod steps;
mod units;
mod words;

pub use steps::unit_at;
pub use units::{
    Action, ActionShape, Group, Groups, Parsed, RawCon, RawCons, RawEq, RawEqs, RawFunction,
    RawFunctions, RawType, RawTypes, Unit, UnitKind,
};
