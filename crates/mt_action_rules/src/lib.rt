//! The rules of actions with their charges and places: what each makes of a goal, and its new goals.
#![tactic(auto)]
