//! Induction principles, and the actions `cases` and `elim`: their rules, with charges and places.
#![tactic(auto)]
