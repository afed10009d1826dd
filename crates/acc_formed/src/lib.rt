//! What a well-formed design is, and what it has. The rules are judged by the crate of the form rules.
#![tactic(auto)]
