//! What an instance of a relation is, and what it means. The instances are made by the crate above.
#![tactic(auto)]
