//! Readers of a text from left to right, put together from smaller ones, that are exact for a grammar:
//! what is read is spelled so, what is spelled so is read, and a reader stops at the first sign with which no text goes on.
#![tactic(auto)]

pub mod faults;
