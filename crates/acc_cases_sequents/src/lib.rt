//! Designs, sequents and hints as the lines of cases spell them.
//!
//! A design is `[[[PARTS,PRIVATE],..],[LOCALS,..]]`: of each table how many parts its keys have, and whether it is private, 1 or 0; of
//! each type how many locals it has. A sequent is `[[RULE,VARIABLES,TYPE],[HYPOTHESIS..],[[RELATION..],FORM]]`: RULE is the number of
//! its rule, 0 to 8; TYPE is that of the origin's point, from 1 on, and 0 is none; a hypothesis is `[VARIABLES,[RELATION..],RELATION]`; a
//! relation is `[FORM,0]` where the form is at most 0, and `[FORM,1]` where it is 0; and forms are spelled as in certificates. Hints are a
//! list of linear values.
#![tactic(auto)]

pub mod designs;
pub mod given;
pub mod hints;
pub mod sequents;
pub mod written;
