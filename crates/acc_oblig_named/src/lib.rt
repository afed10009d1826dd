//! Values under the names that their variables have in an obligation, and forms and relations of these variables.
#![tactic(auto)]

pub mod forms;
pub mod naming;

pub use forms::{
    add_negated_terms, add_number_bounds, add_value_bounds, alone, at_most, is_less, is_nothing,
    is_zero, lin_form, negated_form, never, not_all_none, one_term, times, two_terms, variable,
};
pub use naming::{
    add_numbers_from, named, named_action, named_atom, named_clause, named_lin, named_lins,
    named_rel, own_clause, own_naming,
};
