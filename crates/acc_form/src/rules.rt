//! Why a design isn't well-formed.

use acc_base::rules::FormRule;

/// Why a design isn't well-formed.
#[derive(Clone, Copy)]
pub enum FormError {
    /// The lowest rule that is broken, and the first line that breaks it: of the design as it is printed, a statement a line,
    /// from 1. The rule of ranges is broken on line 0.
    Bad(FormRule, u64),
    /// Memory is wanting.
    Memory,
}
