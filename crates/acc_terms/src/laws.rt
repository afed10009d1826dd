//! What collecting means.
ghost use Rattle.acc_terms.specs.Worths.{CollectingKeepsWorth};

use acc_base::sequences::Exact;

/// Whatever the unknowns are worth, collected terms and the constant are worth what the terms are worth.
pub fn collecting_keeps_worth<K: Exact>()
    ensures { CollectingKeepsWorth K K.eq }
{}
