//! What the definitions of the reports say by themselves.
ghost use Rattle.acc_cert_check.specs.Laws.{OneReport};

/// A design and bytes have one report.
pub fn one_report()
    ensures { OneReport }
{}
