//! A law of recovery.
ghost use Rattle.std.specs.Prelude.{◌≡◌, List};
ghost use Rattle.acc_base.specs.declared.designs.Design.{Design};
ghost use Rattle.acc_base.specs.declared.machines.Event.{Event};
ghost use Rattle.acc_base.specs.Machine.{World};
ghost use Rattle.acc_recover.specs.Recoveries.{IsRecovery};

/// A history has one recovered state, and so one recovered history, at most.
pub fn one_recovery()
    ensures { (d : Design) (found : List Event) (one other : World)
        → IsRecovery d found one → IsRecovery d found other → one ≡ other }
{}
