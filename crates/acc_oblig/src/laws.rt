//! What the obligations are worth.
ghost use Rattle.std.specs.Prelude.{◌≡◌, [], ◌∷◌, None, length};
ghost use Rattle.acc_base.specs.declared.designs.Side.TheVariants.{Next};
ghost use Rattle.acc_base.specs.declared.sequents.Rule.TheVariants.{Empty};
ghost use Rattle.acc_oblig.specs.Laws.{drafts_of, TrueGivesSound};
ghost use Rattle.acc_oblig.specs.Trials.{origins_of, never_design, counters, entry_of};

/// Where all obligations of a well-formed design are true, it is sound.
pub fn true_obligations_give_soundness()
    ensures { TrueGivesSound }
{}

/// The obligations of small designs: one of what never holds, and 30 of counters, of which 8 fall away where a step between always
/// forbids another's.
pub fn obligations_are_counted()
    ensures never { origins_of (drafts_of never_design)
        ≡ record { rule = Empty; held = None; clause = 1; at = None; side = Next; path = 0; case = 1 } ∷ [] }
    ensures counters { length (drafts_of (counters [])) ≡ 30 }
    ensures keyed { length (drafts_of (counters (entry_of ((0, 0) ∷ []) ∷ []))) ≡ 30 }
    ensures barred { length (drafts_of (counters (entry_of [] ∷ []))) ≡ 22 }
{}
