//! What the definitions say of small runs and forms, worked by hand, and of sums of forms.
ghost use Rattle.std.specs.Prelude.{◌≡◌, [], ◌∷◌, codes, pos, negsuc};
ghost use Rattle.acc_base.specs.Cells.{cells, PlaysCells, three_calls, lines_of, cell_row};
ghost use Rattle.acc_base.specs.Guarded.{guarded, both_read, in_turn};
ghost use Rattle.acc_base.specs.Lawful.{AreLawful};
ghost use Rattle.acc_base.specs.Plays.{PlaysOnce};
ghost use Rattle.acc_base.specs.Truth.{form_value};
ghost use Rattle.acc_base.specs.Worths.{trial, SumsAddUp};

/// Two counters read a cell before either writes it: one of the two is lost.
pub fn an_update_is_lost()
    ensures { PlaysCells three_calls (1 ∷ 2 ∷ 3 ∷ 2 ∷ 3 ∷ [])
        (lines_of (codes "1 ended" ∷ codes "2 stepped bump.mid" ∷ codes "3 stepped bump.mid" ∷ codes "2 ended" ∷
        codes "3 ended" ∷ codes "1 committed" ∷ codes "2 committed 0" ∷ codes "3 committed 0" ∷ codes "events 8" ∷ []))
        (cell_row 1 1 ∷ []) }
{}

/// A counter of a cell that isn't there refuses, and the others don't begin.
pub fn a_counter_refuses()
    ensures { PlaysCells three_calls (2 ∷ [])
        (lines_of (codes "2 turned refused 1" ∷ codes "1 unbegun" ∷ codes "2 unfinished" ∷ codes "3 unbegun" ∷
        codes "events 2" ∷ [])) [] }
{}

/// What refused is compensated at its next turn, and is over then.
pub fn a_refusal_is_compensated()
    ensures { PlaysCells three_calls (2 ∷ 2 ∷ 2 ∷ [])
        (lines_of (codes "2 turned refused 1" ∷ codes "2 ended" ∷ codes "2 over" ∷ codes "1 unbegun" ∷
        codes "2 compensated refused 1" ∷ codes "3 unbegun" ∷ codes "events 3" ∷ [])) [] }
{}

/// On the plain machine calls in an order have one play.
pub fn plain_plays_are_one()
    ensures { PlaysOnce }
{}

/// Two counters may read a cell before either writes it where no entry forbids it.
pub fn a_lost_update_is_lawful()
    ensures { AreLawful cells both_read }
{}

/// An entry that forbids it bars the lost update, and no more: one after the other both may count.
pub fn an_entry_bars_a_lost_update()
    ensures barred { ¬ AreLawful guarded both_read }
    ensures others { AreLawful guarded in_turn }
{}

/// With 7 in cell 1 the trial form is worth 2 + 3 - 7 + 1 at 1, and 1 at 2, where there is no cell.
pub fn a_form_is_worth()
    ensures one { form_value (cell_row 1 7 ∷ []) (pos 1 ∷ []) trial ≡ negsuc 0 }
    ensures two { form_value (cell_row 1 7 ∷ []) (pos 2 ∷ []) trial ≡ pos 1 }
{}

/// A sum of forms is worth what the forms are worth together.
pub fn sums_add_up()
    ensures { SumsAddUp }
{}
