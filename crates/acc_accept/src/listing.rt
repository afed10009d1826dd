//! The obligations of a design.
ghost use Rattle.acc_oblig_places.specs.ManyEntries.{IsFormedButEntries};
ghost use Rattle.acc_oblig.specs.Laws.{drafts_of};
ghost use Rattle.acc_oblig_paths.specs.Causes.{Adds};
ghost use Rattle.acc_accept.specs.Obligations.{AreObligations};

use acc_base::designs::Design;
use acc_base::sequences::Seq;
use acc_base::sequents::Sequent;
use acc_oblig_paths::ObligError;
use acc_oblig_paths::always::add_always;
use acc_oblig_paths::promises::add_promises;
use acc_oblig_paths::spares::add_spares;
use acc_oblig_paths::there::add_there;
use acc_oblig_points::begins::add_begins;
use acc_oblig_points::clears::add_clears;
use acc_oblig_points::empty::add_empty;
use acc_oblig_points::variants::add_variants;
use acc_oblig_ranges::ranges::add_ranges;
use std::alloc::Global;

/// Adds the obligations of a design, rule by rule.
fn add_rules(alloc: Global, out: &mut Seq<Sequent>, d: &Design) -> Result<(), ObligError>
    requires { IsFormedButEntries d.now }
    ensures { Adds result out.old out.new (drafts_of d.now) }
{
    add_begins(alloc, out, d)?;
    add_promises(alloc, out, d)?;
    add_always(alloc, out, d)?;
    add_spares(alloc, out, d)?;
    add_there(alloc, out, d)?;
    add_ranges(alloc, out, d)?;
    add_variants(alloc, out, d)?;
    add_clears(alloc, out, d)?;
    add_empty(alloc, out, d)
}

/// The obligations of a design, in the order of their rules (Owicki and Gries). Where all are true, the design is sound.
///
/// `Wide` with the origin of the first obligation that has a number that is too large. `Memory` where memory ran out.
pub fn obligations(alloc: Global, d: &Design) -> Result<Seq<Sequent>, ObligError>
    requires { IsFormedButEntries d.now }
    ensures { AreObligations d.now result }
{
    let mut out = Seq::new(alloc);
    add_rules(alloc, &mut out, d)?;
    Ok(out)
}
