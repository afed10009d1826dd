//! Values for a hypothesis's own variables, read off targets.
ghost use Rattle.std.specs.Prelude.{◌≡◌, ◌∷◌, [], IfOk};
ghost use Rattle.acc_base.specs.Computing.{steps};
ghost use Rattle.acc_prover_choices.specs.Parts.{AnswersListing, LeavesListing};
ghost use Rattle.acc_prover_choices.specs.Choices.{values_in, by_patterns};
ghost use Rattle.acc_prover_choices.specs.Walks.{with_target, with_targets, grow, together, with_whole, walked};

use crate::listing::InstError;
use crate::patterns::{
    Pattern, Taken, all_have_targets, any_whole, fits, have_all, is_whole, taken_of,
};
use crate::targets::Target;
use crate::values::{add_few, nothings, values_by};
use acc_base::forms::Lin;
use acc_base::sequences::Seq;
use std::alloc::{AllocError, Global};

fn add_target(
    alloc: Global,
    pattern: &Pattern,
    news: &[Option<usize>],
    so_far: &[Lin],
    found: &mut Vec<Seq<Lin>>,
    target: &Target,
) -> Result<(), InstError>
    ensures { LeavesListing result found.new.items (with_target pattern.now news.now so_far.now found.old.items target.now) }
{
    if !fits(pattern, target) {
        return Ok(());
    }
    let values = values_by(alloc, target.key.as_slice(), news, so_far)?;
    add_few(found, values)
}

fn add_targets(
    alloc: Global,
    targets: &[Target],
    pattern: &Pattern,
    news: &[Option<usize>],
    found: &mut Vec<Seq<Lin>>,
    so_far: &[Lin],
) -> Result<(), InstError>
    ensures { LeavesListing result found.new.items (with_targets targets.now pattern.now news.now found.old.items so_far.now) }
{
    for target in targets {
        add_target(alloc, pattern, news, so_far, found, target)?;
    }
    Ok(())
}

/// All values so far with those of each target of a pattern.
fn grown(
    alloc: Global,
    targets: &[Target],
    level: &[Seq<Lin>],
    taken: &Taken,
) -> Result<Seq<Seq<Lin>>, InstError>
    ensures { AnswersListing result (grow targets.now level.now taken.now) }
{
    let mut found = Vec::new(alloc);
    let news = taken.news.as_slice();
    for so_far in level {
        let so_far = so_far.as_slice();
        add_targets(alloc, targets, &taken.pattern, news, &mut found, so_far)?;
    }
    Ok(Seq::from_vec(found))
}

fn begun(alloc: Global, count: usize) -> Result<Seq<Seq<Lin>>, AllocError>
    ensures { IfOk result (λ v. v ≡ values_in count [] ∷ []) }
{
    let mut level = Seq::new(alloc);
    level.push(nothings(alloc, count)?)?;
    Ok(level)
}

fn grown_by_all(
    alloc: Global,
    targets: &[Target],
    first: Seq<Seq<Lin>>,
    taken: &[Taken],
) -> Result<Seq<Seq<Lin>>, InstError>
    ensures { AnswersListing result (steps (grow targets.now) first taken.now) }
{
    let mut level = first;
    for one in taken {
        level = grown(alloc, targets, level.as_slice(), one)?;
    }
    Ok(level)
}

fn together(
    alloc: Global,
    targets: &[Target],
    count: usize,
    taken: &[Taken],
) -> Result<Seq<Seq<Lin>>, InstError>
    ensures { AnswersListing result (together targets.now count taken.now) }
{
    if have_all(taken, count) && all_have_targets(targets, taken) {
        let level = begun(alloc, count)?;
        return grown_by_all(alloc, targets, level, taken);
    }
    Ok(Seq::new(alloc))
}

fn add_whole(
    alloc: Global,
    targets: &[Target],
    so_far: &[Lin],
    found: &mut Vec<Seq<Lin>>,
    pattern: &Pattern,
) -> Result<(), InstError>
    ensures { LeavesListing result found.new.items (with_whole targets.now so_far.now found.old.items pattern.now) }
{
    if !is_whole(pattern) {
        return Ok(());
    }
    let places = pattern.places.as_slice();
    add_targets(alloc, targets, pattern, places, found, so_far)
}

fn by_whole(
    alloc: Global,
    targets: &[Target],
    so_far: &[Lin],
    patterns: &[Pattern],
) -> Result<Seq<Seq<Lin>>, InstError>
    ensures { AnswersListing result (steps (with_whole targets.now so_far.now) [] patterns.now) }
{
    let mut found = Vec::new(alloc);
    for pattern in patterns {
        add_whole(alloc, targets, so_far, &mut found, pattern)?;
    }
    Ok(Seq::from_vec(found))
}

fn walked(
    alloc: Global,
    targets: &[Target],
    count: usize,
    patterns: &[Pattern],
) -> Result<Seq<Seq<Lin>>, InstError>
    ensures { AnswersListing result (walked targets.now count patterns.now) }
{
    if any_whole(patterns) {
        let so_far = nothings(alloc, count)?;
        return by_whole(alloc, targets, so_far.as_slice(), patterns);
    }
    let taken = taken_of(alloc, patterns)?;
    together(alloc, targets, count, taken.as_slice())
}

/// The lists of values that patterns give for so many own variables, each list once; `Crowded` where there are over 4,096.
///
/// Each pattern that has all own variables gives, for each of its targets, the target's components. Where no pattern has all,
/// the patterns are taken in order in which a variable stands alone that does so in none taken before; and where those have all,
/// each choice of a target for each gives a list, the last one's target changing first. The value of a variable is the component
/// of the first pattern that has it.
pub fn by_patterns(
    alloc: Global,
    targets: &[Target],
    count: usize,
    patterns: &[Pattern],
) -> Result<Seq<Seq<Lin>>, InstError>
    ensures { AnswersListing result (by_patterns targets.now count patterns.now) }
{
    walked(alloc, targets, count, patterns)
}
