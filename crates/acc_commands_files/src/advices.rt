//! Advising which entry lets a step go where a point is held.
ghost use Rattle.std.specs.Prelude.{◌≡◌, ◌⊎◌, ◌++◌, [], codes, IfOk};
ghost use Rattle.std.specs.List.{flat_map};
ghost use Rattle.acc_base.specs.Lines.{line};
ghost use Rattle.acc_advise.specs.declared.advice.Advice.TheVariants.{Free};
ghost use Rattle.acc_formed.specs.WellFormed.{IsWellFormed};
ghost use Rattle.acc_commands_inputs.specs.Answers.{said_alone};
ghost use Rattle.acc_journalled.specs.declared.answers.Ending.TheVariants.{Done, DesignRefused};
ghost use Rattle.acc_oblig_origins.specs.Origins.{origin_text};
ghost use Rattle.acc_page.specs.Written.{Adds};
ghost use Rattle.acc_cert_prove.specs.Lines.{line_of};
ghost use Rattle.acc_commands_files.specs.Advising.{why_text, beyond_line, advice_text, Advised, TooWide, RefusesPoint, SaysAdvice};
ghost use Rattle.acc_commands_files.specs.Advising.{AdvisesFile};

use crate::pages::finished;
use crate::points::{held_at, step_at};
use acc_advise::{Advice, AdviseError, Beyond, Obstacle, Question, Searchers, advise};
use acc_base::designs::{Design, Entry, Side};
use acc_base::sequences::Seq;
use acc_base::sequents::Origin;
use acc_cert_prove::{push_ended, push_point};
use acc_commands_inputs::{AdviceFiles, ReadDesign, read_design};
use acc_journalled::{Answer, Ending, one_line};
use acc_oblig_origins::origins::push_origin;
use acc_page::{Page, push_at};
use acc_print::{push_entry, push_pair_of};
use std::alloc::{AllocError, Global};

/// The line of an obligation that isn't proved, and why.
fn push_stop(out: &mut Page, d: &Design, origin: &Origin, why: &Obstacle)
    ensures { Adds out.old out.new (line_of d.now origin.now (why_text why.now)) }
{
    match why {
        Obstacle::Open(_, point) => push_point(out, d, origin, point.as_slice()),
        Obstacle::Crowded => push_ended(out, d, origin, b"crowded"),
        Obstacle::Wide => push_ended(out, d, origin, b"wide"),
        Obstacle::Many => push_ended(out, d, origin, b"many"),
    }
}

/// The line of a pair that can't be added.
fn push_beyond(out: &mut Page, d: &Design, q: Question, beyond: &Beyond)
    ensures { Adds out.old out.new (beyond_line d.now q beyond.now) }
{
    out.push(b"beyond ");
    push_pair_of(out, d, q.held, q.step, beyond.pair);
    out.push(b" ");
    push_stop(out, d, &beyond.origin, &beyond.why)
}

/// The lines of the pairs that can't be added.
fn push_all_beyond(out: &mut Page, d: &Design, q: Question, beyond: &[Beyond])
    ensures { Adds out.old out.new (flat_map (beyond_line d.now q) beyond.now) }
{
    for b in beyond {
        push_beyond(out, d, q, b);
    }
}

/// That the step needs no entry.
fn push_free(out: &mut Page, d: &Design, q: Question)
    ensures { Adds out.old out.new (advice_text d.now q (Free [])) }
{
    let side: &[u8] = match q.side {
        Side::Next => b" next\n",
        Side::Undo => b" undo\n",
    };
    out.push(b"free ");
    push_at(out, d, q.held);
    out.push(b" by ");
    push_at(out, d, q.step);
    out.push(side)
}

/// What is advised.
fn push_advice(out: &mut Page, d: &Design, q: Question, advice: Advice)
    ensures { Adds out.old out.new (advice_text d.now q advice) }
{
    match advice {
        Advice::Free(_) => push_free(out, d, q),
        Advice::Keyed(pairs, _, beyond) => {
            let entry = Entry {
                held: q.held,
                step: q.step,
                side: q.side,
                pairs,
            };
            push_entry(out, d, &entry);
            push_all_beyond(out, d, q, beyond.as_slice())
        }
    }
}

/// What is answered to a question.
fn advised(alloc: Global, d: &Design, q: Question, advice: Advice) -> Result<Answer, AllocError>
    ensures ending { IfOk result (λ a. a.ending ≡ Done) }
    ensures text { IfOk result (λ a. a.text.items ≡ advice_text d.now q advice) }
{
    let mut text = Page::new(alloc);
    push_advice(&mut text, d, q, advice);
    finished(text, Ending::Done)
}

/// What is answered where a number of an obligation is too large.
fn too_wide(alloc: Global, d: &Design, origin: &Origin) -> Result<Answer, AllocError>
    ensures ending { IfOk result (λ a. a.ending ≡ DesignRefused) }
    ensures text { IfOk result (λ a. a.text.items ≡ line (codes "refused wide " ++ origin_text d.now origin.now)) }
{
    let mut text = Page::new(alloc);
    text.push(b"refused wide ");
    push_origin(&mut text, d, origin);
    text.push(b"\n");
    finished(text, Ending::DesignRefused)
}

/// What is answered to a word that names no point, or one that no entry may have there.
fn point_refused(alloc: Global, word: &str) -> Result<Answer, AllocError>
    ensures { IfOk result (λ a. RefusesPoint word.now (said_alone a)) }
{
    let text = format!(in alloc; "refused point {word}")?;
    one_line(alloc, Ending::ScriptRefused, text.as_str())
}

/// Which entry lets the step of one point go where another is held.
fn advise_points<S: Searchers>(
    alloc: Global,
    d: &Design,
    q: Question,
    searchers: &S,
) -> Result<Answer, AllocError>
    requires searching { S.ready searchers.now }
    requires formed { IsWellFormed d.now }
    ensures { IfOk result (λ a. Advised d.now q (said_alone a) ⊎ TooWide d.now q (said_alone a)) }
{
    match advise(alloc, d, q.held, q.step, q.side, searchers) {
        Ok(advice) => advised(alloc, d, q, advice),
        Err(AdviseError::Wide(origin)) => too_wide(alloc, d, &origin),
        Err(AdviseError::Memory) => Err(AllocError),
    }
}

/// Which entry a design needs for two points that words name.
fn advise_design<S: Searchers>(
    alloc: Global,
    d: &Design,
    held: &str,
    step: &str,
    side: Side,
    searchers: &S,
) -> Result<Answer, AllocError>
    requires searching { S.ready searchers.now }
    requires formed { IsWellFormed d.now }
    ensures { IfOk result (λ a. SaysAdvice d.now held.now step.now side (said_alone a)) }
{
    let Some(held_point) = held_at(alloc, d, held)? else {
        return point_refused(alloc, held);
    };
    let Some(step_point) = step_at(alloc, d, side, step)? else {
        return point_refused(alloc, step);
    };
    let q = Question {
        held: held_point,
        step: step_point,
        side,
    };
    advise_points(alloc, d, q, searchers)
}

/// Which entry the design of a text needs, so that the step of one point may go where another is held. It waits for its searchers.
pub fn advise_file<S: Searchers>(
    alloc: Global,
    files: AdviceFiles,
    side: Side,
    searchers: &S,
) -> Result<Answer, AllocError>
    requires { S.ready searchers.now }
    ensures { IfOk result (λ a. AdvisesFile files.entry.design.now files.entry.held.now files.entry.step.now side (said_alone a)) }
{
    match read_design(alloc, files.design)? {
        ReadDesign::Read(d) => advise_design(alloc, &d, files.held, files.step, side, searchers),
        ReadDesign::Refused(answer) => Ok(answer),
    }
}
