//! What is wrong with the text of a design: its line, the word on it, and how to mend it.
ghost use Rattle.std.specs.Prelude.{◌≡◌, IfOk};
ghost use Rattle.acc_form.specs.declared.rules.FormError.TheVariants.{Bad};
ghost use Rattle.acc_form.specs.Judged.{IsFaultInPrint};
ghost use Rattle.acc_parse.specs.Texts.{IsDesignText};
ghost use Rattle.acc_parse.specs.Faults.{Refuses};
ghost use Rattle.acc_diagnose_faults.specs.Refusals.{IsRefused, IsDiagnosed};

use crate::forms::{source_line, tree_in, words_in};
use crate::tokens::tokens_of;
use acc_base::designs::Design;
use acc_base::limits::Limit;
use acc_base::rules::FormRule;
use acc_diagnose_expected::syntax_spot;
use acc_diagnose_spot::{limit_spot, name_spot, statement_spot};
use acc_diagnose_words::{Spot, push_rule, rule_hint};
use acc_form::{FormError, well_formed};
use acc_parse::{ParseError, parse};
use acc_parse_names::names_of;
use std::alloc::{AllocError, Global};

/// Why a text is no design that can be played.
#[derive(Clone, Copy)]
pub enum DesignRefusal {
    /// It isn't of the grammar.
    Syntax,
    /// A name isn't defined, or is defined a second time.
    Name,
    /// It passes this limit.
    Limit(Limit),
    /// It breaks this form rule, on this line of its print.
    Form(FormRule, u64),
}

/// What is wrong with the text of a design.
#[derive(Drop)]
pub struct Diagnosis {
    pub refusal: DesignRefusal,
    /// The line of the text, from 1.
    pub line: u64,
    /// The word on that line, what is wrong in words, and how to mend it.
    pub spot: Spot,
}

/// A design that was read, or what is wrong with its text.
#[derive(Drop)]
pub enum Diagnosed {
    Read(Design),
    Refused(Diagnosis),
}

/// The number of a text's first statement with a fault of names, if there is one.
fn name_fault(alloc: Global, text: &[u8]) -> Result<u64, AllocError> {
    let words = words_in(alloc, text)?;
    let tree = tree_in(alloc, words.as_slice())?;
    let names = names_of(alloc, &tree)?;
    Ok(names.first_fault.unwrap_or(0))
}

/// The spot of the name that is wrong.
fn wrong_name(alloc: Global, text: &[u8]) -> Result<Spot, AllocError> {
    let number = name_fault(alloc, text)?;
    let tokens = tokens_of(alloc, text)?;
    Ok(name_spot(alloc, text, tokens.as_slice(), number))
}

/// The spot that passes a limit.
fn passed_limit(alloc: Global, text: &[u8], line: u64, limit: Limit) -> Result<Spot, AllocError> {
    let tokens = tokens_of(alloc, text)?;
    Ok(limit_spot(alloc, text, tokens.as_slice(), line, limit))
}

/// What is wrong with a text that is refused with an error.
fn text_diagnosis(alloc: Global, text: &[u8], error: ParseError) -> Result<Diagnosis, AllocError>
    requires { Refuses text.now error }
    ensures { IfOk result (λ d. IsRefused text.now d.refusal d.line) }
{
    match error {
        ParseError::Syntax(line) => Ok(Diagnosis {
            refusal: DesignRefusal::Syntax,
            line,
            spot: syntax_spot(alloc, text, line)?,
        }),
        ParseError::Name(line) => Ok(Diagnosis {
            refusal: DesignRefusal::Name,
            line,
            spot: wrong_name(alloc, text)?,
        }),
        ParseError::Limit(line, limit) => Ok(Diagnosis {
            refusal: DesignRefusal::Limit(limit),
            line,
            spot: passed_limit(alloc, text, line, limit)?,
        }),
        ParseError::Memory => Err(AllocError),
    }
}

/// Says which form rule a statement breaks.
fn push_broken(spot: &mut Spot, rule: FormRule) {
    push_rule(&mut spot.what, rule);
    spot.what.push(b" (form rule ");
    spot.what.push_number(rule.number());
    spot.what.push(b")");
    spot.hint.push(rule_hint(rule));
}

/// What is wrong with a text whose design breaks a form rule.
fn form_diagnosis(
    alloc: Global,
    text: &[u8],
    design: &Design,
    rule: FormRule,
    printed: u64,
) -> Result<Diagnosis, AllocError>
    requires stands { IsDesignText text.now design.now }
    requires broken { IsFaultInPrint design.now (Bad rule printed) }
    ensures { IfOk result (λ d. IsRefused text.now d.refusal d.line) }
{
    let source = source_line(alloc, text, design, rule, printed)?;
    let tokens = tokens_of(alloc, text)?;
    let mut spot = statement_spot(alloc, text, tokens.as_slice(), source.statement);
    push_broken(&mut spot, rule);
    Ok(Diagnosis {
        refusal: DesignRefusal::Form(rule, printed),
        line: source.line,
        spot,
    })
}

/// Reads a design as the program does: its text, and then the form rules; or tells what is wrong with the text, on the line that is
/// refused. A text that is refused is gone over a few times more, and one that isn't of the grammar once for each word of the
/// language.
pub fn diagnose(alloc: Global, text: &[u8]) -> Result<Diagnosed, AllocError>
    ensures { IfOk result (IsDiagnosed text.now) }
{
    let design = match parse(alloc, text) {
        Ok(design) => design,
        Err(error) => return Ok(Diagnosed::Refused(text_diagnosis(alloc, text, error)?)),
    };
    match well_formed(&design) {
        Ok(()) => Ok(Diagnosed::Read(design)),
        Err(FormError::Bad(rule, printed)) => {
            let diagnosis = form_diagnosis(alloc, text, &design, rule, printed)?;
            Ok(Diagnosed::Refused(diagnosis))
        }
        Err(FormError::Memory) => Err(AllocError),
    }
}
