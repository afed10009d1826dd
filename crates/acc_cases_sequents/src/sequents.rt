//! Sequents as they are spelled.
use crate::designs::names;
use acc_base::designs::{At, Side};
use acc_base::forms::{Clause, Form, Rel};
use acc_base::sequences::Seq;
use acc_base::sequents::{Origin, Rule, Sequent};
use acc_cert_read::parts::Part;
use serde_json::Value;
use std::alloc::{AllocError, Global};

/// A form, and 1 where it is 0, else 0.
type SpelledRelation = (Form, u32);

/// How many variables a hypothesis has of its own, its guards, and its relation.
type Hypothesis = (u32, Seq<SpelledRelation>, SpelledRelation);

/// The rule, the variables and the type; the hypotheses; and the relations with the goal.
type SpelledSequent = (
    (u32, u32, u32),
    Seq<Hypothesis>,
    (Seq<SpelledRelation>, Form),
);

fn relation((form, equal): SpelledRelation) -> Rel {
    Rel {
        form,
        equal: equal == 1,
    }
}

fn relations(alloc: Global, spelled: Seq<SpelledRelation>) -> Result<Seq<Rel>, AllocError> {
    let mut relations = Seq::new(alloc);
    for one in spelled.into_vec() {
        relations.push(relation(one))?;
    }
    Ok(relations)
}

fn clause(alloc: Global, (count, guards, rel): Hypothesis) -> Result<Clause, AllocError> {
    let vars = names(alloc, count)?;
    Ok(Clause {
        vars,
        guards: relations(alloc, guards)?,
        rel: relation(rel),
    })
}

fn clauses(alloc: Global, spelled: Seq<Hypothesis>) -> Result<Seq<Clause>, AllocError> {
    let mut clauses = Seq::new(alloc);
    for one in spelled.into_vec() {
        clauses.push(clause(alloc, one)?)?;
    }
    Ok(clauses)
}

/// The first point of a type that is counted from 1 on; 0 is none.
fn point(ty: u32) -> Option<At> {
    let ty = ty.checked_sub(1)?;
    Some(At { ty, point: 0 })
}

/// The rule with a number, if there is one.
fn rule(number: u32) -> Option<Rule> {
    match number {
        0 => Some(Rule::Begins),
        1 => Some(Rule::Promises),
        2 => Some(Rule::Always),
        3 => Some(Rule::Spares),
        4 => Some(Rule::There),
        5 => Some(Rule::Ranges),
        6 => Some(Rule::Variants),
        7 => Some(Rule::Clears),
        8 => Some(Rule::Empty),
        _ => None,
    }
}

fn origin(rule: Rule, ty: u32) -> Origin {
    Origin {
        rule,
        held: None,
        clause: 0,
        at: point(ty),
        side: Side::Next,
        path: 0,
        case: 0,
    }
}

fn sequent(alloc: Global, spelled: SpelledSequent) -> Result<Option<Sequent>, AllocError> {
    let ((number, vars, ty), hyps, (rels, goal)) = spelled;
    let Some(rule) = rule(number) else {
        return Ok(None);
    };
    let hyps = clauses(alloc, hyps)?;
    Ok(Some(Sequent {
        origin: origin(rule, ty),
        vars,
        hyps,
        rels: relations(alloc, rels)?,
        goal,
    }))
}

fn spelled(alloc: Global, text: &str) -> Option<SpelledSequent> {
    let value = Value::from_str(alloc, text).ok()?;
    Part::read(alloc, &value).ok()
}

/// The sequent of a text, if it is one.
pub fn read(alloc: Global, text: &str) -> Result<Option<Sequent>, AllocError> {
    match spelled(alloc, text) {
        Some(spelled) => sequent(alloc, spelled),
        None => Ok(None),
    }
}
