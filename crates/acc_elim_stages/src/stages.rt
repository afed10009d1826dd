//! The stage of equations of a system, kept so that one more relation can be led through it.
ghost use Rattle.std.specs.Prelude.{◌≡◌, map, IfOk, IfErr, OnOk, OnErr, [], ◌∷◌, ◌++◌};
ghost use Rattle.acc_base.specs.Computing.{steps};
ghost use Rattle.acc_rows.specs.Answers.{StoppedBy};
ghost use Rattle.acc_elim_systems.specs.Repetitions.{AreApart};
ghost use Rattle.acc_elim_systems.specs.Systems.{admitted, replaced, set_aside};
ghost use Rattle.acc_elim_stages.specs.Stages.{row_form, reduced, IsFirst, SetsAside, Follows};

use acc_base::sequences::Seq;
use acc_elim_systems::systems::{Replaced, admit_all, form_of, replace_all, take_equation};
use acc_rows::rows::Row;
use acc_rows::stops::Stop;
use std::alloc::{AllocError, Global};
use std::mem;

/// An equation that was set aside for its unknown, the relations that were made without the unknown, less their multipliers, and how
/// many the system then had.
#[derive(Drop)]
pub struct Step {
    pub aside: (u32, Row),
    pub made: Seq<Row>,
    pub count: usize,
}

/// What one more relation is led through: the relations of the first system, less their multipliers, and the steps.
#[derive(Drop)]
pub struct Path {
    pub first: Seq<Row>,
    pub steps: Seq<Step>,
}

/// The path, the system behind it, and the unknowns that are left.
#[derive(Drop)]
pub struct Stage {
    pub path: Path,
    pub rows: Seq<Row>,
    pub left: Seq<u32>,
}

/// Relations without their multipliers.
fn forms_of(alloc: Global, rows: &[Row]) -> Result<Seq<Row>, AllocError>
    ensures { IfOk result (λ forms. forms ≡ map row_form rows.now) }
{
    let mut forms = Seq::new(alloc);
    for row in rows {
        forms.push(form_of(alloc, row)?)?;
    }
    Ok(forms)
}

/// The stage before its first step.
pub fn begin(alloc: Global, rows: Vec<Row>) -> Result<Stage, Stop>
    ensures value { IfOk result (IsFirst rows.items) }
    ensures stops { IfErr result (λ e. StoppedBy e (steps admitted [] rows.items)) }
{
    let rows = admit_all(alloc, rows)?;
    let first = forms_of(alloc, rows.as_slice())?;
    let steps = Seq::new(alloc);
    Ok(Stage {
        path: Path { first, steps },
        rows,
        left: Seq::new(alloc),
    })
}

/// An equation that was taken for the unknown is set aside. The others are the system without the unknown.
fn put_aside(
    alloc: Global,
    stage: &mut Stage,
    unknown: u32,
    equation: Row,
    others: Vec<Row>,
) -> Result<(), Stop>
    requires { AreApart others.items }
    ensures value { OnOk result (SetsAside stage.old unknown equation others.items stage.new) }
    ensures path { OnErr result (stage.new.path ≡ stage.old.path) }
    ensures stops { IfErr result (λ e. StoppedBy e (steps (replaced unknown equation) [] others.items)) }
{
    let Replaced { rows, made } = replace_all(alloc, unknown, &equation, others)?;
    let count = rows.len();
    stage.rows = rows;
    stage.path.steps.push(Step {
        aside: (unknown, equation),
        made,
        count,
    })?;
    Ok(())
}

/// The system without the unknown where an equation has it; else the unknown is left. What stops that leaves the path as it was.
pub fn set_aside(alloc: Global, stage: &mut Stage, unknown: u32) -> Result<(), Stop>
    requires { AreApart stage.old.rows }
    ensures value { OnOk result (Follows stage.old unknown stage.new) }
    ensures path { OnErr result (stage.new.path ≡ stage.old.path) }
    ensures stops { IfErr result (λ e. StoppedBy e (set_aside (reduced stage.old) unknown)) }
{
    let mut rows = mem::replace(&mut stage.rows, Seq::new(alloc)).into_vec();
    match take_equation(&mut rows, unknown) {
        None => {
            stage.rows = Seq::from_vec(rows);
            stage.left.push(unknown)?;
            Ok(())
        }
        Some(equation) => put_aside(alloc, stage, unknown, equation, rows),
    }
}
