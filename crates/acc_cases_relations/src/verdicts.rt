//! How verdicts are printed.
use acc_elim_decisions::verdicts::{ElimError, Verdict};
use std::alloc::AllocError;
use std::fmt::Write;

fn push_multipliers(out: &mut String, multipliers: &[(u32, i128)]) -> Result<(), AllocError> {
    out.push_str("refuted")?;
    for (place, by) in multipliers {
        write!(out, " {place}:{by}")?;
    }
    Ok(())
}

fn push_point(out: &mut String, point: &[(i128, i128)]) -> Result<(), AllocError> {
    out.push_str("solved")?;
    for (numerator, denominator) in point {
        write!(out, " {numerator}/{denominator}")?;
    }
    Ok(())
}

/// Pushes the multipliers of a refutation, a solution, or why there is neither.
pub fn push_verdict(
    out: &mut String,
    verdict: &Result<Verdict, ElimError>,
) -> Result<(), AllocError> {
    match verdict {
        Ok(Verdict::Refuted(multipliers)) => push_multipliers(out, multipliers.of.as_slice()),
        Ok(Verdict::Solved(point)) => push_point(out, point.as_slice()),
        Err(ElimError::Wide) => out.push_str("wide"),
        Err(ElimError::Many) => out.push_str("many"),
        Err(ElimError::Memory) => Err(AllocError),
    }
}
