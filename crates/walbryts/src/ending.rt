// How a command ends: well, or by an outcome that isn't `Done`, which `?` hands up.
use options::Outcome;

// An outcome as a result.
pub fn result_of(outcome: Outcome) -> Result<(), Outcome> {
    match outcome {
        Outcome::Done => Ok(()),
        _ => Err(outcome),
    }
}

// A result as an outcome.
pub fn outcome_of(ended: Result<(), Outcome>) -> Outcome {
    match ended {
        Ok(()) => Outcome::Done,
        Err(outcome) => outcome,
    }
}
