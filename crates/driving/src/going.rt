// How a run goes on: behind a cycle by the extracted expressions, at a line of its inputs, and where extraction refuses its module.
ghost use Rattle.std.specs.Prelude.{◌≡◌};
ghost use Rattle.driving.specs.Going.{after_expressions, line_of, unextracted};

use crate::{Line, Rest, Unextracted, is_counted, is_expressed};
use options::Way;

// A run behind a cycle by the expressions, which gave this number, 0 where it was accepted.
#[tactic(auto, unfolding(crate::specs::Going::after_expressions))]
pub fn after_expressions(r: Rest, number: u8) -> Rest
    ensures { result ≡ after_expressions r number }
{
    Rest {
        number,
        rested: number == 0,
        ..r
    }
}

// What a line of the inputs is, by its error, and whether nothing is left behind it.
pub fn line_of(error: u8, over: bool) -> Line
    ensures { result ≡ line_of error over }
{
    if error == 0 {
        return Line::Cycle;
    }
    if error != 1 {
        return Line::Wrong;
    }
    if over {
        return Line::Last;
    }
    Line::Passed
}

// What becomes of a run whose module extraction refuses, and that is to say nothing of it or not.
#[tactic(auto, unfolding(crate::specs::Going::unextracted))]
pub fn run_unextracted(way: Way, silent: bool) -> Unextracted
    ensures { result ≡ unextracted way silent }
{
    if is_expressed(way) || is_counted(way) {
        return Unextracted::Held;
    }
    if silent {
        Unextracted::Silent
    } else {
        Unextracted::Warned
    }
}
