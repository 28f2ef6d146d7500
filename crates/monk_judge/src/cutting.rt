//! The steps of the first lines of a run, and the steps after them.

ghost use Rattle.std.specs.Prelude.{◌≡◌, ◌<◌, ◌-◌};
ghost use Rattle.monk_judge.specs.Followed.{behind_lines, left_by, telling};

use crate::step::Step;

/// Returns the steps that tell the first `lines` lines of a run, and the steps after them. One pass over the first.
pub fn cut(steps: &[Step], lines: usize) -> (&[Step], &[Step])
    ensures first { result.0.now ≡ telling lines steps.now }
    ensures behind { result.1.now ≡ behind_lines lines steps.now }
{
    let mut left = lines;
    for (index, step) in steps.iter().enumerate() {
        if left == 0 {
            return (&steps[..index], &steps[index..]);
        }
        left = left_behind(*step, left);
    }
    (steps, &[])
}

/// Returns how many lines are left to tell after a step. `left` is how many there were before it.
fn left_behind(step: Step, left: usize) -> usize
    requires { 0 < left }
    ensures { result ≡ left_by step (left - 1) }
{
    match step {
        Step::Tells(..) => left - 1,
        Step::RunsOut(_) | Step::WakesUnasked(_) => left,
    }
}
