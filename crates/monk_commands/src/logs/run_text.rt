//! The text of a run.

ghost use Rattle.std.specs.Prelude.{◌≡◌, IfOk, string_bytes};
ghost use Rattle.monk_commands.specs.RunText.{run_heading, run_text};

use monk_judge::Step;
use monk_logs::LogHeader;
use std::alloc::{AllocError, Global};

fn heading(alloc: Global, header: &LogHeader) -> Result<String, AllocError>
    ensures { IfOk result (λ text. string_bytes text ≡ run_heading header.now) }
{
    let (seats, conds) = (header.seats(), header.conds());
    let (object, size) = (header.object().as_str(), header.size());
    Ok(format!(in alloc; "run NPNB {seats} {conds} {object} {size}\n")?)
}

/// Returns the text of a run: a header line, and a line for each step.
pub(crate) fn run_text(
    alloc: Global,
    header: &LogHeader,
    steps: &[Step],
) -> Result<String, AllocError>
    ensures { IfOk result (λ text. string_bytes text ≡ run_text header.now steps.now) }
{
    let mut page = heading(alloc, header)?;
    for step in steps {
        write!(page, "{step}\n")?;
    }
    Ok(page)
}
