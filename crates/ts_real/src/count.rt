// Counting failures.
ghost use Rattle.std.specs.Prelude.{◌≡◌, IfOk, is_err};
ghost use Rattle.ts_site.specs.Faults.{CountsFault};

use std::io;
use ts_site::Failed;

// The answer, whose failure is counted. Whether it failed is kept.
pub fn counted<T>(
    faults: &mut u64,
    failed_last: &mut bool,
    answer: io::Result<T>,
) -> Result<T, Failed>
    ensures counts { CountsFault (is_err result) faults.old faults.new }
    ensures last { failed_last.new ≡ is_err result }
    ensures answer { IfOk result (λ value. answer ≡ Ok value) }
{
    *failed_last = answer.is_err();
    match answer {
        Ok(value) => Ok(value),
        Err(_) => {
            *faults = faults.saturating_add(1);
            Err(Failed)
        }
    }
}
