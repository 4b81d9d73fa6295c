//! How many calls of a device have failed.
ghost use Rattle.qd_io.specs.Ends.{Counts};

use qd_io::IoFault;

/// Counts the answer where it is a failure of the device, up to the greatest `u64`.
pub fn count_failure<T>(count: &mut u64, answer: &Result<T, IoFault>)
    ensures { Counts count.old count.new answer.now }
{
    if let Err(IoFault::Failed) = answer {
        *count = count.saturating_add(1);
    }
}
