//! Numbers of 32 bits. A program has no code where one of its numbers does not fit, and no other number is refused.
ghost use Rattle.std.specs.Prelude.{◌≡◌, ◌+◌, ◌<◌, ◌^◌, IfOk, IsOk};

use std::alloc::AllocError;

/// So many more: a sum that fits is told. It takes no memory, and a sum of 4,294,967,296 or more is told as want of it.
pub fn deeper(depth: u32, more: u32) -> Result<u32, AllocError>
    ensures sum { IfOk result (λ sum. sum ≡ depth + more) }
    ensures fits { depth + more < 2 ^ 32 → IsOk result }
{
    match depth.checked_add(more) {
        Some(sum) => Ok(sum),
        None => Err(AllocError),
    }
}

/// The same number in 32 bits, where it fits. It takes no memory, and one of 4,294,967,296 or more is told as want of it.
pub fn narrow(number: usize) -> Result<u32, AllocError>
    ensures same { IfOk result (λ same. same ≡ number) }
    ensures fits { number < 2 ^ 32 → IsOk result }
{
    match u32::try_from(number) {
        Ok(same) => Ok(same),
        Err(_) => Err(AllocError),
    }
}
