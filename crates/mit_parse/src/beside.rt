//! What was read, beside what is read after it.
ghost use Rattle.std.specs.Prelude.{◌≡◌, IfErr, IfOk, Err, Ok};

/// What was read, and what was read after it. The first is let go where the second was not read.
pub(crate) fn beside<T: Drop, U, E>(first: T, second: Result<U, E>) -> Result<(T, U), E>
    ensures both { IfOk result (λ pair. (pair.0 ≡ first) × (second ≡ Ok pair.1)) }
    ensures stop { IfErr result (λ stop. second ≡ Err stop) }
{
    match second {
        Ok(second) => Ok((first, second)),
        Err(stop) => Err(stop),
    }
}
