// Values in pairs.
ghost use Rattle.std.specs.Prelude.{◌≡◌, IfErr, IfOk, Err, Ok};

/// What was made already, beside what is made next. It is let go of where that fails. Takes no memory.
pub fn pair_if_ok<X: Drop, Y, E>(made: X, next: Result<Y, E>) -> Result<(X, Y), E>
    ensures made { IfOk result (λ p. p.0 ≡ made) }
    ensures next { IfOk result (λ p. next ≡ Ok p.1) }
    ensures fails { IfErr result (λ e. next ≡ Err e) }
{
    match next {
        Ok(next) => Ok((made, next)),
        Err(e) => Err(e),
    }
}
