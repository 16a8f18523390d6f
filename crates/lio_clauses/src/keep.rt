//! Keeping a value while another one is got, and letting one go for another. The bodies are
//! generic, so that they drop by the type's own drop function, which is proved once: a `?` or an
//! assignment at a type that owns much would lay that drop out again where it stands, variant by
//! variant.
ghost use Rattle.std.specs.Prelude.{◌≡◌, MatchResult, Ok, Err};

/// Gives a value beside what was got. Where nothing was got, lets the value go.
pub fn beside<T: Drop, U, E>(kept: T, got: Result<U, E>) -> Result<(T, U), E>
    ensures { MatchResult got (λ u. result ≡ Ok (kept, u)) (λ e. result ≡ Err e) }
{
    match got {
        Ok(u) => Ok((kept, u)),
        Err(e) => Err(e),
    }
}

/// Puts a value into a place, and lets go what was there.
pub fn assign<T: Drop>(place: &mut T, value: T)
    ensures { place.new ≡ value }
{
    *place = value;
}
