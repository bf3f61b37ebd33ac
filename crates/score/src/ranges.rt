ghost use Rattle.std.specs.Prelude.{◌≡◌, nat_le, unsigned_abs};

// Whether a number is at most so far from 0.
pub fn is_within<const MOST: u32>(value: i32) -> bool
    ensures { result ≡ nat_le (unsigned_abs value) MOST }
{
    value.unsigned_abs() <= MOST
}
