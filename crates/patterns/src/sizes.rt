// A size that is taken off a number.
ghost use Rattle.std.specs.Prelude.{◌≡◌, ◌^◌, ◌<◌, ◌-ℤ◌, unsigned_abs};
ghost use Rattle.designs.specs.Signs.{negative, with_sign};

// z less a number of its sign whose size is n.
pub(crate) fn less_size(z: i32, n: u32) -> i32
    requires { (n < 2 ^ 31) × (unsigned_abs z < 2 ^ 31) }
    ensures { result ≡ z -ℤ with_sign (negative z) n }
{
    if z < 0 {
        return z + n as i32;
    }
    z - n as i32
}
