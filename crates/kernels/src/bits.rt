// Powers of two and shifts that lose nothing.
ghost use Rattle.std.specs.Prelude.{◌≡◌, ◌*◌, ◌^◌, ◌<◌, ◌≤◌};

pub(crate) fn power(k: u32) -> u64
    requires { k < 64 }
    ensures { result ≡ 2 ^ k }
{
    1u64 << k
}

pub(crate) fn shifted(x: u32, k: u32) -> u64
    requires { k ≤ 32 }
    ensures { result ≡ x * 2 ^ k }
{
    (x as u64) << k
}
