// What the numbers of a strip of the frame become.
ghost use Rattle.std.specs.Prelude.{◌≡◌, ℕ, ◌≤◌, ◌<◌, ◌^◌, length, ℤ};
ghost use Rattle.std.specs.Int.Signed.{mag};
ghost use Rattle.designs.specs.Codes.{kept_code};
ghost use Rattle.patterns.specs.Patterns.{clamped, raised_by};
ghost use Rattle.strips.specs.Codes.{code_by, code_of, Coded, left_code, offset_code, power_code};

// 159 in the exponent field: 127 for the pattern of 1, 16 for a weight that is raised, and 16 for the number itself.
const RAISED_TWICE: u32 = 159 << 23;

// The code that goes with a raised pattern.
pub(crate) fn code(p: u32) -> u32
    ensures { (h : ℕ → ℕ) (z : ℤ) → p ≡ raised_by h z → result ≡ code_by h z }
{
    if p == 0 {
        return 0;
    }
    std::num::wrapping_sub_u32(p, RAISED_TWICE)
}

// For design 1, the code of the number itself.
pub(crate) fn own_code(x: i16) -> u32
    ensures { result ≡ code_of x }
{
    code(patterns::raised(x))
}

// For design 2, those of the nearest power, and of what it leaves.
pub(crate) fn power_code(x: i16) -> u32
    ensures { result ≡ power_code x }
{
    code(patterns::near(patterns::raised(x)))
}

pub(crate) fn offset_code(x: i16) -> u32
    ensures { result ≡ offset_code x }
{
    code(patterns::raised_offset(x))
}

// For design 4, with the kept bits.
pub(crate) fn kept_code(kept_bits: u32, x: i16) -> u32
    ensures { result ≡ code_by (kept_code 23 (clamped kept_bits)) x }
{
    code(patterns::kept(kept_bits, patterns::raised(x)))
}

// For design 5, that of what the first stage leaves where it is low, or else.
pub(crate) fn left_code(low: bool, x: i16) -> u32
    ensures { result ≡ left_code low x }
{
    kept_code(2, patterns::left_of(low, x))
}

// The codes of a part, by what makes one of a number.
pub(crate) fn fill<F: Fn(i16) -> u32>(part: &[i16], codes: &mut [u32], code: F)
    requires { (length part.now ≤ 64) × (length codes.old ≡ 64) × F.IsAlwaysCallable code }
    ensures { (f : ℤ → ℕ) → ((x : ℤ) (q : ℕ) → mag x < 2 ^ 15 → F.post code x q → q ≡ f x) → Coded f part.now codes.new }
{
    for (j, x) in part.iter().enumerate() {
        codes[j] = code(*x);
    }
}
