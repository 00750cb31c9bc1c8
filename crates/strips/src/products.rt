// The product of a weight, by its raised pattern, and a number of the frame, by its codes, for each design.
ghost use Rattle.std.specs.Prelude.{◌≡◌, ℕ, ◌^◌, ◌<◌, ◌≤◌, ℤ, if◌then◌else◌, unsigned_abs};
ghost use Rattle.designs.specs.Codes.{code, kept_code};
ghost use Rattle.designs.specs.Designs.{mitchell, nearest, product, staged, truncated, twice_truncated, unless_zero};
ghost use Rattle.designs.specs.Signs.{rest_ℤ, signed_product, with_sign};
ghost use Rattle.patterns.specs.Patterns.{clamped, power_of, raised_of, Stands};
ghost use Rattle.strips.specs.Codes.{code_of, Logs, NearLogs, SecondLogs, StageLogs, TwiceCoded};

// The second stage of design 5 keeps two bits.
const TWO: u32 = 2;

const TWO_HIGHER: u32 = (TWO << 23) + ((1 << 23) >> TWO);

// The sign and the exponent field.
const POWERS: u32 = 511 << 23;

// The lowest pattern with a minus sign.
const MINUS: u32 = 1 << 31;

// s, or 0 where p or q is 0.
fn unless_zero(p: u32, q: u32, s: u32) -> u32
    ensures { result ≡ unless_zero p q s }
{
    if p == 0 {
        return 0;
    }
    if q == 0 {
        return 0;
    }
    s
}

// The whole number that a pattern stands for.
fn whole(p: u32) -> i32
    requires { (z : ℤ) × Stands p z }
    ensures { (z : ℤ) → Stands p z → result ≡ z }
{
    f32::from_bits(p) as f64 as i32
}

// By design 1.
pub(crate) fn mitchell(p: u32, q: u32) -> i32
    requires { (u : ℤ) × (v : ℤ) × Logs (code 23) u v p q }
    ensures { (u v : ℤ) → Logs (code 23) u v p q → result ≡ signed_product mitchell u v }
{
    whole(unless_zero(p, q, std::num::wrapping_add_u32(p, q)))
}

// By design 2: the weight by the number's power, and the weight's power by what that leaves of the number.
pub(crate) fn nearest(p: u32, power: u32, offset: u32) -> i32
    requires { (w : ℤ) × (x : ℤ) × NearLogs w x p power offset }
    ensures { (w x : ℤ) → NearLogs w x p power offset → result ≡ signed_product nearest w x }
{
    mitchell(p, power) + mitchell(patterns::near(p), offset)
}

// Without its fraction a code is that of the leading power.
fn lead_code(q: u32) -> u32
    ensures { (z : ℤ) → unsigned_abs z ≤ 2 ^ 15 → q ≡ code_of z → result ≡ code_of (power_of 0 z) }
{
    q & POWERS
}

// The raised pattern of what a stage of design 3 leaves of a number. Less its leading power the number is a binary32 again, so that the
// difference is exact.
pub(crate) fn rest(p: u32) -> u32
    requires { (z : ℤ) × (unsigned_abs z ≤ 2 ^ 15) × (p ≡ raised_of z) }
    ensures { (z : ℤ) → unsigned_abs z ≤ 2 ^ 15 → p ≡ raised_of z → result ≡ raised_of (rest_ℤ z) }
{
    f32::to_bits(f32::from_bits(p) - f32::from_bits(patterns::lead(p)))
}

// By design 1, of the leading power of the first number. The power is 0 where the number is, so that one test serves both products of a stage.
fn by_lead(p: u32, q: u32) -> i32
    requires { (u : ℤ) × (v : ℤ) × Logs (code 23) u v p q }
    ensures { (u v : ℤ) → Logs (code 23) u v p q → result ≡ signed_product mitchell (power_of 0 u) v }
{
    let sum = std::num::wrapping_add_u32(patterns::lead(p), q);
    whole(unless_zero(p, q, sum))
}

// By one stage of design 3, as by design 2: leading powers stand for the nearest ones.
pub(crate) fn stage(p: u32, q: u32, left: u32) -> i32
    requires { (w : ℤ) × (x : ℤ) × StageLogs w x p q left }
    ensures { (w x : ℤ) → StageLogs w x p q left → result ≡ signed_product (staged 1) w x }
{
    mitchell(p, lead_code(q)) + by_lead(p, left)
}

// By design 4, of patterns and codes with the kept bits.
pub(crate) fn truncated(kept_bits: u32, p: u32, q: u32) -> i32
    requires { (u : ℤ) × (v : ℤ) × Logs (kept_code 23 (clamped kept_bits)) u v p q }
    ensures { (u v : ℤ) → Logs (kept_code 23 (clamped kept_bits)) u v p q → result ≡ signed_product (truncated (clamped kept_bits)) u v }
{
    let sum = std::num::wrapping_add_u32(p, q);
    whole(unless_zero(p, q, patterns::carried(kept_bits, sum)))
}

// The second stage of design 5, of what the first leaves of both numbers: design 4 with two kept bits. Its sum is read two places higher, with
// the carry at the last kept bit, so that it is whole.
fn second_stage(p: u32, q: u32) -> u32
    requires { (A : ℕ) × (B : ℕ) × SecondLogs A B p q }
    ensures { (A B : ℕ) → SecondLogs A B p q → result ≡ product (truncated 2) A B }
{
    let higher = std::num::wrapping_add_u32(std::num::wrapping_add_u32(p, q), TWO_HIGHER);
    whole(unless_zero(p, q, higher)) as u32 >> TWO
}

// a, or b.
fn chosen(first: bool, a: u32, b: u32) -> u32
    ensures { result ≡ (if first then a else b) }
{
    if first {
        return a;
    }
    b
}

// n, or −n.
fn with_sign(minus: bool, n: u32) -> i32
    requires { n < 2 ^ 31 }
    ensures { result ≡ with_sign minus n }
{
    if minus {
        return 0 - n as i32;
    }
    n as i32
}

// By design 5: the first stage is design 4. Whether it is low says what it leaves of the weight, and which of its codes the number has for
// the second.
pub(crate) fn twice_truncated(
    kept_bits: u32,
    w: i16,
    first: u32,
    room: u32,
    low: u32,
    high: u32,
) -> i32
    requires { (x : ℤ) × TwiceCoded (clamped kept_bits) x first room low high }
    ensures { (x : ℤ) → TwiceCoded (clamped kept_bits) x first room low high → result ≡ signed_product (twice_truncated (clamped kept_bits)) w x }
{
    let p = patterns::kept(kept_bits, patterns::raised(w));
    let is_low = patterns::fraction_of(kept_bits, w) < room;
    let left = patterns::kept(TWO, patterns::raised(patterns::left_of(is_low, w)));
    let second = second_stage(left, chosen(is_low, low, high));
    let minus = MINUS <= std::num::wrapping_add_u32(p, first);
    truncated(kept_bits, p, first) + with_sign(minus, second)
}
