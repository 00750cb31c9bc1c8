// Design 3 over a strip, one stage over all pairs before the next, so that a stage is vector code for any number of stages.
ghost use Rattle.std.specs.Prelude.{◌≡◌, ℕ, ◌+◌, ◌≤◌, List, length, ℤ};
ghost use Rattle.designs.specs.Designs.{Design, staged};
ghost use Rattle.strips.specs.Codes.{StageCoded};
ghost use Rattle.strips.specs.Stages.{Codes, Left, Multiplied, Multiplying, pairs_of, stages_of};
ghost use Rattle.strips.specs.Strips.{started};

use crate::by_codes::ByCodes;
use crate::count::{Stages, taken};
use crate::{STRIP, UNSET, codes, products, sums};
use patterns::methods::Staged;

// The places for the codes of a strip: of its numbers, and of what each of up to 16 stages leaves of them.
const CODES: usize = 1088;

// What a place for a product holds before the first stage. Its bytes differ, as those of `UNSET` do.
const NO_PRODUCT: i32 = 66051;

// The raised patterns of numbers.
fn raise(numbers: &[i16], left: &mut [u32])
    requires { length numbers.now ≤ length left.old }
    ensures { Left 0 (length numbers.now) numbers.now left.new }
{
    for (j, x) in numbers.iter().enumerate() {
        left[j] = patterns::raised(*x);
    }
}

// Those of what one stage more leaves of them.
fn next(left: &mut [u32])
    requires { (i : ℕ) × (numbers : List ℤ) × Left i (length left.old) numbers left.old }
    ensures { (i : ℕ) (numbers : List ℤ) → Left i (length left.old) numbers left.old → Left (i + 1) (length left.old) numbers left.new }
{
    for p in left.iter_mut() {
        *p = products::rest(*p);
    }
}

// The codes that go with them.
fn codes_of(left: &[u32], held: &mut [u32])
    requires { length left.now ≤ length held.old }
    ensures { (i : ℕ) (numbers : List ℤ) → Left i (length left.now) numbers left.now → Codes i (length left.now) numbers held.new }
{
    for (j, p) in left.iter().enumerate() {
        held[j] = codes::code(*p);
    }
}

// The codes of a part, and of what each of the stages leaves of it.
fn coded(stages: Stages, part: &[i16], held: &mut [u32])
    requires { (length part.now ≤ 64) × (length held.old ≡ 1088) }
    ensures { StageCoded (stages.count + 1) part.now held.new }
{
    let n = part.len();
    let mut places = [UNSET; STRIP];
    let left = &mut places[..n];
    raise(part, left);
    for i in 0..stages.count + 1 {
        let at = i * STRIP;
        codes_of(left, &mut held[at..at + STRIP]);
        next(left);
    }
}

// What a place counts for before stage i: before the first, for nothing.
fn so_far(i: usize, product: i32) -> i32
    ensures { result ≡ started i product }
{
    if i == 0 {
        return 0;
    }
    product
}

// Stage i, counted from 0, for each pair: its product is added, and what it leaves of the row takes the place of what the stages before left.
fn multiply(i: usize, held: &[u32; CODES], left: &mut [u32], found: &mut [i32])
    requires { (row : List ℤ) × (part : List ℤ) × Multiplying i row part held.now left.old found.old }
    ensures { (row part : List ℤ) → Multiplying i row part held.now left.old found.old → Left (i + 1) (pairs_of row part) row left.new × Multiplied (i + 1) row part found.new }
{
    let at = i * STRIP;
    let after = at + STRIP;
    for (j, p) in left.iter_mut().enumerate() {
        let before = so_far(i, found[j]);
        found[j] = before + products::stage(*p, held[at + j], held[after + j]);
        *p = products::rest(*p);
    }
}

// Codes for each stage.
#[derive(Clone, Copy)]
pub struct StageCodes {
    pub held: [u32; CODES],
}

impl Default for StageCodes {
    // All bytes are 0, so that the compiler sets them in place: it would copy an array of so many other numbers.
    fn default() -> StageCodes {
        StageCodes { held: [0; CODES] }
    }
}

impl ByCodes for Staged {
    type Codes = StageCodes;

    ghost design = { λ d. staged (stages_of d.stages) };

    ghost coded = { λ d part c. StageCoded (stages_of d.stages + 1) part c.held };

    fn code(self, part: &[i16], codes: &mut StageCodes) {
        coded(taken(self.stages), part, &mut codes.held[..]);
    }

    fn sum(self, row: &[i16], part: &[i16], codes: &StageCodes) -> i64 {
        let stages = taken(self.stages);
        let n = pairs::fewer(row.len(), part.len());
        let mut places = [UNSET; STRIP];
        let mut found = [NO_PRODUCT; STRIP];
        let left = &mut places[..n];
        raise(&row[..n], left);
        for i in 0..stages.count {
            multiply(i, &codes.held, left, &mut found[..]);
        }
        sums::sum(n, |j| found[j])
    }
}
