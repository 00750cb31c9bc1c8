// The worst of the first pairs of a row: the largest size of their residues, and the first place that has it. Few pairs carry it from one to
// the next. A block looks for a place only where its largest residue is larger than all before it, which in a long row is seldom so.
ghost use Rattle.std.specs.Prelude.{◌≡◌, cond, ℕ, ◌+◌, ◌^◌, ◌≤◌, ◌<◌, eqb, ℤ, nat_abs, length};
ghost use Rattle.rows.specs.Worst.{Comparable, First, WorstOf, with_residue};

#[derive(Clone, Copy, Default)]
pub(crate) struct Worst {
    pub(crate) size: u64,
    pub(crate) place: usize,
}

// With the residue of place `at`, the next one.
pub(crate) fn with_residue(worst: Worst, residue: i64, at: usize) -> Worst
    ensures { result ≡ with_residue worst residue at }
{
    let size = signs::magnitude(residue);
    if worst.size < size {
        return Worst { size, place: at };
    }
    worst
}

// With the pairs from `from` up to `end`, whose residues are in a block, and whose largest residue has the size `largest`.
pub(crate) fn with_block(
    worst: Worst,
    largest: i32,
    from: usize,
    end: usize,
    block: &[i32],
) -> Worst
    requires { (z : ℕ → ℤ) × Comparable z worst largest block.now from end }
    ensures { (z : ℕ → ℤ) → Comparable z worst largest block.now from end → WorstOf z end result }
{
    let size = largest as u64;
    if size <= worst.size {
        return worst;
    }
    Worst {
        size,
        place: from + first_of(largest, &block[..end - from]),
    }
}

// The first place of a block that has a number of this size, or 64 where none has. It goes over all of them, and a place takes a byte,
// so that the compiler takes several at a time: a search that ends where it finds one has a branch that is predicted wrongly.
fn first_of(size: i32, block: &[i32]) -> usize
    requires { (length block.now ≤ 64) × (nat_abs size < 2 ^ 31) }
    ensures { First block.now (nat_abs size) (length block.now) result }
{
    let mut first = 64;
    for (j, number) in block.iter().enumerate() {
        first = first.min(place_of(size, *number, j));
    }
    first as usize
}

// Place j, if its number has this size; otherwise 64.
fn place_of(size: i32, number: i32, j: usize) -> u8
    requires { (j < 64) × (nat_abs size < 2 ^ 31) }
    ensures { result ≡ cond (eqb (nat_abs number) (nat_abs size)) j 64 }
{
    if (number == size) | (number == 0 - size) {
        return j as u8;
    }
    64
}
