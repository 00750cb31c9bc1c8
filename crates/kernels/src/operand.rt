// A magnitude that is not 0, split as 2^k and what is left beside that power.
ghost use Rattle.std.specs.Prelude.{◌≡◌, ◌+◌, ◌*◌, ◌<◌, IsNone, IfSome};
ghost use Rattle.kernels.specs.Steps.{Split};

#[derive(Clone, Copy)]
pub(crate) struct Operand {
    pub value: u32,
    // The floor of the logarithm.
    pub log: u32,
    // The value without its leading power of two.
    pub rest: u32,
    ghost split: { Split value log rest },
}

impl Operand {
    pub(crate) fn of(x: u32) -> Operand
        requires { 0 < x }
        ensures { result.value ≡ x }
    {
        let log = x.ilog2();
        Operand {
            value: x,
            log,
            rest: x & !(1u32 << log),
        }
    }

    // How far the value can be moved up in 32 bits.
    pub(crate) fn headroom(self) -> u32
        ensures { result + self.log ≡ 31 }
    {
        31 - self.log
    }
}

// The operands, unless one of them is 0, and so the product.
pub(crate) fn both(a: u32, b: u32) -> Option<(Operand, Operand)>
    ensures none { IsNone result → a * b ≡ 0 }
    ensures some { IfSome result (λ o. (o.0.value ≡ a) × (o.1.value ≡ b)) }
{
    if a == 0 || b == 0 {
        return None;
    }
    Some((Operand::of(a), Operand::of(b)))
}
