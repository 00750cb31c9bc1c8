// How many stages are taken.
ghost use Rattle.std.specs.Prelude.{◌≡◌, ◌≤◌};
ghost use Rattle.many_stages.specs.Strips.{many_of};

#[derive(Clone, Copy)]
pub(crate) struct Stages {
    pub count: usize,
    ghost many: { 4 ≤ count },
    ghost few: { count ≤ 16 },
}

// At least four stages, and at most 16.
pub(crate) fn taken(stages: u32) -> Stages
    ensures { result.count ≡ many_of stages }
{
    Stages {
        count: stages.clamp(4, 16) as usize,
    }
}
