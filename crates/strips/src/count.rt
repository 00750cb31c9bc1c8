// How many stages design 3 takes.
ghost use Rattle.std.specs.Prelude.{◌≡◌, ◌≤◌};
ghost use Rattle.strips.specs.Stages.{stages_of};

#[derive(Clone, Copy)]
pub(crate) struct Stages {
    pub count: usize,
    ghost some: { 1 ≤ count },
    ghost few: { count ≤ 16 },
}

// At least one stage, and at most 16.
pub(crate) fn taken(stages: u32) -> Stages
    ensures { result.count ≡ stages_of stages }
{
    Stages {
        count: stages.clamp(1, 16) as usize,
    }
}
