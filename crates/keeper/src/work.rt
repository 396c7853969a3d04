// The work that a look wants of the engine.
ghost use Rattle.std.specs.Prelude.{◌≡◌};
ghost use Rattle.keeper.specs.Work.{work_number};

#[derive(Clone, Copy, Debug, PartialEq, Eq)]
pub enum Work {
    Nothing,
    Prepare,
    Execute,
    Open,
    Fetch,
}

impl From<Work> for u64 {
    ghost from_gives = { λ work n. n ≡ work_number work };

    fn from(work: Work) -> u64 {
        match work {
            Work::Nothing => 0,
            Work::Prepare => 1,
            Work::Execute => 2,
            Work::Open => 3,
            Work::Fetch => 4,
        }
    }
}
