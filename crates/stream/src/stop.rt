// Where a stretch first goes wrong.
ghost use Rattle.std.specs.Prelude.{◌≢◌};
ghost use Rattle.stream.specs.declared.Verdict.TheVariants.{Whole};

use crate::Verdict;

// The first fault of a stretch that doesn't begin with a whole stream: the verdict on it, and the offset that it was reached at.
#[derive(Clone, Copy)]
pub struct Stop {
    pub verdict: Verdict,
    pub offset: usize,
    pub ghost faulty: { verdict ≢ Whole },
}
