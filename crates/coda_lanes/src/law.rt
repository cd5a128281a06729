ghost use Rattle.coda_lanes.specs.Lanes.{MasksHaveTheBits};

/// A law of masks: bit `i` is set just where the test holds at place `i`.
pub fn masks_have_the_bits()
    ensures { MasksHaveTheBits }
{}
