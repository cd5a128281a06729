ghost use Rattle.coda_gen.specs.Generated.{LongerScriptsBeginWithShorterOnes};

/// A law of generated scripts: where more lines are asked for from the same number, they begin with the same lines.
pub fn longer_scripts_begin_with_shorter_ones()
    ensures { LongerScriptsBeginWithShorterOnes }
{}
