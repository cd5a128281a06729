// What follows from the answers of a run, for every machine.
ghost use Rattle.coda_engine.specs.Exact.{CleanScriptsRunAt, OneStatusAt};

use crate::machine::Machine;

/// A script within the limits that the machine may run to its end never ends as bad or as too long.
///
/// It holds for each machine with a test that tells which of its states refuse the same lines.
pub fn clean_scripts_run<M: Machine>()
    ensures { CleanScriptsRunAt M.gives M.refuses }
{}

/// A script has one status, but for faults and want of memory, however it is cut into pieces.
///
/// It holds for each machine with a test that tells which of its states refuse the same lines.
pub fn one_status<M: Machine>()
    ensures { OneStatusAt M.gives M.refuses }
{}
