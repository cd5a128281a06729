//! What operations leave of what bytes can spell: laws of the table of formats, of certification and of replay.
#![tactic(auto)]

ghost use Rattle.coda_spelling.specs.Laws.{OperationsKeepSpellings, ReplaysKeepSpellings, ListsAreOfRecords};

/// A law of spellings: records that can be spelled as a list can be spelled each.
pub fn lists_are_of_records()
    ensures { ListsAreOfRecords }
{}

/// A law of spellings: what nodes have can be spelled in a fresh volume, and after each operation and each fetch that can be.
pub fn operations_keep_spellings()
    ensures { OperationsKeepSpellings }
{}

/// A law of spellings: a replay of records that can be spelled leaves what can be spelled, and so does its verdict.
pub fn replays_keep_spellings()
    ensures { ReplaysKeepSpellings }
{}
