//! Coherence of client caches by callbacks: a valid copy is as its server has the object, or word that it changed is on
//! its way.
#![tactic(auto)]

ghost use Rattle.coda_coherence.specs.Changes.{ChangesTell};
ghost use Rattle.coda_coherence.specs.Fact.{CallbackFactHolds, NoCopyOutlivesItsBreak};
ghost use Rattle.coda_coherence.specs.Shortcuts.{ShortcutsFail};

/// The callback fact (Satyanarayanan and others 1990): whatever happened in a cell, of each valid copy that its
/// client's log doesn't mention, the link to its server is up, the client has what the server gave, and where the
/// object changed at that server since, the server has it waiting to tell the client, or a Break that names it is
/// under way.
pub fn callback_fact_holds()
    ensures { CallbackFactHolds }
{}

/// A law of Breaks: once one that names an object was delivered, its client has no valid copy of the object until it
/// fetches it again, whatever else happens.
pub fn no_copy_outlives_its_break()
    ensures { NoCopyOutlivesItsBreak }
{}

/// Which objects an entry of a replica's history changes is told exactly: those whose node differs behind the entry,
/// and no others.
pub fn changes_tell()
    ensures { ChangesTell }
{}

/// Two shortcuts break the callback fact, each in a cell that is reached: losing a Break while its link stays up, and
/// keeping the promise of the client whose chunk changed the object.
pub fn shortcuts_fail()
    ensures { ShortcutsFail }
{}
