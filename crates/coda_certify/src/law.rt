ghost use Rattle.coda_certify.specs.Laws.{AppliedRecordsAreCertified, ConflictsNameTheFirstRefused};

/// A law of replay: a conflict names the first record that certification refuses after those
/// before it were applied, with the reason (Kistler and Satyanarayanan 1992).
pub fn conflicts_name_the_first_refused()
    ensures { ConflictsNameTheFirstRefused }
{}

/// A law of replay: where all records are applied, each was certified after those before it.
pub fn applied_records_are_certified()
    ensures { AppliedRecordsAreCertified }
{}
