ghost use Rattle.coda_serving.specs.Laws.{FetchesBringWhatIsOffered};

/// A law of fetches: what is fetched for a call wasn't cached, and is then cached as the server has it; all that was cached before, and
/// each log, is as it was, so no operation that is yet to be sent is lost to a fetch (Kistler and Satyanarayanan 1992).
pub fn fetches_bring_what_is_offered()
    ensures { FetchesBringWhatIsOffered }
{}
