ghost use Rattle.coda_state.specs.Laws.{StatesFollowTheirLinks, StatesSettle};

/// A law of states: after two looks the state is settled, and depends on the link and the log alone.
pub fn states_settle()
    ensures { StatesSettle }
{}

/// A law of states: a client emulates as soon as its link is down, and from no other cause; it hoards again only from
/// the write-disconnected state (Mummert, Ebling and Satyanarayanan 1995).
pub fn states_follow_their_links()
    ensures { StatesFollowTheirLinks }
{}
