ghost use Rattle.std.specs.Prelude.{◌≡◌};
ghost use Rattle.coda_state.specs.States.{next_state};

/// The state of a client on a volume (Kistler and Satyanarayanan 1992; Mummert, Ebling and
/// Satyanarayanan 1995, whose write-disconnected state has the place of reintegration).
#[derive(Clone, Copy, Debug, PartialEq, Eq)]
pub enum State {
    /// A server is reached well and nothing waits to be sent: the client fetches what it may need.
    Hoarding,
    /// No server is reached: the cache stands in for it, and the log keeps what the user does.
    Emulating,
    /// A server is reached, by a weak link or with a log that is still to be sent.
    WriteDisconnected,
}

/// How well a client reaches a server.
#[derive(Clone, Copy, Debug, PartialEq, Eq)]
pub enum Link {
    /// As well as it needs.
    Strong,
    /// With little bandwidth or often interrupted.
    Weak,
    /// Not at all.
    Down,
}

/// The state after a look at the link and at the log.
///
/// `log_empty` says that the client's log on the volume has no record. Two looks are enough to settle a state: see
/// [`states_settle`](crate::states_settle).
pub fn next(state: State, link: Link, log_empty: bool) -> State
    ensures { result ≡ next_state state link log_empty }
{
    match (state, link) {
        (_, Link::Down) => State::Emulating,
        (State::Emulating, _) => State::WriteDisconnected,
        (State::WriteDisconnected, Link::Strong) if log_empty => State::Hoarding,
        (State::Hoarding, Link::Weak) => State::WriteDisconnected,
        (State::Hoarding, Link::Strong) if !log_empty => State::WriteDisconnected,
        (state, _) => state,
    }
}

#[cfg(test)]
mod tests {
    use super::*;
    use std::test::Fail;

    // A strong link leads by way of the write-disconnected state to hoarding, and a weak one no further than that.
    #[test]
    fn states_are_those_of_the_table(rt: HostRuntime) -> Result<(), Fail> {
        let rows = [
            (
                State::Emulating,
                Link::Strong,
                true,
                State::WriteDisconnected,
            ),
            (State::Emulating, Link::Down, true, State::Emulating),
            (
                State::WriteDisconnected,
                Link::Strong,
                true,
                State::Hoarding,
            ),
            (
                State::WriteDisconnected,
                Link::Weak,
                true,
                State::WriteDisconnected,
            ),
            (
                State::WriteDisconnected,
                Link::Strong,
                false,
                State::WriteDisconnected,
            ),
            (State::Hoarding, Link::Strong, true, State::Hoarding),
            (
                State::Hoarding,
                Link::Strong,
                false,
                State::WriteDisconnected,
            ),
            (State::Hoarding, Link::Weak, true, State::WriteDisconnected),
            (State::Hoarding, Link::Down, false, State::Emulating),
        ];
        for (state, link, log_empty, after) in rows {
            assert_eq!(rt; next(state, link, log_empty), after);
        }
        Ok(())
    }
}
