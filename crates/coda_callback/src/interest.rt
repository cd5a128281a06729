ghost use Rattle.std.specs.Prelude.{◌≡◌};
ghost use Rattle.coda_callback.specs.Callbacks.{interest};
ghost use Rattle.coda_callback.specs.Kept.{least_of, greatest_of, watch_of, IsBounded};

use coda_fid::Fid;

/// A client's interest in an object: it has a copy, or had one that changed.
#[derive(Clone, Copy, Debug, PartialEq, Eq, PartialOrd, Ord)]
pub struct Interest {
    /// The client.
    pub client: u8,
    /// The object.
    pub fid: Fid,
}

// An interest as it is kept by object.
#[derive(Clone, Copy, Debug, PartialEq, Eq, PartialOrd, Ord)]
pub(crate) struct Watch {
    pub(crate) fid: Fid,
    pub(crate) client: u8,
}

impl Interest {
    // The interest of the client in the object.
    pub(crate) fn of(client: u8, fid: Fid) -> Interest
        ensures is { result ≡ interest client fid }
        ensures bounded { IsBounded result }
    {
        let (volume, vnode, uniq) = (fid.volume, fid.vnode, fid.uniq);
        let fid = Fid {
            volume,
            vnode,
            uniq,
        };
        Interest { client, fid }
    }

    // What comes before every other interest of the client.
    pub(crate) fn least(client: u8) -> Interest
        ensures { result ≡ least_of client }
    {
        let fid = Fid {
            volume: 0,
            vnode: 0,
            uniq: 0,
        };
        Interest { client, fid }
    }

    // What comes behind every other interest of the client.
    pub(crate) fn greatest(client: u8) -> Interest
        ensures { result ≡ greatest_of client }
    {
        let fid = Fid {
            volume: u32::MAX,
            vnode: u32::MAX,
            uniq: u32::MAX,
        };
        Interest { client, fid }
    }

    pub(crate) fn watch(self) -> Watch
        ensures { result ≡ watch_of self }
    {
        Watch {
            fid: self.fid,
            client: self.client,
        }
    }
}
