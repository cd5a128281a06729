// Which actors are there, and which are up.
ghost use Rattle.std.specs.Prelude.{◌≡◌, ◌∷◌, [], true};
ghost use Rattle.std.specs.Option.{option_map};
ghost use Rattle.coda_actors.specs.Slots.{is_made};
ghost use Rattle.coda_crew.specs.Crews.{slot_at};
ghost use Rattle.coda_cell.specs.Steps.{first_missing};
ghost use Rattle.coda_cell.specs.Refused as refused;
ghost use Rattle.coda_site.specs.Sites.{is_client_disk, place_in, client_at, volume_at, server_at, holder_at};

use crate::site::{Place, Site};
use coda_crew::is_made;

impl<D> Site<D> {
    /// Whether a client was made.
    pub fn has_client(&self, client: u8) -> bool
        ensures there { result ≡ (client_at self.now client).there }
        ensures disk { is_client_disk client ≡ true }
    {
        is_made(&self.clients, u32::from(client))
    }

    /// Where a volume was made.
    pub fn place(&self, volume: u32) -> Option<Place>
        ensures { result ≡ place_in self.now volume }
    {
        self.places.get(&volume).copied()
    }

    /// Whether a server has a volume.
    pub fn has_server(&self, server: u8) -> bool
        ensures { result ≡ (server_at self.now server).there }
    {
        self.servers.iter().any(|other| *other == server)
    }

    /// Whether a server holds this volume.
    pub fn holds(&self, server: u8, volume: u32) -> bool
        ensures { result ≡ (holder_at self.now server volume).there }
    {
        match self.places.get(&volume) {
            Some(place) => place.server == server,
            None => false,
        }
    }

    /// The number of the first of a client and a volume that isn't there.
    pub fn missing(&self, client: u8, volume: u32) -> Option<u32>
        ensures missing { option_map refused.NoSuchActor result
            ≡ first_missing (client_at self.now client ∷ volume_at self.now volume ∷ []) }
        ensures disk { is_client_disk client ≡ true }
    {
        if !self.has_client(client) {
            return Some(u32::from(client));
        }
        if !self.places.contains_key(&volume) {
            return Some(volume);
        }
        None
    }

    /// The number of the first of a client, a volume and its server that isn't there.
    pub fn missing_holder(&self, client: u8, volume: u32, server: u8) -> Option<u32>
        ensures missing { option_map refused.NoSuchActor result
            ≡ first_missing (client_at self.now client ∷ volume_at self.now volume
            ∷ holder_at self.now server volume ∷ []) }
        ensures disk { is_client_disk client ≡ true }
    {
        if !self.has_client(client) {
            return Some(u32::from(client));
        }
        if !self.places.contains_key(&volume) {
            return Some(volume);
        }
        if !self.holds(server, volume) {
            return Some(u32::from(server));
        }
        None
    }

    /// The number of the first of a client and a server that isn't there.
    pub fn missing_end(&self, client: u8, server: u8) -> Option<u32>
        ensures missing { option_map refused.NoSuchActor result
            ≡ first_missing (client_at self.now client ∷ server_at self.now server ∷ []) }
        ensures disk { is_client_disk client ≡ true }
    {
        if !self.has_client(client) {
            return Some(u32::from(client));
        }
        if !self.has_server(server) {
            return Some(u32::from(server));
        }
        None
    }
}
