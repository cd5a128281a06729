use coda_fid::Bytes;

/// A message on its way, as bytes between a client and a server.
#[derive(Debug, Drop)]
pub struct Letter {
    /// The client, 1 to 255.
    pub client: u8,
    /// The server, 1 to 8.
    pub server: u8,
    /// Whether it goes from the client to the server, and not the other way.
    pub to_server: bool,
    /// Whether it counts for the limits of the pool, and may be lost for them.
    pub lossy: bool,
    /// The bytes of the message.
    pub bytes: Bytes,
}
