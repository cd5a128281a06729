// The header of a disk.
use std::alloc::{AllocError, Global};

/// Whose disk it is.
#[derive(Clone, Copy, Debug, PartialEq, Eq)]
pub enum Kind {
    /// That of a client.
    Client,
    /// That of a replica of a volume.
    Replica,
}

/// What a disk is made for.
#[derive(Clone, Copy, Debug, PartialEq, Eq)]
pub struct Header {
    /// Whose disk it is.
    pub kind: Kind,
    /// The client, or the volume of the replica.
    pub number: u32,
    /// The server of the replica, and 0 for a client.
    pub server: u8,
    /// The servers that have the volume: bit s - 1 for server s. 0 for a client.
    pub group: u8,
    /// How many MiB an area has.
    pub area: u32,
    /// How many blocks the client's cache has, and 0 for a replica.
    pub cache: u32,
}

const OPENING: [u8; 8] = *b"CODAJRNL";

impl Header {
    ghost use Rattle.std.specs.Prelude.{◌≡◌, ◌≤◌, IfOk, length};
    ghost use Rattle.coda_journal.specs.Header.{marks, area_bytes};

    /// Bytes 2 to 63 of its disk, behind the gate and the selector.
    ///
    /// # Errors
    ///
    /// `AllocError` where there was no memory for them.
    pub fn marks(&self, alloc: Global) -> Result<Vec<u8>, AllocError>
        ensures bytes { IfOk result (λ v. v.items ≡ marks self.now) }
        ensures size { IfOk result (λ v. length v.items ≡ 62) }
    {
        let mut bytes = Vec::new(alloc);
        bytes.extend_from_slice(&OPENING)?;
        bytes.push(1)?;
        bytes.push(self.kind.code())?;
        bytes.extend_from_slice(&self.number.to_be_bytes())?;
        bytes.push(self.server)?;
        bytes.push(self.group)?;
        bytes.push(0)?;
        bytes.push(0)?;
        bytes.extend_from_slice(&self.area.to_be_bytes())?;
        bytes.extend_from_slice(&self.cache.to_be_bytes())?;
        bytes.extend_from_slice(&[0; 36])?;
        Ok(bytes)
    }

    /// How many bytes an area has.
    pub fn area_bytes(&self) -> u64
        requires { self.now.area ≤ 64 }
        ensures { result ≡ area_bytes self.now }
    {
        self.area as u64 * 0x10_0000
    }
}

impl Kind {
    ghost use Rattle.std.specs.Prelude.{◌≡◌};
    ghost use Rattle.coda_journal.specs.Header.{kind_code};

    fn code(self) -> u8
        ensures { result ≡ kind_code self }
    {
        match self {
            Kind::Client => 1,
            Kind::Replica => 2,
        }
    }
}
