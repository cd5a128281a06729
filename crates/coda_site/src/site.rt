// The parts of a cell beside its bay.
use coda_actors::Slot;
use coda_net::Net;
use coda_replica::Replica;
use coda_venus::Venus;
use std::alloc::Global;
use std::collections::BTreeMap;

/// Where a volume was made: its server, and the number of the disk of the server's replica.
#[derive(Clone, Copy, Debug, PartialEq, Eq)]
pub struct Place {
    /// The server.
    pub server: u8,
    /// The number of the disk.
    pub disk: u32,
}

/// A cell but for its bay: what was made so far, the actors in their slots, by the numbers of their disks, and the letters and links between
/// them. A client's disk has the client's number, and the disks of replicas have numbers from 256 on.
#[derive(Drop)]
pub struct Site<D> {
    /// Where its memory comes from.
    pub alloc: Global,
    /// The seconds that have passed.
    pub clock: u64,
    /// The server of each volume, in the order of making.
    pub servers: Vec<u8>,
    /// Where each volume was made.
    pub places: BTreeMap<u32, Place>,
    /// The MiB of the areas of all disks of actors that were made.
    pub areas: u32,
    /// The clients.
    pub clients: BTreeMap<u32, Slot<Venus<D>, D>>,
    /// The replicas.
    pub replicas: BTreeMap<u32, Slot<Replica<D>, D>>,
    /// The letters that wait, and the links.
    pub net: Net,
}
