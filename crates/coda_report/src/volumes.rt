// The text of a volume.
ghost use Rattle.std.specs.Prelude.{◌≡◌, ◌++◌, List, IfOk, OnOk, string_bytes};
ghost use Rattle.std.specs.List.{flat_map};
ghost use Rattle.coda_fid.specs.Fid.{root_of};
ghost use Rattle.coda_report.specs.Volumes.{object_line, path_order, volume_line, volume_text, Shown};
ghost use Rattle.coda_report.specs.PathOrder.{IsInPathOrder};

use crate::walk::put_objects;
use coda_fid::{Bytes, Fid};
use coda_tree::Volume;
use std::alloc::{AllocError, Global};
use std::fmt::Write;

// Puts the first line of a volume.
fn put_volume_line(out: &mut String, server: u8, volume: &Volume) -> Result<(), AllocError>
    ensures { OnOk result (string_bytes out.new ≡ string_bytes out.old ++ volume_line server volume.now) }
{
    let (number, objects) = (volume.number(), volume.len());
    writeln!(out, "volume {number} at {server} objects {objects}")
}

/// The text of a volume at a server: its first line, and then each object on a line, in path order.
///
/// Fails for want of memory alone. The directories under way stand in a vector, and not on the machine's stack.
pub fn volume_text(alloc: Global, volume: &Volume, server: u8) -> Result<Bytes, AllocError>
    ensures text { IfOk result (λ text. text ≡ volume_text server volume.now) }

    // The lines behind the first are those of the objects in path order.
    ensures order { IfOk result (λ text. (shown : List Shown) × IsInPathOrder (root_of volume.now.number) volume.now.nodes shown × (text ≡ volume_line server volume.now ++ flat_map object_line shown)) }
{
    let mut text = String::new(alloc);
    put_volume_line(&mut text, server, volume)?;
    put_objects(&mut text, alloc, volume, Fid::root(volume.number()))?;
    Ok(Bytes::from_vec(text.into_bytes()))
}
