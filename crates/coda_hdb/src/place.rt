ghost use Rattle.std.specs.Prelude.{◌≡◌, IfOk};
ghost use Rattle.coda_fid.specs.Path.{behind_slashes, path_text};
ghost use Rattle.coda_hdb.specs.Kept.{IsPlaceOf};

use coda_fid::{Name, Path};
use std::alloc::{AllocError, Global};

// Each name behind a `/`.
fn with_slashes(alloc: Global, names: &[Name]) -> Result<Vec<u8>, AllocError>
    ensures { IfOk result (λ text. text.items ≡ behind_slashes names.now) }
{
    let mut text = Vec::new(alloc);
    for name in names {
        text.push(b'/')?;
        text.extend_from_slice(name.bytes())?;
    }
    Ok(text)
}

/// The text of a path that leads through these names: `/` alone for the root, and else each name behind a `/`.
///
/// Fails for want of memory alone.
pub fn text_of(alloc: Global, names: &[Name]) -> Result<Vec<u8>, AllocError>
    ensures { IfOk result (λ text. text.items ≡ path_text names.now) }
{
    match names {
        [] => Vec::from_slice(alloc, b"/"),
        [_, ..] => with_slashes(alloc, names),
    }
}

// The place of a path in a volume: the volume, and the path's text.
pub(crate) fn place_of(
    alloc: Global,
    volume: u32,
    path: &Path,
) -> Result<(u32, Vec<u8>), AllocError>
    ensures { IfOk result (λ place. IsPlaceOf place volume path.now) }
{
    let text = text_of(alloc, path.names())?;
    Ok((volume, text))
}
