// The texts of paths.
ghost use Rattle.std.specs.Prelude.{◌≡◌, ◌++◌, ◌∷◌, IfOk, OnOk, string_bytes};
ghost use Rattle.coda_fid.specs.Path.{behind_slashes, path_text};
ghost use Rattle.coda_text.specs.Texts.{printed};
ghost use Rattle.coda_report.specs.Walking.{shown_path};

use coda_fid::{Name, Path};
use coda_text::put_printed;
use std::alloc::{AllocError, Global};

/// Puts a name behind the path of its directory.
pub fn push_name(path: &mut Vec<u8>, name: &Name) -> Result<(), AllocError>
    ensures { OnOk result (path.new.items ≡ path.old.items ++ 47 ∷ name.now) }
{
    path.push(b'/')?;
    path.extend_from_slice(name.bytes())
}

/// The text of a path whose names stand behind slashes; the root's is `/`.
pub fn shown_path(path: &[u8]) -> &[u8]
    ensures { result.now ≡ shown_path path.now }
{
    if path.is_empty() { b"/" } else { path }
}

// The names, each behind a slash.
fn slashed(alloc: Global, names: &[Name]) -> Result<Vec<u8>, AllocError>
    ensures { IfOk result (λ path. path.items ≡ behind_slashes names.now) }
{
    let mut path = Vec::new(alloc);
    for name in names {
        push_name(&mut path, name)?;
    }
    Ok(path)
}

/// Prints a path as one name.
pub fn put_path(out: &mut String, alloc: Global, path: &Path) -> Result<(), AllocError>
    ensures { OnOk result (string_bytes out.new ≡ string_bytes out.old ++ printed (path_text path.now)) }
{
    let path = slashed(alloc, path.names())?;
    put_printed(out, shown_path(&path))
}
