// The two areas of a disk.
ghost use Rattle.std.specs.Prelude.{◌≡◌, ◌≢◌, ◌+◌, ◌^◌, ◌≤◌};

// An area, and the selector that names it.
#[derive(Clone, Copy)]
pub(crate) struct Area {
    pub start: u64,
    pub selector: u8,
}

// The area beside the one that begins there. The first one begins at 64, and the second one behind it.
pub(crate) fn other_area(start: u64, size: u64) -> Area
    requires { size ≤ 2 ^ 26 }
    ensures second { (start ≡ 64) → (result.start ≡ 64 + size) × (result.selector ≡ 1) }
    ensures first { (start ≢ 64) → (result.start ≡ 64) × (result.selector ≡ 0) }
{
    if start == 64 {
        return Area {
            start: 64 + size,
            selector: 1,
        };
    }
    Area {
        start: 64,
        selector: 0,
    }
}
