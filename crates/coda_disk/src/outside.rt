// The trait of a disk.
ghost use Rattle.std.specs.Prelude.{◌≡◌, ℕ, ◌≤◌, Option, Some, List, length, IfOk, OnOk, IsErr};
ghost use Rattle.coda_io.specs.Faults.{counted, HasCause};
ghost use Rattle.coda_disk.specs.Told.{Told, Gives, Kept, Written, WasCut, Only};
ghost use Rattle.coda_disk.specs.Passing.{Passes};

use thiserror::Error;

/// A call of a disk was refused.
#[derive(Clone, Copy, Debug, PartialEq, Eq, Error)]
#[error("disk fault")]
pub struct DiskFault;

/// Bytes that outlive a crash, with a count of the faults and one of the calls of `arm`.
///
/// What an honest disk tells: between two syncs a crash may leave any bytes in a range that was written and past the
/// old end, and the bytes outside stay; after a sync that succeeded it leaves what a read gives.
pub trait Disk {
    // What it tells.
    ghost told: { Self → Told };

    // How many calls were refused, up to the end of the count's type.
    ghost faults: { Self → ℕ };

    // How many calls of `arm` there were, up to the end of the count's type.
    ghost arms: { Self → ℕ };

    // How many further calls pass; nothing where all do.
    ghost passes: { Self → Option ℕ };

    // That the next call fails, as far as the disk tells that beforehand.
    ghost fails: { Self → Type 0 };

    /// How many bytes there are.
    ///
    /// # Errors
    ///
    /// `DiskFault` where the call was refused, and the count of faults rose.
    fn size(&mut self) -> Result<u64, DiskFault>
        ensures kept { (told self.old).honest → Kept (told self.old) (told self.new) }
        ensures size { (told self.old).honest → IfOk result (λ n. n ≡ length (told self.old).seen) }
        ensures cause { HasCause (faults self.old) (faults self.new) result }
        ensures arms { arms self.new ≡ arms self.old }
        ensures passes { Passes (passes self.old) (passes self.new) result }
        ensures foretold { fails self.old → IsErr result };

    /// Reads the bytes that stand at an offset to the front of `buf`, and answers how many: as many as there are and
    /// `buf` takes.
    ///
    /// # Errors
    ///
    /// `DiskFault` where the call was refused, and the count of faults rose.
    fn read(&mut self, at: u64, buf: &mut [u8]) -> Result<usize, DiskFault>
        ensures bound { IfOk result (λ n. n ≤ length buf.new) }
        ensures kept { (told self.old).honest → Kept (told self.old) (told self.new) }
        ensures bytes { (told self.old).honest → IfOk result (Gives (told self.old).seen at buf.new) }
        ensures cause { HasCause (faults self.old) (faults self.new) result }
        ensures arms { arms self.new ≡ arms self.old }
        ensures passes { Passes (passes self.old) (passes self.new) result }
        ensures foretold { fails self.old → IsErr result };

    /// Writes bytes at an offset, over what is there and past the end; a gap before them holds some bytes. Until a sync
    /// succeeds a crash may leave any bytes in that range and past the old end.
    ///
    /// # Errors
    ///
    /// `DiskFault` where the call was refused, and the count of faults rose. A crash may still leave any bytes there.
    fn write_at(&mut self, at: u64, bytes: &[u8]) -> Result<(), DiskFault>
        ensures written { (told self.old).honest → Written at bytes.now (told self.old) (told self.new) result }
        ensures cause { HasCause (faults self.old) (faults self.new) result }
        ensures arms { arms self.new ≡ arms self.old }
        ensures passes { Passes (passes self.old) (passes self.new) result }
        ensures foretold { fails self.old → IsErr result };

    /// Cuts the disk to so many bytes. Until a sync succeeds a crash may leave any length between.
    ///
    /// # Errors
    ///
    /// `DiskFault` where the call was refused, and the count of faults rose. A crash may still cut the disk.
    fn cut(&mut self, size: u64) -> Result<(), DiskFault>
        ensures was_cut { (told self.old).honest → WasCut size (told self.old) (told self.new) result }
        ensures cause { HasCause (faults self.old) (faults self.new) result }
        ensures arms { arms self.new ≡ arms self.old }
        ensures passes { Passes (passes self.old) (passes self.new) result }
        ensures foretold { fails self.old → IsErr result };

    /// From its success on a crash leaves what a read gives.
    ///
    /// # Errors
    ///
    /// `DiskFault` where the call was refused, and the count of faults rose.
    fn sync(&mut self) -> Result<(), DiskFault>
        ensures kept { (told self.old).honest → Kept (told self.old) (told self.new) }
        ensures durable { (told self.old).honest → OnOk result (Only (told self.old).seen (told self.new).may_leave) }
        ensures cause { HasCause (faults self.old) (faults self.new) result }
        ensures arms { arms self.new ≡ arms self.old }
        ensures passes { Passes (passes self.old) (passes self.new) result }
        ensures foretold { fails self.old → IsErr result };

    /// Lets so many further calls through; the next one and all after it fail until a crash. It takes the place of
    /// an earlier `arm`.
    fn arm(&mut self, count: u64)
        ensures kept { (told self.old).honest → Kept (told self.old) (told self.new) }
        ensures faults { faults self.new ≡ faults self.old }
        ensures arms { arms self.new ≡ counted (arms self.old) }
        ensures passes { passes self.new ≡ Some count };

    // What a read gives is one of the images that a crash now may leave.
    ghost seen_now: { (d : Self) → (told d).honest → (told d).may_leave (told d).seen };

    // This moment is one of those since an earlier one.
    ghost counts_now: { (d : Self) (t : ℕ) (c : List ℕ) → (told d).honest → t ≤ (told d).moment → (told d).may_leave c → (told d).left_since t c };

    // Since this moment there is no other.
    ghost only_now: { (d : Self) (c : List ℕ) → (told d).honest → (told d).left_since (told d).moment c → (told d).may_leave c };
}
