//! Numbers in ranges, and counted bytes.
ghost use Rattle.std.specs.Prelude.{◌≡◌};
ghost use Rattle.coda_values.specs.Parts.{u8, u32, u64, between, counted};
ghost use Rattle.coda_values.specs.Table.{name as a_name};
ghost use Rattle.coda_values.specs.Reading.{read};
ghost use Rattle.coda_values.specs.Outcome.{Gives};

use crate::cursor::Cursor;
use crate::fault::Fault;
use coda_fid::{Bytes, Name, NameFault};
use std::alloc::Global;

/// A number of one byte, from one to another.
pub fn u8_between(cursor: &mut Cursor, low: u8, high: u8) -> Result<u8, Fault>
    ensures { Gives (λ n. (n, cursor.new)) result (read (between low high u8).form cursor.old) }
{
    let left = cursor.left();
    let number = cursor.u8()?;
    if number < low || high < number {
        return Err(Fault::Broken { left });
    }
    Ok(number)
}

/// A number of four bytes, from one to another.
pub fn u32_between(cursor: &mut Cursor, low: u32, high: u32) -> Result<u32, Fault>
    ensures { Gives (λ n. (n, cursor.new)) result (read (between low high u32).form cursor.old) }
{
    let left = cursor.left();
    let number = cursor.u32()?;
    if number < low || high < number {
        return Err(Fault::Broken { left });
    }
    Ok(number)
}

/// A number of eight bytes, from one to another.
pub fn u64_between(cursor: &mut Cursor, low: u64, high: u64) -> Result<u64, Fault>
    ensures { Gives (λ n. (n, cursor.new)) result (read (between low high u64).form cursor.old) }
{
    let left = cursor.left();
    let number = cursor.u64()?;
    if number < low || high < number {
        return Err(Fault::Broken { left });
    }
    Ok(number)
}

/// Bytes behind a length of four bytes, from one to another.
pub fn bytes_between(
    alloc: Global,
    cursor: &mut Cursor,
    low: u32,
    high: u32,
) -> Result<Bytes, Fault>
    ensures { Gives (λ b. (b, cursor.new)) result (read (counted (between low high u32)).form cursor.old) }
{
    let length = u32_between(cursor, low, high)?;
    let bytes = cursor.take(length as usize)?;
    Ok(Bytes::of(alloc, bytes)?)
}

/// A name behind a length of one byte.
pub fn name(alloc: Global, cursor: &mut Cursor) -> Result<Name, Fault>
    ensures { Gives (λ n. (n, cursor.new)) result (read a_name.form cursor.old) }
{
    let left = cursor.left();
    let length = cursor.u8()?;
    let bytes = cursor.take(length as usize)?;
    match Name::read(alloc, bytes) {
        Ok(name) => Ok(name),
        Err(NameFault::BadName) => Err(Fault::Broken { left }),
        Err(NameFault::Memory) => Err(Fault::Memory),
    }
}
