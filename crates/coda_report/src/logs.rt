// The text of a log.
ghost use Rattle.std.specs.Prelude.{◌≡◌, ◌+◌, ◌++◌, length, List, IfOk, OnOk, string_bytes, codes};
ghost use Rattle.coda_fid.specs.declared.op.Record.{Record};
ghost use Rattle.coda_cml.specs.Partition.{ArePartedBy};
ghost use Rattle.coda_cml.specs.State.{IsLogOf};
ghost use Rattle.coda_report.specs.LogTexts.{chunk_number_text, count_text, counts_text, log_line, log_of_runs, log_text, segment_line, segments_text, ShowsLog};

use crate::records::put_next_records;
use coda_cancel::LentRecords;
use coda_cml::{Frozen, Log, Segment};
use coda_fid::Bytes;
use coda_text::put_byte;
use std::alloc::{AllocError, Global};
use std::fmt::Write;

// Puts the number of the chunk that is on its way, or a dash.
fn put_chunk_number(out: &mut String, frozen: Option<Frozen>) -> Result<(), AllocError>
    ensures { OnOk result (string_bytes out.new ≡ string_bytes out.old ++ chunk_number_text frozen) }
{
    match frozen {
        Some(chunk) => {
            let number = chunk.number;
            write!(out, "{number}")
        }
        None => out.push_str("-"),
    }
}

// How many records a log has.
fn count_of(log: &Log) -> usize
    ensures { result ≡ length log.now.chunk + length log.now.records }
{
    let (chunk, tail) = log.records();
    chunk.len() + tail.len()
}

fn put_count(out: &mut String, count: usize) -> Result<(), AllocError>
    ensures { OnOk result (string_bytes out.new ≡ string_bytes out.old ++ count_text count) }
{
    write!(out, "log records {count} chunk ")
}

// Puts how many records a log has, and the chunk that is on its way.
fn put_counts(out: &mut String, log: &Log) -> Result<(), AllocError>
    ensures { OnOk result (string_bytes out.new ≡ string_bytes out.old ++ counts_text log.now) }
{
    put_count(out, count_of(log))?;
    put_chunk_number(out, log.frozen())
}

// Puts the first line of a log.
fn put_log_line(out: &mut String, log: &Log) -> Result<(), AllocError>
    ensures { OnOk result (string_bytes out.new ≡ string_bytes out.old ++ log_line log.now) }
{
    put_counts(out, log)?;
    put_byte(out, b'\n')
}

// Puts the line of a segment.
fn put_segment_line(out: &mut String, word: &str, segment: &Segment) -> Result<(), AllocError>
    ensures { OnOk result (string_bytes out.new ≡ string_bytes out.old ++ segment_line word.now segment.now) }
{
    let (first, last) = (segment.first, segment.last);
    writeln!(out, "segment {first} {last} {word}")
}

// Puts segments, and below each the next of the records, as many as it counts.
fn put_segments(
    out: &mut String,
    word: &str,
    segments: &[Segment],
    mut records: LentRecords<'_>,
) -> Result<(), AllocError>
    requires { ArePartedBy segments.now records }
    ensures { OnOk result (string_bytes out.new ≡ string_bytes out.old ++ segments_text word.now segments.now records.entry) }
{
    for segment in segments {
        put_segment_line(out, word, segment)?;
        put_next_records(out, &mut records, segment.count)?;
    }
    Ok(())
}

/// The text of a log: how many records it has and which chunk is on its way, and then segment by segment the records that are
/// left of it, those of the chunk first.
///
/// Fails for want of memory alone. Costs what is printed.
pub fn log_text(alloc: Global, log: &Log) -> Result<Bytes, AllocError>
    ensures text { IfOk result (λ text. text ≡ log_text log.now) }

    // Each record of the log is shown once, in order, below the segment that its number lies in.
    ensures shown { IfOk result (λ text. ShowsLog log.now text) }

    // What is shown is what cancellation leaves of the operations that the log stands for.
    ensures run { IfOk result (λ text. (front back : List Record) → IsLogOf log.now front back → text ≡ log_text (log_of_runs log.now.frozen front back)) }
{
    let mut text = String::new(alloc);
    let (frozen, open) = log.segments();
    let (chunk, tail) = log.records();
    put_log_line(&mut text, log)?;
    put_segments(&mut text, "frozen", frozen, LentRecords::of(chunk))?;
    put_segments(&mut text, "open", open, tail)?;
    Ok(Bytes::from_vec(text.into_bytes()))
}
