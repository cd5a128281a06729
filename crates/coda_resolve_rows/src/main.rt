//! Worked rows of resolution: the input has what replicas of a volume hold, row by row. For each row the program prints
//! how many objects a resolution touches and which it marks why, and then the same of a second one right behind it.
#![tactic(auto)]

mod after;
mod reading;
mod telling;
mod words;

use crate::after::all_changed;
use crate::reading::views;
use crate::telling::put_outcome;
use crate::words::lines;
use coda_record::View;
use coda_resolve::{Outcome, are_in_order, merge};
use std::alloc::Global;
use std::io::{self, Read};

// The resolution of replicas, if it can be asked.
fn resolved(alloc: Global, views: &[View]) -> Option<Outcome> {
    if !are_in_order(views) {
        return None;
    }
    merge(alloc, views).ok()
}

// Puts what two resolutions make of replicas, the second right behind the first.
fn put_twice(alloc: Global, views: &[View], told: &mut String) -> Option<()> {
    let first = resolved(alloc, views)?;
    put_outcome(&first, told);
    let after = all_changed(alloc, views, first.changes.changes())?;
    let second = resolved(alloc, &after)?;
    put_outcome(&second, told);
    Some(())
}

// Puts what becomes of the replicas that stand on these lines, up to an empty one.
fn put_row(alloc: Global, lines: &[&str], told: &mut String) -> Option<()> {
    let views = views(alloc, lines)?;
    put_twice(alloc, &views, told)
}

fn main(rt: HostRuntime) -> io::Result<()> {
    let alloc = rt.alloc();
    let mut input = Vec::new(alloc);
    rt.reader().read_to_end(&mut input)?;
    let lines = lines(alloc, std::str::from_utf8(&input).unwrap_or(""));
    for at in 0..lines.len() {
        let line = lines[at];
        if line.starts_with("# ") {
            let mut told = String::new(alloc);
            let row = put_row(alloc, lines.get(at..).unwrap_or(&[]), &mut told);
            let end = if row.is_some() { "" } else { "not read\n" };
            print!(rt; "{line}\n{told}{end}")?;
        }
    }
    Ok(())
}
