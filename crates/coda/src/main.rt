//! The program: `coda run` runs the script on standard input in a cell and writes its report to standard output.
#![tactic(auto)]

ghost use Rattle.std.specs.Prelude.{◌≡◌, ◌⊎◌, IfOk, IfErr, IsOk, drop};
ghost use Rattle.std.specs.Vec.Iter.{into_iter_items};
ghost use Rattle.std.specs.Process.{exit_status};
ghost use Rattle.coda_engine.specs.Status.{code_of};

use coda_disk::FileBay;
use coda_io::{StdSink, StdSource};
use coda_main::{Status, coda};
use std::alloc::{AllocError, Global};
use std::process::ExitCode;
use std::{env, io};

// The words behind the first, which is the program's name.
fn words_behind_name(alloc: Global, args: env::Args) -> Result<Vec<String>, AllocError>
    ensures { IfOk result (λ words. words.items ≡ drop 1 (into_iter_items args)) }
{
    let mut rest = args;
    let _name = rest.next();
    let mut words = Vec::new(alloc);
    for word in rest {
        words.push(word)?;
    }
    Ok(words)
}

// The words behind the program's name. Words that can't be had are wrong usage.
fn words_of(alloc: Global, args: io::Result<env::Args>) -> Result<Vec<String>, Status>
    ensures words { IfOk result (λ words. IfOk args (λ all. words.items ≡ drop 1 (into_iter_items all))) }
    ensures had { IfOk result (λ words. IsOk args) }
    ensures why { IfErr result (λ status. (status ≡ Status.Usage) ⊎ (status ≡ Status.Memory)) }
{
    match args {
        Ok(all) => words_behind_name(alloc, all).map_err(|_| Status::Memory),
        Err(error) if error.kind() == io::ErrorKind::OutOfMemory => Err(Status::Memory),
        Err(_) => Err(Status::Usage),
    }
}

// How the process ends at a status.
fn exit_code(status: Status) -> ExitCode
    ensures { exit_status result ≡ code_of status }
{
    ExitCode::from(status.code())
}

fn main(rt: HostRuntime) -> ExitCode {
    let alloc = rt.alloc();
    let status = match words_of(alloc, env::args(&rt)) {
        Ok(words) => {
            let mut source = StdSource::new(rt.reader());
            let mut sink = StdSink::new(io::writer(&rt));
            let mut bay = FileBay::new(alloc, &rt);
            coda(alloc, &words, &mut source, &mut sink, &mut bay)
        }
        Err(status) => status,
    };
    if status != Status::Done {
        let _ = eprintln!(rt; "{status}");
    }
    exit_code(status)
}
