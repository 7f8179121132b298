// The program for circuits: a circuit's text from standard input, the laid circuit's to standard output, stretch by stretch, last its common phase. Its argument names the
// couplers' file. It knows `qasm_console`, and alone with the other programs the operating system.
#![tactic(auto)]

ghost use Rattle.std.specs.Prelude.{OnOk, take};
ghost use Rattle.std.specs.Io.{ReadsAtMost};
ghost use Rattle.streams.specs.Printing.{PrintsFor};
ghost use Rattle.qasm_console.specs.Printed.{laid_texts};

use console::INPUT;
use qasm_console::programs;
use std::alloc::Global;
use std::env::{Env, FillError};
use std::fs::{File, Files};
use std::io::{Read, Write};
use std::{io, str};

// Room for a name: no path has as many bytes.
const NAME: usize = 4096;

fn usage<W: Write>(errors: &mut W) -> io::Result<()> {
    errors.write_all(b"usage: qasm COUPLERS < CIRCUIT\n")
}

// One line that names the file, and says what is wrong with it.
fn fail<W: Write>(errors: &mut W, name: &[u8], reason: &[u8]) -> io::Result<()> {
    errors.write_all(b"qasm: ")?;
    errors.write_all(name)?;
    errors.write_all(b": ")?;
    errors.write_all(reason)?;
    errors.write_all(b"\n")
}

// The same in the system's words. Behind them an error has its number, which is left out.
fn fail_as<W: Write>(
    errors: &mut W,
    alloc: Global,
    name: &[u8],
    error: io::Error,
) -> io::Result<()> {
    let text = format!(in alloc; "{error}")?;
    match text.as_str().split_once(" (os error ") {
        Some((reason, _)) => fail(errors, name, reason.as_bytes()),
        None => fail(errors, name, text.as_str().as_bytes()),
    }
}

// The file is read to its end, or as far as `listing` goes: how many bytes were read. A folder can be opened, but no byte of it can be read.
fn read_listing<R: Files>(files: &R, name: &str, listing: &mut [u8]) -> io::Result<usize>
    ensures { ReadsAtMost result listing.new }
{
    let mut file = File::open(files, name)?;
    streams::read_full(&mut file, listing)
}

// The couplers are read to their end before the circuit: `listed` bytes of `listing`.
fn lay<R: Read, W: Write>(
    listing: &[u8; INPUT],
    listed: usize,
    reader: &mut R,
    writer: &mut W,
) -> io::Result<()>
    ensures { OnOk result (PrintsFor (laid_texts (take listed listing.now)) (R.remaining reader.old) (W.contents writer.old) (W.contents writer.new)) }
{
    let mut input = [0u8; INPUT];
    let n = streams::read_full(reader, &mut input)?;
    programs::write_laid_input(writer, listing, listed, &input, n)
}

// The file that the only argument names is read, and then the circuit. What is wrong with the file is told in one line on standard error, and so is how to call the
// program; then nothing is done, and the exit status is 0. Any other read or write that fails ends it, with the reason on standard error and exit status 1.
fn main(rt: HostRuntime) -> io::Result<()> {
    let mut errors = rt.stderr();
    let mut name = [0u8; NAME];
    if !matches!(rt.arg(2, &mut name), Err(FillError::NotPresent)) {
        return usage(&mut errors);
    }
    let n = match rt.arg(1, &mut name) {
        Ok(n) => n,
        Err(FillError::NotPresent) => return usage(&mut errors),
        // Its first bytes are told.
        Err(FillError::TooLong) => return fail(&mut errors, &name, b"File name too long"),
    };
    let Ok(path) = str::from_utf8(&name[..n]) else {
        return fail(&mut errors, &name[..n], b"The name is not UTF-8");
    };
    let mut listing = [0u8; INPUT];
    match read_listing(&rt, path, &mut listing) {
        Ok(listed) => lay(&listing, listed, &mut rt.reader(), &mut io::writer(&rt)),
        Err(error) => fail_as(&mut errors, rt.alloc(), &name[..n], error),
    }
}
