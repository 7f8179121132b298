// Too little lent: for each text of the bundle on standard input, what reading, laying and writing answer, an `x` line each. An acceptance is number 0 at place 0.
// It calls the entry points themselves, for `console` lends enough.
#![tactic(auto)]

ghost use Rattle.std.specs.Prelude.{◌≤◌, length};

use console::{COUPLER_LINES, GATE_LINES, programs};
use reading::read;
use std::io;
use std::io::{Read, Write};
use stretches::job;
use text::write;

// Room for the stored bundle.
const BUNDLE: usize = 131072;

// Lent to reading for the couplers.
const COUPLERS: usize = 3;

// Lent to reading for the gates.
const GATES: usize = 4;

// Lent to laying: B for n = 4, t = 3. For n = 3, t = 7 it is one record too few.
const RECORDS: usize = 49;

// Lent to writing, in bytes.
const ROOM: usize = 29;

fn read_scant<W: Write>(writer: &mut W, text: &[u8]) -> io::Result<()> {
    let mut couplers = [0u32; COUPLERS];
    let mut gates = [0u32; GATES];
    let answer = read::read(text, &mut couplers, &mut gates);
    programs::write_verdict(writer, answer.map(|_| ()))
}

fn lay_scant<W: Write>(
    writer: &mut W,
    n: usize,
    couplers: &[u32],
    gates: &[u32],
) -> io::Result<()> {
    let mut laid = [0u32; RECORDS];
    let answer = job::lay_job(n, couplers, gates, &mut laid);
    programs::write_verdict(writer, answer.map(|_| ()))
}

fn write_scant<W: Write>(
    writer: &mut W,
    n: usize,
    couplers: &[u32],
    gates: &[u32],
) -> io::Result<()> {
    let mut text = [0u8; ROOM];
    let answer = write::write(n, couplers, gates, &mut text);
    programs::write_verdict(writer, answer.map(|_| ()))
}

fn lay_and_write<W: Write>(
    writer: &mut W,
    n: usize,
    couplers: &[u32],
    gates: &[u32],
) -> io::Result<()> {
    lay_scant(writer, n, couplers, gates)?;
    write_scant(writer, n, couplers, gates)
}

// Laying and writing get the lists as the text has them, good or bad: for that reading is lent enough.
fn turn<W: Write>(writer: &mut W, text: &[u8]) -> io::Result<()> {
    read_scant(writer, text)?;
    let mut couplers = [0u32; COUPLER_LINES];
    let mut gates = [0u32; GATE_LINES];
    match read::read(text, &mut couplers, &mut gates) {
        Ok(job) => {
            let c = job.couplers;
            let g = job.gates;
            lay_and_write(writer, job.qubits, &couplers[..c], &gates[..g])
        }
        Err(_) => Ok(()),
    }
}

// A line `--` closes each text, and no text has a `-` of its own: it ends at the first one.
fn each<W: Write>(writer: &mut W, bundle: &[u8]) -> io::Result<()>
    requires { length bundle.now ≤ 131072 }
{
    let mut start: usize = 0;
    for (i, &x) in bundle.iter().enumerate() {
        if start <= i && x == b'-' {
            turn(writer, &bundle[start..i])?;
            start = i + 3;
        }
    }
    Ok(())
}

fn run<R: Read, W: Write>(reader: &mut R, writer: &mut W) -> io::Result<()> {
    let mut bundle = [0u8; BUNDLE];
    let n = streams::read_full(reader, &mut bundle)?;
    each(writer, &bundle[..n])
}

// A read or a write that fails ends it, with the reason on standard error and exit status 1.
fn main(rt: HostRuntime) -> io::Result<()> {
    run(&mut rt.reader(), &mut io::writer(&rt))
}
