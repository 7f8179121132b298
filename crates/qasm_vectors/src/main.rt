// The stored circuits: for each pair of texts of the bundle on standard input, a couplers' and a circuit's, what `qasm` prints. Then too little is lent: what reading
// the circuit's text answers and, where it accepts, what writing the circuit answers, an `x` line each. An acceptance is number 0 at place 0. Between them stands, where it
// is not 0, the common phase that was read, a `p` line. It knows what `qasm` knows, and the entry points.
#![tactic(auto)]

ghost use Rattle.std.specs.Prelude.{◌≤◌, length, IfOk, IfSome};

use console::{INPUT, front, programs};
use qasm_reading::read;
use qasm_text::write;
use std::io;
use std::io::{Read, Write};
use versions::Version;

// Room for the stored bundle, which is read in pieces.
const BUNDLE: usize = 1048576;

const PIECE: usize = 65536;

// Room for one text and the line that closes it: twice what a text may have, so that the stored texts that are too long reach the reader.
const TEXT: usize = 131072;

// Lent to reading for the gates.
const GATES: usize = 4;

// Lent to writing, in bytes.
const ROOM: usize = 100;

// The pair that comes in: `held` bytes of it are there, and the text that is not closed yet begins at `start`. It is the circuit's where that is not 0.
#[derive(Clone, Copy)]
struct Pair {
    start: usize,
    held: usize,
}

// A text without what closes it: a line `--`, or a line `-.` and the LF before it, which is not the text's own. None where nothing closes it.
fn closed(text: &[u8]) -> Option<&[u8]>
    ensures { IfSome result (λ own. length own.now ≤ length text.now) }
{
    match text.strip_suffix(b"--\n") {
        Some(own) if own.is_empty() || own.ends_with(b"\n") => Some(own),
        _ => text.strip_suffix(b"\n-.\n"),
    }
}

fn write_scant<W: Write>(
    writer: &mut W,
    version: Version,
    n: usize,
    gates: &[u32],
    phase: u32,
) -> io::Result<()> {
    let mut text = [0u8; ROOM];
    let answer = write::write(version, n, gates, phase, &mut text);
    programs::write_verdict(writer, answer.map(|_| ()))
}

fn read_scant<W: Write>(writer: &mut W, text: &[u8]) -> io::Result<()> {
    let mut gates = [0u32; GATES];
    match read::read(text, &mut gates) {
        Ok(circuit) => {
            programs::write_verdict(writer, Ok(()))?;
            programs::write_phase(writer, circuit.phase)?;
            let version = circuit.version;
            let g = circuit.gates;
            write_scant(writer, version, circuit.qubits, &gates[..g], circuit.phase)
        }
        Err(refusal) => programs::write_verdict(writer, Err(refusal)),
    }
}

fn answer<W: Write>(writer: &mut W, listing: &[u8], text: &[u8]) -> io::Result<()> {
    let mut first = [0u8; INPUT];
    front::lend(listing, &mut first);
    let mut second = [0u8; INPUT];
    front::lend(text, &mut second);
    qasm_console::programs::write_laid_input(writer, &first, listing.len(), &second, text.len())?;
    read_scant(writer, text)
}

// Prints for a pair whose second text is closed; what stays for the next turn.
fn turn<W: Write>(writer: &mut W, bytes: &[u8], start: usize) -> io::Result<Pair>
    requires { start ≤ length bytes.now }
    ensures { IfOk result (λ pair. pair.start ≤ pair.held) }
{
    let held = bytes.len();
    let Some(text) = closed(&bytes[start..]) else {
        return Ok(Pair { start, held });
    };
    if start == 0 {
        return Ok(Pair { start: held, held });
    }
    let listing = closed(&bytes[..start]).unwrap_or(&bytes[..start]);
    answer(writer, listing, text)?;
    Ok(Pair { start: 0, held: 0 })
}

// Goes over a piece of the bundle; `pair` of `bytes` came before it. What stays for the next piece.
fn each<W: Write>(writer: &mut W, piece: &[u8], bytes: &mut [u8], pair: Pair) -> io::Result<Pair>
    requires { pair.start ≤ pair.held }
    ensures { IfOk result (λ left. left.start ≤ left.held) }
{
    let mut start = pair.start;
    let mut held = pair.held;
    for &x in piece {
        if held < bytes.len() {
            bytes[held] = x;
            let m = held + 1;
            let next = turn(writer, &bytes[..m], start)?;
            start = next.start;
            held = next.held;
        }
    }
    Ok(Pair { start, held })
}

fn run<R: Read, W: Write>(reader: &mut R, writer: &mut W) -> io::Result<()> {
    let mut bytes = [0u8; 2 * TEXT];
    let mut pair = Pair { start: 0, held: 0 };
    for _ in 0..BUNDLE / PIECE {
        let mut piece = [0u8; PIECE];
        let n = streams::read_full(reader, &mut piece)?;
        pair = each(writer, &piece[..n], &mut bytes, pair)?;
    }
    Ok(())
}

// A read or a write that fails ends it, with the reason on standard error and exit status 1.
fn main(rt: HostRuntime) -> io::Result<()> {
    run(&mut rt.reader(), &mut io::writer(&rt))
}
