// The stored jobs: for each text of the bundle on standard input, what the laying and then the counting program print.
// Neither prints the common phase that an acceptance returns, which is the sum over the stretches: where it is not 0, a `p` line with it follows. It knows what `lay` and `count` know.
#![tactic(auto)]

ghost use Rattle.std.specs.Prelude.{◌≤◌, length, IfOk, IfSome};

use console::{front, programs};
use std::io;
use std::io::{Read, Write};

// Room for the stored bundle, which is read in pieces.
const BUNDLE: usize = 1048576;

const PIECE: usize = 65536;

// Room for one text and the line that closes it: twice what a job's text may have, so that the stored texts that are too long reach the reader.
const TEXT: usize = 131072;

// A text without the line `--` that closes it. None where its last line is another.
fn closed(text: &[u8]) -> Option<&[u8]>
    ensures { IfSome result (λ own. length own.now ≤ length text.now) }
{
    let own = text.strip_suffix(b"--\n")?;
    if own.is_empty() || own.ends_with(b"\n") {
        Some(own)
    } else {
        None
    }
}

// Prints for a text that is closed; how many of its bytes stay for the next turn.
fn turn<W: Write>(writer: &mut W, text: &[u8]) -> io::Result<usize>
    ensures { IfOk result (λ k. k ≤ length text.now) }
{
    let Some(own) = closed(text) else {
        return Ok(text.len());
    };
    let mut input = [0u8; console::INPUT];
    front::lend(own, &mut input);
    let phase = programs::write_laid_input(writer, &input, own.len())?;
    programs::write_counts_input(writer, &input, own.len())?;
    programs::write_phase(writer, phase)?;
    Ok(0)
}

// Goes over a piece of the bundle; the first k bytes of `text` came before it. How many stay for the next piece.
fn each<W: Write>(writer: &mut W, piece: &[u8], text: &mut [u8], k: usize) -> io::Result<usize> {
    let mut k = k;
    for &x in piece {
        if k < text.len() {
            text[k] = x;
            let m = k + 1;
            k = turn(writer, &text[..m])?;
        }
    }
    Ok(k)
}

fn run<R: Read, W: Write>(reader: &mut R, writer: &mut W) -> io::Result<()> {
    let mut text = [0u8; TEXT];
    let mut k = 0;
    for _ in 0..BUNDLE / PIECE {
        let mut piece = [0u8; PIECE];
        let n = streams::read_full(reader, &mut piece)?;
        k = each(writer, &piece[..n], &mut text, k)?;
    }
    Ok(())
}

// A read or a write that fails ends it, with the reason on standard error and exit status 1.
fn main(rt: HostRuntime) -> io::Result<()> {
    run(&mut rt.reader(), &mut io::writer(&rt))
}
