// The laying program: a job's text from standard input, the laid job's to standard output, stretch by stretch.
// It knows `console`, and alone with the other programs the operating system.
#![tactic(auto)]

ghost use Rattle.std.specs.Prelude.{OnOk};
ghost use Rattle.streams.specs.Printing.{PrintsFor};
ghost use Rattle.console.specs.Printed.{laid_text};

use console::programs;
use std::io;
use std::io::{Read, Write};

// The text is read whole before anything is printed.
fn lay<R: Read, W: Write>(reader: &mut R, writer: &mut W) -> io::Result<()>
    ensures { OnOk result (PrintsFor laid_text (R.remaining reader.old) (W.contents writer.old) (W.contents writer.new)) }
{
    let mut input = [0u8; console::INPUT];
    let n = streams::read_full(reader, &mut input)?;
    programs::write_laid_input(writer, &input, n)?;
    Ok(())
}

// A read or a write that fails ends it, with the reason on standard error and exit status 1.
fn main(rt: HostRuntime) -> io::Result<()> {
    lay(&mut rt.reader(), &mut io::writer(&rt))
}
