// The counting program: a job's text from standard input, one line about the laid job to standard output.
// It knows `console`, and alone with the other programs the operating system.
#![tactic(auto)]

ghost use Rattle.std.specs.Prelude.{OnOk};
ghost use Rattle.streams.specs.Printing.{PrintsFor};
ghost use Rattle.console.specs.Printed.{counted_text};

use console::programs;
use std::io;
use std::io::{Read, Write};

fn count<R: Read, W: Write>(reader: &mut R, writer: &mut W) -> io::Result<()>
    ensures { OnOk result (PrintsFor counted_text (R.remaining reader.old) (W.contents writer.old) (W.contents writer.new)) }
{
    let mut input = [0u8; console::INPUT];
    let n = streams::read_full(reader, &mut input)?;
    programs::write_counts_input(writer, &input, n)
}

// A read or a write that fails ends it, with the reason on standard error and exit status 1.
fn main(rt: HostRuntime) -> io::Result<()> {
    count(&mut rt.reader(), &mut io::writer(&rt))
}
