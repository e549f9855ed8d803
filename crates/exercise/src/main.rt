//! Runs a script of calls from standard input, and prints an account of it.
#![tactic(auto)]

use session::Session;
use std::io;
use std::io::{BufRead, BufReader, BufWriter, Write};

/// What now stands, a line for each name.
fn write_standing<W: Write>(session: &Session, output: &mut W) -> io::Result<()> {
    for (name, kind) in session.ciphers() {
        output.write_all(b"cipher ")?;
        output.write_all(name)?;
        writeln!(output, " {kind}")?;
    }
    Ok(())
}

fn main(rt: HostRuntime) -> io::Result<()> {
    let mut input = BufReader::new(rt.alloc(), rt.stdin())?;
    let mut output = BufWriter::new(rt.alloc(), rt.stdout())?;
    let mut session = Session::new(rt.alloc());
    let mut line = Vec::new(rt.alloc());
    // counted, so that the loop ends and an answer has its line's number; the buffer serves every line
    for k in 1..u64::MAX {
        line.clear();
        if input.read_until(b'\n', &mut line)? == 0 {
            break;
        }
        if let Some(answer) = session.line(line.as_slice()) {
            writeln!(output, "{k}: {answer}")?;
        }
    }
    writeln!(output, "{}", session.tally())?;
    write_standing(&session, &mut output)?;
    output.flush()
}
