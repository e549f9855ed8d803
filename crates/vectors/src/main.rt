//! Answers lines of test vectors: key, one space and plaintext come in, the ciphertext goes out, or a hyphen.
#![tactic(auto)]

use std::io;
use std::io::{BufRead, BufReader, BufWriter, Write};

fn main(rt: HostRuntime) -> io::Result<()> {
    let mut input = BufReader::new(rt.alloc(), rt.stdin())?;
    let mut output = BufWriter::new(rt.alloc(), rt.stdout())?;
    let mut line = Vec::new(rt.alloc());
    // counted, so that the loop ends; one buffer serves every line
    for _ in 0..u64::MAX {
        line.clear();
        let _ = input.read_until(b'\n', &mut line)?;
        // what no line feed ends is no line
        let [text @ .., b'\n'] = line.as_slice() else {
            break;
        };
        output.write_all(vector::answer(text).bytes())?;
        output.write_all(b"\n")?;
    }
    output.flush()
}
