// The report program: prints the report of the bundle file on standard input, of which at most 65,536 bytes are read.
#![tactic(auto)]

use input::read_full;
use std::io;

fn main(rt: HostRuntime) -> io::Result<()> {
    let mut file = [0u8; 65536];
    let read = read_full(&mut rt.reader(), &mut file)?;
    // No report is longer.
    let mut text = [0u8; 256];
    let put = reporting::report(&file[..read], &mut text);
    rt.write_all(&text[..put])
}
