// The reading program: a card of at most 65,536 bytes from standard input.
#![tactic(auto)]

use card::Refusal;
use std::io;

fn main(rt: HostRuntime) -> io::Result<()> {
    let mut card = [0u8; 65537];
    let mut out = rt.stdout();
    let n = reader_report::read_full(&mut rt.stdin(), &mut card)?;
    if 65536 < n {
        return reader_report::refused(&mut out, u32::from(Refusal::Shape));
    }
    reader_report::report(&mut out, &card[0..n])
}
