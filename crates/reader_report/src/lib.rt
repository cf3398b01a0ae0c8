// What the reading program prints of a card, and how it reads one.
#![tactic(auto)]

ghost use Rattle.std.specs.Prelude.{◌≡◌, ◌<◌, ◌≤◌, true, length, take, Ok, OnOk, IfOk};
ghost use Rattle.std.specs.Io.KnownBytes.{Appends, Consumes, IsAtEnd};
ghost use Rattle.card.specs.Answers.{reported_of};
ghost use Rattle.card.specs.Reading.{read, files_shown};
ghost use Rattle.card.specs.Sound.{shape_ok, sound};
ghost use Rattle.reader_report.specs.Printed.{refusal_line, name_bytes, file_line, file_lines, card_lines, report_lines};

use card::{Contents, Line};
use std::io;
use std::io::{Read, Write};

// Reads until the slice is full or the input ends, and gives how many bytes stand at the slice's front.
pub fn read_full<R: Read>(input: &mut R, card: &mut [u8]) -> io::Result<usize>
    ensures within { IfOk result (λ n. n ≤ length card.new) }
    ensures bytes { IfOk result (λ n. Consumes (R.remaining input.old) (R.remaining input.new) (take n card.new)) }
    ensures whole { IfOk result (λ n. n < length card.new → IsAtEnd (R.remaining input.new)) }
{
    let mut n = 0;
    // How much a read gives is the reader's choice: no `for` has steps that vary.
    while n < card.len() {
        let k = input.read(&mut card[n..])?;
        if k == 0 {
            break;
        }
        n += k;
    }
    Ok(n)
}

// The line of a refusal.
pub fn refused<W: Write>(out: &mut W, n: u32) -> io::Result<()>
    ensures { OnOk result (Appends (W.contents out.old) (W.contents out.new) (refusal_line n)) }
{
    writeln!(out, "refused {n}")
}

// The first n bytes of a name.
fn print_name<W: Write>(out: &mut W, name: &[u8], n: usize) -> io::Result<()>
    ensures { OnOk result (Appends (W.contents out.old) (W.contents out.new) (name_bytes name.now n)) }
{
    if n <= name.len() {
        out.write_all(&name[0..n])?;
    }
    Ok(())
}

// The line of a file: name, bytes, start, sectors.
fn print_line<W: Write>(out: &mut W, l: Line) -> io::Result<()>
    ensures { OnOk result (Appends (W.contents out.old) (W.contents out.new) (file_line l)) }
{
    print_name(out, &l.name, l.size as usize)?;
    writeln!(out, " {} {} {}", l.run.bytes, l.run.start.0, l.run.sectors)
}

// The lines of the first n files of a sound card, which has as many.
fn print_lines<W: Write>(out: &mut W, card: &[u8], n: u32) -> io::Result<()>
    requires { (shape_ok card.now ≡ true) × ((sound card.now ≡ true) × (n ≤ length (files_shown card.now))) }
    ensures { OnOk result (Appends (W.contents out.old) (W.contents out.new) (file_lines card.now n)) }
{
    for i in 0..n {
        let line = card_read::read_line_in(card, i).unwrap();
        print_line(out, line)?;
    }
    Ok(())
}

// What is read of a sound card: C and N; files shown; a line a file; clear bits of the shown bitmap.
fn print_card<W: Write>(out: &mut W, card: &[u8], r: Contents) -> io::Result<()>
    requires { reported_of (Ok r) ≡ read card.now }
    ensures { OnOk result (Appends (W.contents out.old) (W.contents out.new) (card_lines card.now (read card.now))) }
{
    writeln!(out, "counts {} of {}", r.c.0, r.n)?;
    writeln!(out, "files {}", r.files)?;
    print_lines(out, card, r.files)?;
    writeln!(out, "free {}", r.free)
}

// The whole report: the line of a refusal, or what is read of a sound card.
pub fn report<W: Write>(out: &mut W, card: &[u8]) -> io::Result<()>
    ensures { OnOk result (Appends (W.contents out.old) (W.contents out.new) (report_lines card.now)) }
{
    match card_read::read(card) {
        Err(refusal) => refused(out, u32::from(refusal)),
        Ok(contents) => print_card(out, card, contents),
    }
}
