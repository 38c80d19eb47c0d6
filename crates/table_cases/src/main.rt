// Runs the cases of W-201 through `read_table` and `write_table`, and prints a line for each: its name, the answer's five numbers,
// and the bytes of the lent buffer afterwards, each AA before. The texts come from standard input, case by case: a name on a line
// of its own, and then the text, up to an @ that ends a line.
#![tactic(auto)]

ghost use Rattle.std.specs.Prelude.{◌≤◌};

use answers::Answer;
use std::io;
use std::io::Write;

// A case's line.
fn line<W: Write>(to: &mut W, name: &[u8], answer: Answer, out: &[u8]) -> io::Result<()> {
    show::answer(to, name, answer)?;
    show::hex(to, out)?;
    show::text(to, b"\n")
}

// Reads a text into 13 bytes.
fn reads<W: Write>(to: &mut W, name: &[u8], text: &[u8]) -> io::Result<()> {
    let mut out = [0xAAu8; 13];
    let answer = tables::read_table(text, &mut out);
    line(to, name, answer, &out)
}

// Case by case.
fn each<W: Write>(to: &mut W, input: &[u8]) -> io::Result<()> {
    let mut rest = input;
    while let Some(head) = rest.iter().position(|c| *c == b'\n') {
        let text = &rest[head + 1..];
        let end = text.iter().position(|c| *c == b'@').unwrap_or(text.len());
        reads(to, &rest[..head], &text[..end])?;
        rest = text.get(end + 2..).unwrap_or(&[]);
    }
    Ok(())
}

// Writes the table of a record into a lent buffer.
fn writes<W: Write>(to: &mut W, name: &[u8], record: &[u8], out: &mut [u8]) -> io::Result<()> {
    let answer = tables::write_table(record, out);
    line(to, name, answer, out)
}

// Lends `room` bytes.
fn into<W: Write>(to: &mut W, name: &[u8], record: &[u8], room: usize) -> io::Result<()>
    requires { room ≤ 44 }
{
    let mut out = [0xAAu8; 44];
    writes(to, name, record, &mut out[..room])
}

// Records that are written.
fn written<W: Write>(to: &mut W) -> io::Result<()> {
    let conj = b"\x46\x4E\x02\x01\x02\x03\x00\x00\x01\x00\x02";
    into(to, b"Export of Conj", conj, 44)?;
    into(to, b"Export of Conj, just enough room", conj, 42)?;
    into(to, b"Export of Conj, a byte too few", conj, 41)?;
    into(to, b"Export of Open", b"\x46\x4E\x01\x00\x00", 27)?;
    into(
        to,
        b"Export of eight inputs",
        b"\x46\x4E\x08\x01\x00\x81\x18",
        40,
    )
}

// Records that are refused, though there is no room either.
fn refused<W: Write>(to: &mut W) -> io::Result<()> {
    into(to, b"Export of another mark", b"\x46\x50\x02\x00\x00", 3)?;
    into(
        to,
        b"Export of a shared pattern",
        b"\x46\x4E\x02\x02\x01\x03\x00\x00\x03\x00\x01",
        0,
    )
}

fn main(rt: HostRuntime) -> io::Result<()> {
    let mut input = answers::room::<8192>();
    let got = input::read_whole(&mut rt.stdin(), &mut input)?;
    let mut to = rt.stdout();
    each(&mut to, &input[..got])?;
    written(&mut to)?;
    refused(&mut to)
}
