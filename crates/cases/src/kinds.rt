// One function for each kind of case: it runs a public call and prints the case's line.
use std::io;
use std::io::Write;

// The reader: the answer, then n, a and b.
pub fn reads<W: Write>(to: &mut W, name: &[u8], s: &[u8]) -> io::Result<()> {
    let found = records::read(s);
    let answer = found.answer;
    show::answer(to, name, answer)?;
    show::three(to, found.n as u64, found.a as u64, found.b as u64)?;
    show::text(to, b"\n")
}

// The summary: the answer, then on patterns, off patterns and inputs in use.
pub fn sums<W: Write>(to: &mut W, name: &[u8], s: &[u8]) -> io::Result<()> {
    let found = records::summary(s);
    let answer = found.answer;
    show::text(to, b"Summary of ")?;
    show::answer(to, name, answer)?;
    show::three(to, found.on as u64, found.off as u64, found.used as u64)?;
    show::text(to, b"\n")
}

// The writer: the answer, then the buffer's bytes afterwards.
pub fn writes<W: Write>(
    to: &mut W,
    name: &[u8],
    n: u8,
    on: &[u8],
    off: &[u8],
    out: &mut [u8],
) -> io::Result<()> {
    let answer = writer::write(n, on, off, out);
    show::answer(to, name, answer)?;
    show::hex(to, out)?;
    show::text(to, b"\n")
}

// The bytes at fault, or `none`.
pub fn faults<'a, W: Write>(to: &mut W, name: &[u8], f: &'a [u8], g: &'a [u8]) -> io::Result<()> {
    show::text(to, name)?;
    show::text(to, b": ")?;
    let part = records::at_fault(f, g);
    if part.len() == 0 {
        show::text(to, b"none")?;
    }
    show::hex(to, part)?;
    show::text(to, b"\n")
}
