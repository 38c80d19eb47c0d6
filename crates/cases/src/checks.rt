// The checker on the claims that document 01 names, and on others that show the order of its tests.
use crate::functions::{CONJ, CONST, DISJ, ODD, OPEN, WIRE};
use std::io;
use std::io::Write;

// Two trees of four closings each.
const CONJ_ODD: [u8; 29] =
    *b"\x52\x46\x02\xFF\x01\x00\x01\x01\x00\x00\x01\x00\x00\x01\x00\x01\xFF\x01\x00\x01\x01\x00\x00\x01\x00\x01\x01\x00\x00";

// On cubes x0x1 and x0x1', and no off cube.
const ON_TWICE: [u8; 9] = *b"\x46\x4E\x02\x02\x00\x03\x00\x01\x02";

// The checker's answer, then the claim.
pub fn check<W: Write>(
    to: &mut W,
    name: &[u8],
    f: &[u8],
    g: &[u8],
    claim: &[u8],
) -> io::Result<()> {
    let answer = checker::check(f, g, claim);
    show::text(to, b"Check ")?;
    show::answer(to, name, answer)?;
    show::hex(to, claim)?;
    show::text(to, b"\n")
}

// Claims on Conj and Disj.
fn conj_disj<W: Write>(to: &mut W, claim: &[u8]) -> io::Result<()> {
    check(to, b"Conj to Disj", &CONJ, &DISJ, claim)
}

// Claims on Const and Wire.
fn const_wire<W: Write>(to: &mut W, claim: &[u8]) -> io::Result<()> {
    check(to, b"Const to Wire", &CONST, &WIRE, claim)
}

// The cases marked *, claims that the matcher has to find among them.
pub fn starred<W: Write>(to: &mut W) -> io::Result<()> {
    conj_disj(to, b"\x4D\x54\x02\x01\x10\x11")?;
    check(to, b"Conj to Odd", &CONJ, &ODD, &CONJ_ODD)?;
    const_wire(to, b"\x52\x46\x01\x00\x00\x00\x00\x00\x00")?;
    check(to, b"Open to Wire", &OPEN, &WIRE, b"\x4D\x54\x01\x00\x00")?;
    check(to, b"Open to Wire", &OPEN, &WIRE, b"\x4D\x54\x01\x00\x10")?;
    check(to, b"Wire to Wire", &WIRE, &WIRE, b"\x4D\x54\x01\x00\x10")?;
    check(to, b"Wire to Wire", &WIRE, &WIRE, b"\x4D\x54\x01\x01\x10")?;
    check(to, b"Wire to Conj", &WIRE, &CONJ, b"")?;
    conj_disj(to, b"\x4D\x54\x02\x01\x10\x10")?;
    const_wire(to, b"\x52\x46\x01\xFF")?;
    const_wire(to, b"\x52\x46\x01\x00\x00\x01")
}

// The header: mark, n, and a missing byte before its test.
pub fn headers<W: Write>(to: &mut W) -> io::Result<()> {
    conj_disj(to, b"")?;
    conj_disj(to, b"\x00")?;
    conj_disj(to, b"\x4D\x46")?;
    conj_disj(to, b"\x52\x54")?;
    conj_disj(to, b"\x4D\x54")?;
    conj_disj(to, b"\x4D\x54\x03")?;
    conj_disj(to, b"\x52\x46\x01")?;
    conj_disj(to, b"\x4D\x54\x02")
}

// Match claims: the length before q, 12 and 13 byte by byte.
pub fn matches<W: Write>(to: &mut W) -> io::Result<()> {
    conj_disj(to, b"\x4D\x54\x02\x02\x10")?;
    conj_disj(to, b"\x4D\x54\x02\x02\x10\x11\x00")?;
    conj_disj(to, b"\x4D\x54\x02\x02\x10\x11")?;
    conj_disj(to, b"\x4D\x54\x02\x01\x02\x12")?;
    conj_disj(to, b"\x4D\x54\x02\x01\x10\x00")?;
    conj_disj(to, b"\x4D\x54\x02\x01\x10\x12")
}

// Code 14 names the smallest pattern of g. Read through 01 10, Conj is on at 2 alone, so it disagrees with Disj at 1 and 3, where it
// is read at 0 and 1. A function that is on at 3 and at 1, and nowhere off, disagrees with itself under q = 1 at both; the first pair
// shares 3.
pub fn disagreements<W: Write>(to: &mut W) -> io::Result<()> {
    conj_disj(to, b"\x4D\x54\x02\x00\x01\x10")?;
    check(
        to,
        b"x0x1, x0x1' to itself",
        &ON_TWICE,
        &ON_TWICE,
        b"\x4D\x54\x02\x01\x00\x01",
    )
}

// Refusal trees: bytes in order, and nothing after them.
pub fn trees<W: Write>(to: &mut W) -> io::Result<()> {
    const_wire(to, b"\x52\x46\x01\x02")?;
    const_wire(to, b"\x52\x46\x01\x00\x01")?;
    const_wire(to, b"\x52\x46\x01\x01\x00")?;
    const_wire(to, b"\x52\x46\x01\xFF\xFF")?;
    const_wire(to, b"\x52\x46\x01\xFF\xFE")?;
    const_wire(to, b"\x52\x46\x01\x00\x00\x00\x00\x00\x01")?;
    const_wire(to, b"\x52\x46\x01\x00\x00\x00\x00\x00\x00\x00")?;
    const_wire(to, b"\x52\x46\x01\xFF\x00\x00\x00\x00\x00\x00\x00\x00\x00")?;
    check(to, b"Conj to Odd", &CONJ, &ODD, b"\x52\x46\x02\x00\x00\x00")
}
