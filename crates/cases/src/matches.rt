// The matcher on the pairs of functions that document 01 names and on a few more, with room for the claim and without.
ghost use Rattle.std.specs.Prelude.{◌≤◌};

use crate::CLASH;
use crate::functions::{CONJ, CONST, DISJ, F_2_1, F_3_2, G_2_1, G_3_2, ODD, OPEN, WIRE};
use std::io;
use std::io::Write;

// The matcher's answer, then the buffer's bytes afterwards, and what the checker says of a claim among them.
fn finds<W: Write>(to: &mut W, name: &[u8], f: &[u8], g: &[u8], out: &mut [u8]) -> io::Result<()> {
    let answer = matcher::find(f, g, out);
    show::text(to, b"Match ")?;
    show::text(to, name)?;
    show::text(to, b" into ")?;
    show::number(to, out.len() as u64)?;
    show::answer(to, b" bytes", answer)?;
    show::hex(to, out)?;
    let end = answer.place;
    if answer.code == 0 && end <= out.len() {
        show::text(to, b"; checked ")?;
        show::numbers(to, checker::check(f, g, &out[..end]))?;
    }
    show::text(to, b"\n")
}

// Lends `room` bytes, each AA before.
fn into<W: Write>(to: &mut W, name: &[u8], f: &[u8], g: &[u8], room: usize) -> io::Result<()>
    requires { room ≤ 31 }
{
    let mut out = [0xAAu8; 31];
    finds(to, name, f, g, &mut out[..room])
}

// The cases marked *, and a wire to itself.
pub fn starred<W: Write>(to: &mut W) -> io::Result<()> {
    into(to, b"Conj to Disj", &CONJ, &DISJ, 8)?;
    into(to, b"Conj to Odd", &CONJ, &ODD, 31)?;
    into(to, b"Const to Wire", &CONST, &WIRE, 11)?;
    into(to, b"Open to Wire", &OPEN, &WIRE, 7)?;
    into(to, b"Wire to Conj", &WIRE, &CONJ, 7)?;
    into(to, b"Wire to Wire", &WIRE, &WIRE, 7)
}

// No pair to be kept apart; a dead pair of each q before any choice; and the paper's examples.
pub fn more<W: Write>(to: &mut W) -> io::Result<()> {
    into(to, b"Const to Const", &CONST, &CONST, 7)?;
    into(to, b"Wire to Const", &WIRE, &CONST, 11)?;
    into(to, b"Example 2.1", &F_2_1, &G_2_1, 9)?;
    into(to, b"Example 3.2", &F_3_2, &G_3_2, 9)
}

// The room needed and one byte less; and without any room 18 comes after every other code.
pub fn rooms<W: Write>(to: &mut W) -> io::Result<()> {
    into(to, b"Conj to Disj", &CONJ, &DISJ, 5)?;
    into(to, b"Conj to Disj", &CONJ, &DISJ, 6)?;
    into(to, b"Conj to Odd", &CONJ, &ODD, 28)?;
    into(to, b"Conj to Odd", &CONJ, &ODD, 29)?;
    into(to, b"Conj to Disj", &CONJ, &DISJ, 0)?;
    into(
        to,
        b"Conj without its last byte to Disj",
        &CONJ[..10],
        &DISJ,
        0,
    )?;
    into(to, b"Wire to the clash above", &WIRE, &CLASH, 0)?;
    into(to, b"Wire to Conj", &WIRE, &CONJ, 0)
}
