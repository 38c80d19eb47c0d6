// Runs the cases of document 01 on records, summaries, claims and matches, and the examples of the 1995 paper, through the public
// calls, and prints a line for each.
#![tactic(auto)]

ghost use Rattle.std.specs.Prelude.{◌≤◌, length};

mod checks;
mod functions;
mod kinds;
mod matches;
mod single_wirings;

use functions::{CONJ, CONST, DISJ, F_2_1, F_3_2, G_2_1, G_3_2, ODD, OPEN, WIRE};
use std::io;
use std::io::Write;

// 6 in cube 0 and 5 in cube 1.
const SIX_THEN_FIVE: [u8; 9] = *b"\x46\x4E\x01\x02\x00\x01\x01\x02\x00";

// The second on cube shares pattern 2 with the off cube.
const CLASH: [u8; 11] = *b"\x46\x4E\x02\x02\x01\x01\x02\x02\x00\x00\x01";

// On cubes x1 and x0', off cubes x0x1 and x0'. The first on cube shares 3 with the first off cube and 2 with the second; the second
// on cube shares 0, but it is not the one that is named.
const TWICE_CLASHING: [u8; 13] = *b"\x46\x4E\x02\x02\x02\x02\x00\x00\x01\x03\x00\x00\x01";

// The summaries marked *.
fn summaries<W: Write>(to: &mut W) -> io::Result<()> {
    kinds::sums(to, b"Conj", &CONJ)?;
    kinds::sums(to, b"Odd", &ODD)?;
    kinds::sums(to, b"Open", &OPEN)
}

fn two_inputs<W: Write>(to: &mut W) -> io::Result<()> {
    kinds::reads(to, b"Conj", &CONJ)?;
    kinds::reads(to, b"Disj", &DISJ)?;
    kinds::reads(to, b"Odd", &ODD)
}

fn one_input<W: Write>(to: &mut W) -> io::Result<()> {
    kinds::reads(to, b"Const", &CONST)?;
    kinds::reads(to, b"Wire", &WIRE)?;
    kinds::reads(to, b"Open", &OPEN)
}

fn headers<W: Write>(to: &mut W) -> io::Result<()> {
    kinds::reads(to, b"Empty record", b"")?;
    kinds::reads(to, b"46 4E 00", b"\x46\x4E\x00")?;
    kinds::reads(to, b"46 4E 08 41", b"\x46\x4E\x08\x41")
}

// Fills s with a record of one input, whose on cubes are all `01 00`.
fn fill(s: &mut [u8], a: u8)
    requires { 5 ≤ length s.old }
{
    let header = [0x46, 0x4E, 0x01, a, 0x00];
    answers::put(s, 0, &header);
    for cube in s[5..].as_chunks_mut::<2>().0 {
        *cube = *b"\x01\x00";
    }
}

fn counts<W: Write>(to: &mut W) -> io::Result<()> {
    let mut most = [0u8; 133];
    fill(&mut most, 64);
    kinds::reads(to, b"A count of 64 passes", &most)?;
    let mut more = [0u8; 135];
    fill(&mut more, 65);
    kinds::reads(to, b"A count of 65", &more)
}

// The order of tests: header bytes, cubes, 7.
fn order<W: Write>(to: &mut W) -> io::Result<()> {
    kinds::reads(to, b"46", b"\x46")?;
    kinds::reads(to, b"47", b"\x47")?;
    kinds::reads(to, b"6 in cube 0, 5 in cube 1", &SIX_THEN_FIVE)?;
    kinds::reads(
        to,
        b"5 before 6 in one cube",
        b"\x46\x4E\x01\x01\x00\x03\x03",
    )?;
    kinds::reads(to, b"7 at the second on cube", &CLASH)?;
    kinds::reads(
        to,
        b"7 with the smallest pattern of the first on cube",
        &TWICE_CLASHING,
    )
}

fn lengths<W: Write>(to: &mut W) -> io::Result<()> {
    let longer = b"\x46\x4E\x02\x01\x02\x03\x00\x00\x01\x00\x02\x00";
    kinds::reads(to, b"Conj and a byte after the end", longer)?;
    kinds::reads(to, b"Conj without its last byte", &CONJ[..10])
}

// Writes Conj into the buffer.
fn writes_conj<W: Write>(to: &mut W, name: &[u8], out: &mut [u8]) -> io::Result<()> {
    kinds::writes(to, name, 2, b"\x03\x00", b"\x00\x01\x00\x02", out)
}

fn rooms<W: Write>(to: &mut W) -> io::Result<()> {
    let mut just = [0xAAu8; 11];
    writes_conj(to, b"Conj into 11 bytes", &mut just)?;
    let mut short = [0xAAu8; 10];
    writes_conj(to, b"Conj into 10 bytes", &mut short)?;
    let mut long = [0xAAu8; 13];
    writes_conj(to, b"Conj into 13 bytes", &mut long)
}

// Gives the writer an n or an on list that it refuses, with Conj's off list.
fn refuses<W: Write>(to: &mut W, name: &[u8], n: u8, on: &[u8]) -> io::Result<()> {
    let mut out = [0xAAu8; 11];
    kinds::writes(to, name, n, on, b"\x00\x01\x00\x02", &mut out)
}

fn refusals<W: Write>(to: &mut W) -> io::Result<()> {
    refuses(to, b"An on list of 3 bytes", 2, b"\x03\x00\x03")?;
    refuses(to, b"n of 0", 0, b"\x03\x00")?;
    refuses(to, b"n of 9", 9, b"\x03\x00")?;
    let long = [0u8; 130];
    refuses(to, b"An on list of 130 bytes", 2, &long)
}

fn at_fault<W: Write>(to: &mut W) -> io::Result<()> {
    kinds::faults(to, b"At fault in f", &SIX_THEN_FIVE, &CLASH)?;
    kinds::faults(to, b"At fault in g", &CONJ, &CLASH)?;
    kinds::faults(to, b"At fault, both sound", &CONJ, &DISJ)?;
    kinds::faults(to, b"At fault, f ends too early", &CONJ[..10], &CLASH)
}

// What the paper says of its examples, and straight wirings, which do not agree.
fn examples<W: Write>(to: &mut W) -> io::Result<()> {
    single_wirings::one(to, b"Example 2.1", &F_2_1, &G_2_1, b"\x01\x02\x10")?;
    single_wirings::one(to, b"Example 2.1", &F_2_1, &G_2_1, b"\x00\x01\x02")?;
    single_wirings::plain(to, b"Example 3.2", &F_3_2, &G_3_2)
}

// Both functions before the claim, and g's own faults even where n differs.
fn functions_first<W: Write>(to: &mut W) -> io::Result<()> {
    checks::check(
        to,
        b"Conj without its last byte to Disj",
        &CONJ[..10],
        &DISJ,
        b"",
    )?;
    checks::check(to, b"Wire to the clash above", &WIRE, &CLASH, b"")
}

fn main(rt: HostRuntime) -> io::Result<()> {
    let mut to = rt.stdout();
    summaries(&mut to)?;
    two_inputs(&mut to)?;
    one_input(&mut to)?;
    headers(&mut to)?;
    counts(&mut to)?;
    order(&mut to)?;
    lengths(&mut to)?;
    rooms(&mut to)?;
    refusals(&mut to)?;
    at_fault(&mut to)?;
    examples(&mut to)?;
    checks::starred(&mut to)?;
    checks::headers(&mut to)?;
    checks::matches(&mut to)?;
    checks::disagreements(&mut to)?;
    checks::trees(&mut to)?;
    functions_first(&mut to)?;
    matches::starred(&mut to)?;
    matches::more(&mut to)?;
    matches::rooms(&mut to)
}
