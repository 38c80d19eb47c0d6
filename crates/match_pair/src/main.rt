// The match program: f and g from standard input, the answer and the claim to standard output. What it prints is made by
// `lines::match_lines`; here it is only read and written. If a read fails nothing is printed. What failed is told on standard
// error, and the exit status is 1 then.
#![tactic(auto)]

ghost use Rattle.std.specs.Prelude.{◌≡◌, IfSome, IfErr, OnOk, length};
ghost use Rattle.std.specs.Io.KnownBytes.{Appends, Keeps};
ghost use Rattle.records.specs.Records.{Bytes};
ghost use Rattle.lines.specs.Lines.{match_lines};
ghost use Rattle.input.specs.Failing.{IsInput};

use input::Failure;
use std::io::{Read, Write};
use std::process::ExitCode;

// Room for the input: two records never take more bytes, and what follows them is ignored (`match_enough`).
const INPUT: usize = 2050;

// Room for the text, which is never longer.
const TEXT: usize = 12325;

// Reads f and g, and writes the answer and the claim. The other program reads and writes alike; one function
// for both would need a contract over the text that it is given to make, longer than both bodies.
fn answer<R: Read, W: Write>(reader: &mut R, out: &mut W) -> Result<(), Failure>
    ensures printed { OnOk result (IfSome (R.remaining reader.old) (λ input. Bytes input → Appends (W.contents out.old) (W.contents out.new) (match_lines input))) }
    ensures silent { IfErr result (λ e. IsInput e → Keeps (W.contents out.old) (W.contents out.new)) }
{
    let mut input = answers::room::<INPUT>();
    let got = input::read_whole(reader, &mut input).map_err(Failure::Input)?;
    let mut text = answers::room::<TEXT>();
    let len = lines::match_lines(&input[..got], &mut text);
    out.write_all(&text[..len]).map_err(Failure::Output)
}

fn main(rt: HostRuntime) -> ExitCode {
    let done = answer(&mut rt.stdin(), &mut rt.stdout());
    input::end(&rt, "match_pair", done)
}
