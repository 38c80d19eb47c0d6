// What a line of a case is made of: text, decimal numbers, bytes in capital hex.
#![tactic(auto)]

ghost use Rattle.std.specs.Prelude.{OnOk, decimal};
ghost use Rattle.std.specs.Io.KnownBytes.{Appends};
ghost use Rattle.show.specs.Shown.{three_text, numbers_text, answer_text, byte_text, hex_text};

use answers::Answer;
use std::io;
use std::io::Write;

pub fn text<W: Write>(to: &mut W, bytes: &[u8]) -> io::Result<()>
    ensures { OnOk result (Appends (W.contents to.old) (W.contents to.new) bytes.now) }
{
    to.write_all(bytes)
}

pub fn number<W: Write>(to: &mut W, x: u64) -> io::Result<()>
    ensures { OnOk result (Appends (W.contents to.old) (W.contents to.new) (decimal x)) }
{
    write!(to, "{x}")
}

// Three numbers with single blanks.
pub fn three<W: Write>(to: &mut W, x: u64, y: u64, z: u64) -> io::Result<()>
    ensures { OnOk result (Appends (W.contents to.old) (W.contents to.new) (three_text x y z)) }
{
    number(to, x)?;
    text(to, b" ")?;
    number(to, y)?;
    text(to, b" ")?;
    number(to, z)
}

// An answer's five numbers.
pub fn numbers<W: Write>(to: &mut W, found: Answer) -> io::Result<()>
    ensures { OnOk result (Appends (W.contents to.old) (W.contents to.new) (numbers_text found)) }
{
    three(
        to,
        found.code as u64,
        found.kind as u64,
        found.record as u64,
    )?;
    text(to, b" ")?;
    number(to, found.place as u64)?;
    text(to, b" ")?;
    number(to, found.pattern as u64)
}

// The case's name and the answer.
pub fn answer<W: Write>(to: &mut W, name: &[u8], found: Answer) -> io::Result<()>
    ensures { OnOk result (Appends (W.contents to.old) (W.contents to.new) (answer_text name.now found)) }
{
    text(to, name)?;
    text(to, b": ")?;
    numbers(to, found)?;
    text(to, b"; ")
}

pub fn byte<W: Write>(to: &mut W, b: u8) -> io::Result<()>
    ensures { OnOk result (Appends (W.contents to.old) (W.contents to.new) (byte_text b)) }
{
    let two = [words::digit(b / 16), words::digit(b % 16)];
    text(to, &two)
}

// Bytes with single blanks.
pub fn hex<W: Write>(to: &mut W, bytes: &[u8]) -> io::Result<()>
    ensures { OnOk result (Appends (W.contents to.old) (W.contents to.new) (hex_text bytes.now)) }
{
    for (i, &b) in bytes.iter().enumerate() {
        if i != 0 {
            text(to, b" ")?;
        }
        byte(to, b)?;
    }
    Ok(())
}
