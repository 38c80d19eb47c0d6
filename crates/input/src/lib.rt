// Reading a program's input, in whatever portions it comes, into a room that is lent. A read that fails is not the input's end.
#![tactic(auto)]

ghost use Rattle.std.specs.Prelude.{◌≡◌, ℕ, ◌<◌, ◌≤◌, IfOk, OnErr, MatchResult, length, take};
ghost use Rattle.std.specs.Io.{ReadsAtMost};
ghost use Rattle.std.specs.Io.KnownBytes.{Consumes, IsAtEnd};
ghost use Rattle.std.specs.Process.{exit_status};

use std::io::{Read, Write};
use std::process::ExitCode;
use std::{fmt, io, str};

// Reads until the buffer is full, the input ends or a read fails, and returns how many bytes stand at the buffer's start. The reader
// says how far each turn comes, so there is nothing for an iterator to go over.
pub fn read_whole<R: Read>(reader: &mut R, buf: &mut [u8]) -> io::Result<usize>
    ensures ok { ReadsAtMost result buf.new }
    ensures bytes { IfOk result (λ n. Consumes (R.remaining reader.old) (R.remaining reader.new) (take n buf.new)) }
    ensures end { IfOk result (λ n. n < length buf.new → IsAtEnd (R.remaining reader.new)) }
    ensures err { OnErr result ((n : ℕ) × (n ≤ length buf.new)
        × Consumes (R.remaining reader.old) (R.remaining reader.new) (take n buf.new)) }
{
    let mut done = 0;
    while done < buf.len() {
        let more = reader.read(&mut buf[done..])?;
        if more == 0 {
            break;
        }
        done += more;
    }
    Ok(done)
}

// Why a program has no answer, or could not write it.
#[derive(Drop)]
pub enum Failure {
    Input(io::Error),
    Output(io::Error),
}

// The system's words for an error alone, without the number that std adds to them.
#[derive(Drop)]
struct Reason<'a>(&'a io::Error);

impl fmt::Display for Reason<'_> {
    fn fmt<W: fmt::Write>(&self, f: &mut fmt::Formatter<W>) -> fmt::Result {
        let mut room = [0u8; 128];
        let mut left = &mut room[..];
        let _ = write!(left, "{}", self.0);
        let unused = left.len();
        let len = room.len().saturating_sub(unused);
        let told = str::from_utf8(&room[..len]).unwrap_or("");
        let reason = match told.split_once(" (os error ") {
            Some((words, _)) => words,
            None => told,
        };
        f.write_str(reason)
    }
}

impl fmt::Display for Failure {
    fn fmt<W: fmt::Write>(&self, f: &mut fmt::Formatter<W>) -> fmt::Result {
        match self {
            Failure::Input(e) => write!(f, "standard input: {}", Reason(e)),
            Failure::Output(e) => write!(f, "standard output: {}", Reason(e)),
        }
    }
}

// How a program ends: one that failed tells why in a line on standard error. Where that fails too, nobody can be told.
pub fn end(rt: &impl Eprint, program: &str, done: Result<(), Failure>) -> ExitCode
    ensures { MatchResult done (λ _. exit_status result ≡ 0) (λ _. exit_status result ≡ 1) }
{
    match done {
        Ok(()) => ExitCode::SUCCESS,
        Err(failure) => {
            let _ = rt.eprintln(format_args!("{program}: {failure}"));
            ExitCode::FAILURE
        }
    }
}
