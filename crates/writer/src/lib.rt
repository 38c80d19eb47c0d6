// The writer of function records: n, two lists of cube bytes and a lent buffer.
#![tactic(auto)]

ghost use Rattle.std.specs.Prelude.{◌≡◌, ◌+◌, ◌≤◌, OnOk, length};
ghost use Rattle.std.proofs.lemmas.List.Edits.{sets};
ghost use Rattle.answers.specs.Answers.{Delivered};
ghost use Rattle.answers.specs.Verdicts.{unless_refused};
ghost use Rattle.writer.specs.Writing.{record_bytes, sizes, cubes, writing};

use answers::{Answer, Code, Kind, Of};

// Whether n and the lengths of the lists are right.
#[tactic(auto, unfolding(crate::specs::Writing::sizes, crate::specs::Writing::few, answers::specs::Verdicts::unless_refused))]
fn check_sizes(n: u8, on: &[u8], off: &[u8]) -> Result<(), Answer>
    ensures value { result ≡ unless_refused (sizes n on.now off.now) }
    ensures n_bound { OnOk result (n ≤ 8) }
    ensures on_bound { OnOk result (length on.now ≤ 128) }
    ensures off_bound { OnOk result (length off.now ≤ 128) }
{
    if n < 1 || 8 < n {
        return Err(answers::refused(Code::BadN as u8, Of::Nothing as u8, 0));
    }
    if on.len() % 2 == 1 {
        return Err(answers::refused(Code::OddList as u8, Of::F as u8, on.len()));
    }
    if off.len() % 2 == 1 {
        return Err(answers::refused(Code::OddList as u8, Of::G as u8, off.len()));
    }
    if 128 < on.len() {
        return Err(answers::refused(Code::BadCount as u8, Of::F as u8, 128));
    }
    if 128 < off.len() {
        return Err(answers::refused(Code::BadCount as u8, Of::G as u8, 128));
    }
    Ok(())
}

// Whether the cubes are right.
fn check_cubes(n: u8, on: &[u8], off: &[u8]) -> Result<(), Answer>
    requires { n ≤ 8 }
    ensures { result ≡ unless_refused (cubes n on.now off.now) }
{
    if let Err(fault) = records::cubes_fault(on, 0, n) {
        return Err(answers::refused_by(Of::F as u8, fault));
    }
    if let Err(fault) = records::cubes_fault(off, 0, n) {
        return Err(answers::refused_by(Of::G as u8, fault));
    }
    if let Err(fault) = records::clash_fault(on, 0, off) {
        return Err(answers::refused_by(Of::F as u8, fault));
    }
    Ok(())
}

// Stores the record at the buffer's start.
#[tactic(auto, using(answers::proofs::Stores::three_stored), unfolding(crate::specs::Writing::record_bytes))]
pub fn store(n: u8, on: &[u8], off: &[u8], out: &mut [u8])
    requires on_len_bound { length on.now ≤ 128 }
    requires off_len_bound { length off.now ≤ 128 }
    requires off_in_bounds { 5 + length on.now + length off.now ≤ length out.old }
    ensures { out.new ≡ sets out.old 0 (record_bytes n on.now off.now) }
{
    let a = on.len() / 2;
    let b = off.len() / 2;
    answers::put(out, 0, &[b'F', b'N', n, a as u8, b as u8]);
    answers::put(out, 5, on);
    answers::put(out, 5 + on.len(), off);
}

// Writes a function record. All is tested before the first byte is stored, so a refusal leaves the buffer alone.
pub fn write(n: u8, on: &[u8], off: &[u8], out: &mut [u8]) -> Answer
    ensures { Delivered (writing n on.now off.now (length out.old)) (record_bytes n on.now off.now) out.old out.new result }
{
    if let Err(refusal) = check_sizes(n, on, off) {
        return refusal;
    }
    if let Err(refusal) = check_cubes(n, on, off) {
        return refusal;
    }
    let needed = 5 + on.len() + off.len();
    if out.len() < needed {
        return answers::refused(Code::BufferShort as u8, Of::Out as u8, needed);
    }
    store(n, on, off, out);
    answers::accepted(Kind::AllElse as u8, needed)
}
