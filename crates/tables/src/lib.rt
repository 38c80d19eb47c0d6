// Espresso tables with one output: a text is read into a function record, and a record is written as a text.
#![tactic(auto)]

ghost use Rattle.std.specs.Prelude.{◌≡◌, ◌≤◌, ◌<◌, length};
ghost use Rattle.std.proofs.lemmas.List.Edits.{sets};
ghost use Rattle.answers.specs.Answers.{Delivered};
ghost use Rattle.writer.specs.Writing.{record_bytes};
ghost use Rattle.tables.specs.Tables.{record_of, table_reading, table_head, table_of, table_writing};
ghost use Rattle.tables.specs.Ready.{Ready, record_reading};

use answers::{Answer, Code, Fault, Kind, Of};
use records::Record;

// Stores the record of two lists of cubes, unless an on cube shares a pattern with an off cube or there is no room.
fn deliver(n: u8, on: &[u8], off: &[u8], out: &mut [u8]) -> Answer
    requires { Ready n on.now off.now }
    ensures { Delivered (record_reading (record_bytes n on.now off.now) (length out.old)) (record_bytes n on.now off.now) out.old out.new result }
{
    if let Err(clash) = records::clash_fault(on, 0, off) {
        return answers::refused_by(
            Of::F as u8,
            Fault {
                place: 5 + clash.place,
                ..clash
            },
        );
    }
    let long = 5 + on.len() + off.len();
    if out.len() < long {
        return answers::refused(Code::BufferShort as u8, Of::Out as u8, long);
    }
    writer::store(n, on, off, out);
    answers::accepted(Kind::AllElse as u8, long)
}

// Reads a table into a function record. All is tested before the first byte is stored, so a refusal leaves the buffer alone.
pub fn read_table(text: &[u8], out: &mut [u8]) -> Answer
    ensures { Delivered (table_reading text.now (length out.old)) (record_of text.now) out.old out.new result }
{
    let mut on = [0u8; 128];
    let mut off = [0u8; 128];
    let found = match rows::gather(text, &mut on, &mut off) {
        Ok(found) => found,
        Err(fault) => return answers::refused_by(Of::F as u8, fault),
    };
    if 64 < found.on {
        return answers::refused(Code::BadCount as u8, Of::F as u8, 3);
    }
    if 64 < found.off {
        return answers::refused(Code::BadCount as u8, Of::F as u8, 4);
    }
    let a = 2 * found.on;
    let b = 2 * found.off;
    deliver(found.n, &on[..a], &off[..b], out)
}

// The keyword lines of a table with n inputs and so many terms, at the buffer's start; 26 bytes hold the longest.
fn put_head(n: u8, terms: u8, out: &mut [u8]) -> usize
    requires n_bound { n < 10 }
    requires in_bounds { 26 ≤ length out.old }
    ensures upper_bound { result ≤ 26 }
    ensures value { result ≡ length (table_head n terms) }
    ensures out_after { out.new ≡ sets out.old 0 (table_head n terms) }
{
    answers::put(out, 0, b".i ");
    let at = words::put_number(n as u64, b'\n', out, 3);
    answers::put(out, at, b".o 1\n.type fr\n.p ");
    words::put_number(terms as u64, b'\n', out, at + 17)
}

// Writes the table of a function record. All is tested before the first byte is stored, so a refusal leaves the buffer alone.
pub fn write_table(record: &[u8], out: &mut [u8]) -> Answer
    ensures { Delivered (table_writing «record».now (length out.old)) (table_of «record».now) out.old out.new result }
{
    if let Err(fault) = records::record_fault(record) {
        return answers::refused_by(Of::F as u8, fault);
    }
    let n = record[2];
    let terms = record[3] + record[4];
    let mut head = [0u8; 26];
    let len = put_head(n, terms, &mut head);
    let needed = len + terms as usize * (n as usize + 3) + 3;
    if out.len() < needed {
        return answers::refused(Code::BufferShort as u8, Of::Out as u8, needed);
    }
    answers::put(out, 0, &head[..len]);
    let record = Record { bytes: record };
    let on_end = terms::put_terms(record.on_list(), n, b'1', out, len);
    let off_end = terms::put_terms(record.off_list(), n, b'0', out, on_end);
    answers::put(out, off_end, b".e\n");
    answers::accepted(Kind::AllElse as u8, needed)
}
