// Function records: the reader, the summary and the bytes at fault. Bytes are read in the order of document 01, and the
// first fault is the answer.
#![tactic(auto)]

ghost use Rattle.std.specs.Prelude.{◌≡◌, ◌≤◌, OnOk, IfOk, length, drop};
ghost use Rattle.std.specs.Result.{result_and};
ghost use Rattle.answers.specs.Verdicts.{verdict, unless_refused, code_number};
ghost use Rattle.records.specs.Records.{cube_code, clash_code, clash_pattern, no_pattern, first_fault, header_fault, record_fault, reading, summing, both_read};
ghost use Rattle.records.specs.Records.{record_end, on_list as on_bytes, off_list as off_bytes, inputs, is_cubes, AtFault, Accepted, Sized};

use answers::{Answer, Code, Fault, Kind, Of};
use cubes::Cube;

// The reader's answer, with n, a and b, zeros in a refusal: `probe_read` hands all four over as they are.
#[derive(Clone, Copy, PartialEq, Eq)]
pub struct Reading {
    pub answer: Answer,
    pub n: u8,
    pub a: u8,
    pub b: u8,
}

// The summary: on patterns, off patterns, inputs in use, zeros in a refusal: `zap_summary` hands them over as they are.
#[derive(Clone, Copy, PartialEq, Eq)]
pub struct Figures {
    pub answer: Answer,
    pub on: u32,
    pub off: u32,
    pub used: u32,
}

// A record that ends where its header says, so that its lists are parts of it.
#[derive(Clone, Copy)]
pub struct Record<'a> {
    pub bytes: &'a [u8],
    ghost ends: { record_end bytes.now ≡ length bytes.now },
}

// Two accepted records with as many inputs: the functions that are matched.
#[derive(Clone, Copy)]
pub struct Functions<'a> {
    pub f: Record<'a>,
    pub g: Record<'a>,
    ghost accepted: { Accepted f.bytes.now g.bytes.now },
}

// Where the cubes of a record start.
const CUBES: usize = 5;

impl<'a> Record<'a> {
    // The on list, as a part of the record.
    #[tactic(auto, unfolding(crate::specs::Records::on_list))]
    pub fn on_list(self) -> &'a [u8]
        ensures { result.now ≡ on_bytes self.entry.bytes.now }
    {
        let end = CUBES + 2 * (self.bytes[3] as usize);
        &self.bytes[CUBES..end]
    }

    // The off list, as a part of the record.
    #[tactic(auto, unfolding(crate::specs::Records::off_list))]
    pub fn off_list(self) -> &'a [u8]
        ensures { result.now ≡ off_bytes self.entry.bytes.now }
    {
        let start = CUBES + 2 * (self.bytes[3] as usize);
        &self.bytes[start..]
    }
}

impl Functions<'_> {
    // How many inputs each of them has.
    #[tactic(auto, using(crate::proofs::Frame::few_inputs))]
    pub fn n(self) -> u8
        ensures value { result ≡ inputs self.entry.g.bytes.now }
        ensures same { result ≡ inputs self.entry.f.bytes.now }
        ensures most { result ≤ 8 }
    {
        self.g.bytes[2]
    }
}

// What is wrong with one cube of n inputs, if anything is.
#[tactic(auto, using(crate::proofs::Codes::code_five, crate::proofs::Codes::code_six, crate::proofs::Codes::code_none))]
fn cube_code(cube: Cube, n: u8) -> Option<Code>
    requires { n ≤ 8 }
    ensures { code_number result ≡ cube_code n cube.pos cube.neg }
{
    let named = (cube.pos | cube.neg) as u32;
    let both = cube.pos & cube.neg;
    if named >> n != 0 {
        return Some(Code::BeyondN);
    }
    if both != 0 {
        return Some(Code::InBothMasks);
    }
    None
}

// The first cube from `from` on with a fault of its own.
pub fn cubes_fault(list: &[u8], from: usize, n: u8) -> Result<(), Fault>
    requires n_bound { n ≤ 8 }
    requires from_in_bounds { from ≤ length list.now }
    ensures { result ≡ verdict (first_fault (cube_code n) no_pattern (drop from list.now) from) }
{
    for (k, &[pos, neg]) in cubes::each(&list[from..]).iter().enumerate() {
        if let Some(code) = cube_code(Cube { pos, neg }, n) {
            return Err(Fault::at(code, from + 2 * k));
        }
    }
    Ok(())
}

// The first on cube from `from` on that shares a pattern with an off cube, and the smallest that it shares with any. One loop for
// both tests would have to say in its contract what the test says, which is longer than the loop.
pub fn clash_fault(on: &[u8], from: usize, off: &[u8]) -> Result<(), Fault>
    requires { from ≤ length on.now }
    ensures { result ≡ verdict (first_fault (clash_code 8 off.now) (clash_pattern 8 off.now) (drop from on.now) from) }
{
    for (k, &[pos, neg]) in cubes::each(&on[from..]).iter().enumerate() {
        if let Some(pattern) = (Cube { pos, neg }).least_with(off) {
            return Err(Fault {
                pattern,
                ..Fault::at(Code::OnAndOff, from + 2 * k)
            });
        }
    }
    Ok(())
}

// Where a record ends, by its header.
pub fn record_end(s: &[u8]) -> usize
    requires { 5 ≤ length s.now }
    ensures { result ≡ record_end s.now }
{
    CUBES + 2 * (s[3] as usize + s[4] as usize)
}

// The first fault of the header: its bytes one by one, then the length.
#[tactic(auto, using(answers::proofs::Verdicts::verdict_then, answers::proofs::Verdicts::byte_verdict), unfolding(crate::specs::Records::header_fault, crate::specs::Records::header_bytes))]
fn header_fault(s: &[u8]) -> Result<(), Fault>
    ensures value { result ≡ verdict (header_fault s.now) }
    ensures ok { OnOk result (Sized s.now) }
{
    answers::byte_fault(s, 0, b'F', b'F', Code::WrongMark as u8)?;
    answers::byte_fault(s, 1, b'N', b'N', Code::WrongMark as u8)?;
    answers::byte_fault(s, 2, 1, 8, Code::BadN as u8)?;
    answers::byte_fault(s, 3, 0, 64, Code::BadCount as u8)?;
    answers::byte_fault(s, 4, 0, 64, Code::BadCount as u8)?;
    answers::length_fault(s.len(), record_end(s))
}

// The first fault of a record, if any.
#[tactic(auto, using(answers::proofs::Verdicts::verdict_then), unfolding(crate::specs::Records::record_fault))]
pub fn record_fault(s: &[u8]) -> Result<(), Fault>
    ensures value { result ≡ verdict (record_fault s.now) }
    ensures ok { OnOk result (Sized s.now) }
{
    header_fault(s)?;
    cubes_fault(s, CUBES, s[2])?;
    let end = CUBES + 2 * (s[3] as usize);
    clash_fault(&s[..end], CUBES, Record { bytes: s }.off_list())
}

// Reads a function record: its n, a and b, or its first fault.
#[tactic(auto, using(crate::proofs::Frame::reading_by))]
pub fn read(s: &[u8]) -> Reading
    ensures { result ≡ reading s.now }
{
    match record_fault(s) {
        Ok(()) => Reading {
            answer: answers::accepted(Kind::AllElse as u8, s.len()),
            n: s[2],
            a: s[3],
            b: s[4],
        },
        Err(fault) => Reading {
            answer: answers::refused_by(Of::F as u8, fault),
            n: 0,
            a: 0,
            b: 0,
        },
    }
}

// Counts an accepted record's on patterns, off patterns and inputs in use, each pattern once however many cubes hold it.
#[tactic(auto, using(crate::proofs::Frame::summing_by))]
pub fn summary(s: &[u8]) -> Figures
    ensures { result ≡ summing s.now }
{
    if let Err(fault) = record_fault(s) {
        return Figures {
            answer: answers::refused_by(Of::F as u8, fault),
            on: 0,
            off: 0,
            used: 0,
        };
    }
    let record = Record { bytes: s };
    let on = record.on_list();
    let off = record.off_list();
    Figures {
        answer: answers::accepted(Kind::AllElse as u8, s.len()),
        on: cubes::patterns(on, s[2]),
        off: cubes::patterns(off, s[2]),
        used: cubes::used(on, off),
    }
}

// Two functions, if both records are accepted and have as many inputs: the faults of f, then those of g, then 9.
#[tactic(auto, using(crate::proofs::Frame::both_by))]
pub fn both<'a>(f: &'a [u8], g: &'a [u8]) -> Result<Functions<'a>, Answer>
    ensures value { result_and result (Ok (tt {0})) ≡ unless_refused (both_read f.now g.now) }
    ensures same_f { IfOk result (λ both. both.f.bytes.now ≡ f.now) }
    ensures same_g { IfOk result (λ both. both.g.bytes.now ≡ g.now) }
    ensures memory_f { IfOk result (λ both. both.f.bytes.ref_ptr ≡ f.entry.ref_ptr) }
    ensures memory_g { IfOk result (λ both. both.g.bytes.ref_ptr ≡ g.entry.ref_ptr) }
    ensures sized_f { OnOk result (Sized f.now) }
    ensures sized_g { OnOk result (Sized g.now) }
{
    if let Err(fault) = record_fault(f) {
        return Err(answers::refused_by(Of::F as u8, fault));
    }
    if let Err(fault) = record_fault(g) {
        return Err(answers::refused_by(Of::G as u8, fault));
    }
    if f[2] != g[2] {
        return Err(answers::refused(Code::NDiffers as u8, Of::G as u8, 2));
    }
    Ok(Functions {
        f: Record { bytes: f },
        g: Record { bytes: g },
    })
}

// Whether the fault is a cube's: it names an input beyond n or one twice, or shares a pattern.
fn is_cubes(fault: Fault) -> bool
    ensures { result ≡ is_cubes fault }
{
    (Code::BeyondN as u8..=Code::OnAndOff as u8).contains(&fault.code)
}

// The two bytes of a cube at fault, as they stand in the caller's own record, f or g; else the empty part at the start of f.
pub fn at_fault<'a>(f: &'a [u8], g: &'a [u8]) -> &'a [u8]
    ensures { AtFault f.now g.now f.entry.ref_ptr g.entry.ref_ptr result.ref_ptr result.now }
{
    if let Err(fault) = record_fault(f) {
        if is_cubes(fault) {
            return &f[fault.place..fault.place + 2];
        }
        return &f[..0];
    }
    if let Err(fault) = record_fault(g) {
        if is_cubes(fault) {
            return &g[fault.place..fault.place + 2];
        }
    }
    &f[..0]
}
