// The five numbers of an answer, faults found while bytes are read in order, and writing into a lent buffer.
#![tactic(auto)]

ghost use Rattle.std.specs.Prelude.{◌≡◌, ℕ, [], ◌∷◌, ◌+◌, ◌^◌, ◌≤◌, ◌<◌, OnOk, length, get_or};
ghost use Rattle.std.proofs.lemmas.List.Edits.{sets};
ghost use Rattle.answers.specs.Answers.{fault, byte_fault, length_fault, refused_by, stored_if_room, Leaves, packed, told, Tells};
ghost use Rattle.answers.specs.Answers.{accepted as accepting, refused as refusing};
ghost use Rattle.answers.specs.Verdicts.{number, verdict, fault_of, byte_test};

// What reader, summary, matcher, checker and writer answer, in the numbers of document 01. Five numbers and no Result: C is told
// them in one word, and the theorems on `checking`, `matching` and the others speak of them (`Tells`).
#[derive(Clone, Copy, PartialEq, Eq)]
pub struct Answer {
    pub code: u8,
    pub kind: u8,
    pub record: u8,
    pub place: usize,
    pub pattern: u8,
}

// What an accepted answer is of: its kind.
#[derive(Clone, Copy, PartialEq, Eq)]
pub enum Kind {
    Match = 1,
    NoMatch = 2,
    AllElse = 3,
}

// What a refused answer is of: its record. The writer's two lists are told as f and g are, and a table as f.
#[derive(Clone, Copy, PartialEq, Eq)]
pub enum Of {
    Nothing = 0,
    F = 1,
    G = 2,
    Claim = 3,
    Out = 4,
}

// Why something is refused: its code.
#[derive(Clone, Copy, PartialEq, Eq)]
pub enum Code {
    EndsEarly = 1,
    WrongMark = 2,
    BadN = 3,
    BadCount = 4,
    BeyondN = 5,
    InBothMasks = 6,
    OnAndOff = 7,
    BytesFollow = 8,
    NDiffers = 9,
    ClaimN = 10,
    BadQ = 11,
    BadChoice = 12,
    UsedTwice = 13,
    NotAgreeing = 14,
    BadNode = 15,
    SplitAtN = 16,
    NotDead = 17,
    BufferShort = 18,
    OddList = 19,
    BadLine = 20,
    Keyword = 21,
    TermCount = 22,
}

// A fault: its code, its place in the bytes that were read and the pattern that it names. Its code may be any number, as in the
// functions below: a `Code` there would ask more of their callers.
#[derive(Clone, Copy, PartialEq, Eq)]
pub struct Fault {
    pub code: u8,
    pub place: usize,
    pub pattern: u8,
}

impl Fault {
    // One that names no pattern.
    pub fn at(code: Code, place: usize) -> Self
        ensures { result ≡ fault (number code) place }
    {
        Fault {
            code: code as u8,
            place,
            pattern: 0,
        }
    }
}

pub fn accepted(kind: u8, place: usize) -> Answer
    ensures { result ≡ accepting kind place }
{
    Answer {
        code: 0,
        kind,
        record: 0,
        place,
        pattern: 0,
    }
}

pub fn refused(code: u8, who: u8, place: usize) -> Answer
    ensures { result ≡ refusing code who place }
{
    Answer {
        code,
        kind: 0,
        record: who,
        place,
        pattern: 0,
    }
}

// Refused for a fault in record `who`.
pub fn refused_by(who: u8, fault: Fault) -> Answer
    ensures { result ≡ refused_by who fault }
{
    Answer {
        code: fault.code,
        kind: 0,
        record: who,
        place: fault.place,
        pattern: fault.pattern,
    }
}

// Byte k of a header has to be there, and from low to high.
#[tactic(auto, unfolding(crate::specs::Answers::byte_fault, crate::specs::Verdicts::fault_of, crate::specs::Verdicts::byte_test))]
pub fn byte_fault(s: &[u8], k: usize, low: u8, high: u8, code: u8) -> Result<(), Fault>
    ensures value { fault_of result ≡ byte_fault s.now k low high code }
    ensures tests { result ≡ byte_test s.now k low high code }
    ensures there { OnOk result (k < length s.now) }
    ensures least { OnOk result (low ≤ get_or s.now k 0) }
    ensures most { OnOk result (get_or s.now k 0 ≤ high) }
{
    if s.len() <= k {
        return Err(Fault::at(Code::EndsEarly, s.len()));
    }
    if s[k] < low || high < s[k] {
        return Err(Fault {
            code,
            place: k,
            pattern: 0,
        });
    }
    Ok(())
}

// The bytes have to end just at `end`.
#[tactic(auto, unfolding(crate::specs::Answers::length_fault, crate::specs::Verdicts::verdict))]
pub fn length_fault(len: usize, end: usize) -> Result<(), Fault>
    ensures value { result ≡ verdict (length_fault len end) }
    ensures ends { OnOk result (len ≡ end) }
{
    if len < end {
        return Err(Fault::at(Code::EndsEarly, len));
    }
    if end < len {
        return Err(Fault::at(Code::BytesFollow, end));
    }
    Ok(())
}

// Room for so many bytes, to be lent: all zero.
pub fn room<const N: usize>() -> [u8; N]
    ensures len { N ≡ length result }
    ensures zero { (i : ℕ) → get_or result i 0 ≡ 0 }
{
    [0; N]
}

// Stores the bytes into the buffer from `at` on, one by one: `copy_from_slice` would have the archive ask for `memmove`.
#[tactic(auto, using(crate::proofs::Stores::storing))]
pub fn put(out: &mut [u8], at: usize, bytes: &[u8])
    requires { at + length bytes.now ≤ length out.old }
    ensures { out.new ≡ sets out.old at bytes.now }
{
    for (i, &b) in bytes.iter().enumerate() {
        out[at + i] = b;
    }
}

// Stores the bytes at the buffer's start, if they fit, and tells how many they are.
#[tactic(auto, using(crate::proofs::Stores::stored_with_room, crate::proofs::Stores::stored_without_room))]
pub fn leave(out: &mut [u8], bytes: &[u8]) -> usize
    ensures { Leaves (length bytes.now) bytes.now out.old out.new result }
{
    let len = bytes.len();
    if out.len() < len {
        return len;
    }
    put(out, 0, bytes);
    len
}

// Stores three numbers at the slice's start, if it has room for them.
#[tactic(auto, unfolding(crate::specs::Answers::stored_if_room))]
pub fn store_three(numbers: &mut [u64], x: u64, y: u64, z: u64)
    ensures { numbers.new ≡ stored_if_room (x ∷ y ∷ z ∷ []) numbers.old }
{
    if numbers.len() < 3 {
        return;
    }
    numbers[..3].copy_from_slice(&[x, y, z]);
}

// One number for a host.
#[tactic(auto, unfolding(crate::specs::Answers::packed))]
pub fn pack(answer: Answer) -> u64
    requires { answer.place < 2 ^ 32 }
    ensures value { result ≡ packed answer }
    ensures tells { Tells answer result }
{
    let code = answer.code as u64;
    let kind = answer.kind as u64;
    let record = answer.record as u64;
    let place = answer.place as u64;
    let pattern = answer.pattern as u64;
    code + 256 * kind + 65536 * record + 16777216 * place + 0x100_0000_0000_0000 * pattern
}

// The largest place that the number has room for.
const MOST_TOLD: usize = 0xFFFF_FFFF;

// One number for a host, whatever the place: beyond the largest that fits, that one is told.
#[tactic(auto, unfolding(crate::specs::Answers::told))]
pub fn tell(answer: Answer) -> u64
    ensures value { result ≡ packed (told answer) }
    ensures tells { Tells (told answer) result }
{
    pack(Answer {
        place: answer.place.min(MOST_TOLD),
        ..answer
    })
}
