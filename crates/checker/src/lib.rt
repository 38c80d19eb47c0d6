// The checker: two function records and a claim of any content and length. Bytes are read in the order of document 01, and
// the first fault is the answer.
#![tactic(auto)]

ghost use Rattle.std.specs.Prelude.{◌≡◌, ◌≤◌, ◌<◌, OnOk, IfOk, length, get_or, drop};
ghost use Rattle.answers.specs.Verdicts.{verdict, reached, code_number};
ghost use Rattle.wirings.specs.Pairs.{cubes_in, pair_test, dead};
ghost use Rattle.partial.specs.Partial.{prefix};
ghost use Rattle.checker.specs.Checking.{header_fault, choice_code, Wires, match_fault, index_fault, closing_fault, tree_fault, refusal_fault, claim_fault, kind_of, checking};

use answers::{Answer, Code, Fault, Kind, Of};
use cubes::Cube;
use partial::Wiring;
use records::Functions;

// The first fault of choices that were read, and the wiring that has those before it.
#[derive(Clone, Copy)]
pub struct Unwired {
    pub fault: Fault,
    pub before: Wiring,
}

impl From<Unwired> for Fault {
    ghost from_gives = { λ unwired fault. fault ≡ unwired.fault };

    fn from(unwired: Unwired) -> Fault {
        unwired.fault
    }
}

// The second byte of the mark, and n.
#[tactic(auto, using(crate::proofs::Reached::verdicts), unfolding(crate::specs::Checking::header_fault))]
fn header_fault(claim: &[u8], mark: u8, n: u8) -> Result<(), Fault>
    ensures value { result ≡ verdict (header_fault claim.now mark n) }
    ensures there { OnOk result (2 < length claim.now) }
{
    answers::byte_fault(claim, 1, mark, mark, Code::WrongMark as u8)?;
    answers::byte_fault(claim, 2, n, n, Code::ClaimN as u8)
}

// What is wrong with the next choice, if anything is: the byte is no choice, or its input of g is used.
#[tactic(auto, unfolding(crate::specs::Checking::choice_code))]
fn choice_code(wiring: Wiring, choice: u8) -> Option<Code>
    ensures { code_number result ≡ choice_code wiring.masks.n (prefix wiring.masks) choice }
{
    if !partial::is_choice(wiring.masks.n, choice) {
        return Some(Code::BadChoice);
    }
    if !wiring.free(choice) {
        return Some(Code::UsedTwice);
    }
    None
}

// Reads the choices of n inputs from `from` to the end of the bytes, and makes them one by one.
#[tactic(auto, using(crate::proofs::Making::may_go_on, crate::proofs::Making::all_made))]
pub fn wire(n: u8, bytes: &[u8], from: usize) -> Result<Wiring, Unwired>
    requires n_bound { n ≤ 8 }
    requires from_in_bounds { from ≤ length bytes.now }
    ensures { Wires n (drop from bytes.now) from result }
{
    let mut wiring = Wiring::start(n);
    for (k, &choice) in bytes[from..].iter().enumerate() {
        if let Some(code) = choice_code(wiring, choice) {
            return Err(Unwired {
                fault: Fault::at(code, from + k),
                before: wiring,
            });
        }
        wiring = wiring.place(choice);
    }
    Ok(wiring)
}

// A match claim: its length, q, its choices, and last whether f and g disagree anywhere.
#[tactic(auto, using(crate::proofs::Reached::verdicts, crate::proofs::Disagreeing::agreement_by, crate::proofs::Making::wired_prefix, crate::proofs::Making::wired_n, crate::proofs::Making::wired_whole), unfolding(crate::specs::Checking::match_fault))]
fn match_fault(both: Functions, claim: &[u8]) -> Result<(), Fault>
    ensures { result ≡ verdict (match_fault both.entry.f.bytes.now both.entry.g.bytes.now claim.now) }
{
    let n = both.n();
    header_fault(claim, b'T', n)?;
    answers::length_fault(claim.len(), 4 + n as usize)?;
    answers::byte_fault(claim, 3, 0, 1, Code::BadQ as u8)?;
    let wiring = wire(n, claim, 4)?;
    match disagree::disagreement(wiring, both, claim[3]) {
        None => Ok(()),
        Some(pattern) => Err(Fault {
            pattern,
            ..Fault::at(Code::NotAgreeing, 0)
        }),
    }
}

// Byte k has to be an index into a list of so many cubes.
#[tactic(auto, using(crate::proofs::Reached::verdicts), unfolding(crate::specs::Checking::index_fault))]
fn index_fault(claim: &[u8], k: usize, number: usize) -> Result<(), Fault>
    ensures value { result ≡ verdict (index_fault claim.now k number) }
    ensures there { OnOk result (k < length claim.now) }
    ensures below { OnOk result (get_or claim.now k 0 < number) }
{
    match claim.get(k) {
        None => Err(Fault::at(Code::EndsEarly, claim.len())),
        Some(&index) if (index as usize) < number => Ok(()),
        Some(_) => Err(Fault::at(Code::BadNode, k)),
    }
}

// Whether cube u of a list of f and cube v of a list of g are a dead pair.
#[tactic(auto, using(crate::proofs::Closings::pairs_number, crate::proofs::Closings::pair_at))]
fn pair_dead(w: Wiring, ours: &[u8], theirs: &[u8], u: u8, v: u8) -> bool
    requires u_bound { u < cubes_in ours.now }
    requires v_bound { v < cubes_in theirs.now }
    ensures { result ≡ pair_test (dead w.masks.n (prefix w.masks)) ours.now theirs.now (0, u, v) }
{
    let [pos, neg] = cubes::each(ours)[u as usize];
    let ours = Cube { pos, neg };
    let [pos, neg] = cubes::each(theirs)[v as usize];
    w.dead(ours, Cube { pos, neg })
}

// The closing at a node: s, then u, then v, each of which has to be without fault, then whether the pair is dead. It ends after v.
#[tactic(auto, using(crate::proofs::Reached::readings), unfolding(crate::specs::Checking::closing_fault))]
fn closing(w: Wiring, q: u8, both: &Functions, claim: &[u8], node: usize) -> Result<usize, Fault>
    ensures value { result ≡ reached (closing_fault w.masks.n q both.now.f.bytes.now both.now.g.bytes.now claim.now (prefix w.masks) node) }
    ensures inside { IfOk result (λ end. end ≤ length claim.now) }
{
    answers::byte_fault(claim, node, 0, 1, Code::BadNode as u8)?;
    let ours = partial::side(both.f, claim[node]);
    let theirs = partial::side(both.g, partial::against(q, claim[node]));
    index_fault(claim, node + 1, ours.len() / 2)?;
    index_fault(claim, node + 2, theirs.len() / 2)?;
    if pair_dead(w, ours, theirs, claim[node + 1], claim[node + 2]) {
        Ok(node + 3)
    } else {
        Err(Fault::at(Code::NotDead, node))
    }
}

// The tree at a place: a closing, or a split into the trees of the free choices for the next input, each read by this function
// with one input less to be placed. It says where the tree ends.
#[tactic(auto, using(crate::proofs::Children::tree_node, crate::proofs::Children::all_read))]
fn tree(w: Wiring, q: u8, both: &Functions, claim: &[u8], start: usize) -> Result<usize, Fault>
    ensures value { result ≡ reached (tree_fault w.masks.n q both.now.f.bytes.now both.now.g.bytes.now claim.now (prefix w.masks) start) }
    ensures inside { IfOk result (λ end. end ≤ length claim.now) }
{
    if claim.len() <= start {
        return Err(Fault::at(Code::EndsEarly, claim.len()));
    }
    if claim[start] != 0xFF {
        return closing(w, q, both, claim, start);
    }
    if w.masks.depth == w.masks.n {
        return Err(Fault::at(Code::SplitAtN, start));
    }
    let mut next = start + 1;
    let mut c = w.offer(0);
    while c < 2 * w.masks.n {
        next = tree(w.place(partial::choice(c)), q, both, claim, next)?;
        c = w.offer(c + 1);
    }
    Ok(next)
}

// A refusal claim: a tree for q = 0, a tree for q = 1, and nothing after them.
#[tactic(auto, using(crate::proofs::Reached::readings, partial::proofs::Standing::stands_n, partial::proofs::Standing::stands_prefix), unfolding(crate::specs::Checking::refusal_fault))]
fn refusal_fault(both: Functions, claim: &[u8]) -> Result<(), Fault>
    ensures { result ≡ verdict (refusal_fault both.entry.f.bytes.now both.entry.g.bytes.now claim.now) }
{
    let n = both.n();
    header_fault(claim, b'F', n)?;
    let first = tree(Wiring::start(n), 0, &both, claim, 3)?;
    let second = tree(Wiring::start(n), 1, &both, claim, first)?;
    answers::length_fault(claim.len(), second)
}

// A claim: the first byte of its mark decides the kind.
#[tactic(auto, using(crate::proofs::Reached::verdicts), unfolding(crate::specs::Checking::claim_fault))]
fn claim_fault(both: Functions, claim: &[u8]) -> Result<(), Fault>
    ensures value { result ≡ verdict (claim_fault both.entry.f.bytes.now both.entry.g.bytes.now claim.now) }
    ensures there { OnOk result (0 < length claim.now) }
{
    match claim.first() {
        None => Err(Fault::at(Code::EndsEarly, 0)),
        Some(b'M') => match_fault(both, claim),
        Some(b'R') => refusal_fault(both, claim),
        Some(_) => Err(Fault::at(Code::WrongMark, 0)),
    }
}

// The kind of a claim, by the first byte of its mark.
#[tactic(auto, unfolding(crate::specs::Checking::kind_of))]
fn kind(mark: u8) -> u8
    ensures { result ≡ kind_of mark }
{
    match mark {
        b'M' => Kind::Match as u8,
        _ => Kind::NoMatch as u8,
    }
}

// Checks a claim on two functions: kind 1 where a match is accepted, 2 where a refusal is.
#[tactic(auto, using(answers::proofs::Verdicts::or_else_answer, answers::proofs::Verdicts::by_answered), unfolding(crate::specs::Checking::checking))]
pub fn check(f: &[u8], g: &[u8], claim: &[u8]) -> Answer
    ensures { result ≡ checking f.now g.now claim.now }
{
    let both = match records::both(f, g) {
        Ok(both) => both,
        Err(refusal) => return refusal,
    };
    match claim_fault(both, claim) {
        Ok(()) => answers::accepted(kind(claim[0]), claim.len()),
        Err(fault) => answers::refused_by(Of::Claim as u8, fault),
    }
}
