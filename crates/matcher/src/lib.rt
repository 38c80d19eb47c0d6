// The matcher: the first wiring, in the stated order, under which two functions agree; or a tree that says why there is none.
// The search goes by prefix and cuts off each prefix that has a dead pair. It also measures the tree, so that the length of the
// claim is known before its first byte is written.
#![tactic(auto)]

ghost use Rattle.std.specs.Prelude.{◌≡◌, ◌∷◌, ◌+◌, ◌≤◌, length};
ghost use Rattle.std.proofs.lemmas.List.Edits.{sets};
ghost use Rattle.answers.specs.Answers.{fits, Delivered};
ghost use Rattle.records.specs.Records.{inputs};
ghost use Rattle.partial.specs.Partial.{prefix, as_bytes};
ghost use Rattle.claims.specs.Trees.{tree_bytes};
ghost use Rattle.claims.specs.Claims.{match_claim, own_tree};
ghost use Rattle.matcher.specs.Matching.{own_refusal, claim_for, matching, first_from, searched};

use answers::{Answer, Code, Kind, Of};
use partial::Wiring;
use records::Functions;

// Searches the completions of a wiring, in order, for the first that agrees under q, and gives its choices, byte i for input i;
// or, where none does, the length of the tree that shows it. A node with a dead pair has none; another is split, and each child
// is searched by this function with one input less to be placed.
#[tactic(auto, using(crate::proofs::Searching::nodes, crate::proofs::Searching::steps))]
fn search(w: Wiring, q: u8, both: &Functions) -> Result<u64, usize>
    requires { w.masks.n ≡ inputs both.now.g.bytes.now }
    ensures { result ≡ searched (first_from w.masks.n q both.now.f.bytes.now both.now.g.bytes.now (prefix w.masks)) (length (tree_bytes (own_tree w.masks.n q both.now.f.bytes.now both.now.g.bytes.now (prefix w.masks)))) }
{
    if w.first_dead(both.f, both.g, q).is_some() {
        return Err(3);
    }
    if w.masks.depth == w.masks.n {
        return Ok(w.masks.choices);
    }
    let mut length = 1;
    let mut c = w.offer(0);
    while c < 2 * w.masks.n {
        match search(w.place(partial::choice(c)), q, both) {
            Ok(choices) => return Ok(choices),
            Err(more) => length += more,
        }
        c = w.offer(c + 1);
    }
    Err(length)
}

// Writes the matcher's own tree from `start` on, and says where it ends: a node with a dead pair is closed with the first, every
// other is split into the trees of the free choices for the next input, each written by this function.
#[tactic(auto, using(crate::proofs::Writing::writing, crate::proofs::Searching::steps))]
fn write_tree(w: Wiring, q: u8, both: &Functions, out: &mut [u8], start: usize) -> usize
    requires { start + length (tree_bytes (own_tree w.masks.n q both.now.f.bytes.now both.now.g.bytes.now (prefix w.masks))) ≤ length out.old }
    ensures value { result ≡ start + length (tree_bytes (own_tree w.masks.n q both.now.f.bytes.now both.now.g.bytes.now (prefix w.masks))) }
    ensures out_after { out.new ≡ sets out.old start (tree_bytes (own_tree w.masks.n q both.now.f.bytes.now both.now.g.bytes.now (prefix w.masks))) }
{
    if let Some(pair) = w.first_dead(both.f, both.g, q) {
        let closing = [pair.s, pair.u as u8, pair.v as u8];
        answers::put(out, start, &closing);
        return start + 3;
    }
    out[start] = 0xFF;
    let mut end = start + 1;
    let mut c = w.offer(0);
    while c < 2 * w.masks.n {
        end = write_tree(w.place(partial::choice(c)), q, both, out, end);
        c = w.offer(c + 1);
    }
    end
}

// Writes a match claim with the choices of n inputs.
#[tactic(auto, using(crate::proofs::LowBytes::low_bytes))]
fn write_match(n: u8, q: u8, choices: u64, out: &mut [u8]) -> Answer
    requires { n ≤ 8 }
    ensures { Delivered (fits 1 (length out.old) (4 + n)) (match_claim n (q ∷ as_bytes n choices)) out.old out.new result }
{
    let needed = 4 + n as usize;
    if out.len() < needed {
        return answers::refused(Code::BufferShort as u8, Of::Out as u8, needed);
    }
    answers::put(out, 0, &[b'M', b'T', n, q]);
    let mut rest = choices;
    for at in 4..needed {
        out[at] = (rest % 256) as u8;
        rest /= 256;
    }
    answers::accepted(Kind::Match as u8, needed)
}

// Writes the refusal claim, whose length was measured.
#[tactic(auto, using(crate::proofs::Claiming::trees_long))]
fn write_refusal(both: Functions, needed: usize, out: &mut [u8]) -> Answer
    requires { needed ≡ length (own_refusal both.f.bytes.now both.g.bytes.now) }
    ensures { Delivered (fits 2 (length out.old) (length (own_refusal both.entry.f.bytes.now both.entry.g.bytes.now))) (own_refusal both.entry.f.bytes.now both.entry.g.bytes.now) out.old out.new result }
{
    if needed > out.len() {
        return answers::refused(Code::BufferShort as u8, Of::Out as u8, needed);
    }
    let n = both.n();
    answers::put(out, 0, &[b'R', b'F', n]);
    let start = Wiring::start(n);
    let second = write_tree(start, 0, &both, out, 3);
    let end = write_tree(start, 1, &both, out, second);
    answers::accepted(Kind::NoMatch as u8, end)
}

// Matches two functions: the claim at the start of the buffer, kind 1 where it is a match, 2 where it is a refusal. All is known
// before the first byte is written, so a refusal by code leaves the buffer alone.
#[tactic(auto, using(crate::proofs::Searching::steps))]
pub fn find(f: &[u8], g: &[u8], out: &mut [u8]) -> Answer
    ensures { Delivered (matching f.now g.now (length out.old)) (claim_for f.now g.now) out.old out.new result }
{
    let both = match records::both(f, g) {
        Ok(both) => both,
        Err(refusal) => return refusal,
    };
    let n = both.n();
    let plain = match search(Wiring::start(n), 0, &both) {
        Ok(choices) => return write_match(n, 0, choices, out),
        Err(length) => length,
    };
    let turned = match search(Wiring::start(n), 1, &both) {
        Ok(choices) => return write_match(n, 1, choices, out),
        Err(length) => length,
    };
    write_refusal(both, 3 + plain + turned, out)
}
