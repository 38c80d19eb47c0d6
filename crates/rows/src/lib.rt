// The lines of a table one after another: what they told so far, and whether the next is at fault.
#![tactic(auto)]

ghost use Rattle.std.specs.Prelude.{◌≡◌, ◌^◌, ◌<◌, length};
ghost use Rattle.answers.specs.Verdicts.{code_number};
ghost use Rattle.terms.specs.Terms.{on_char, off_char};
ghost use Rattle.rows.specs.Known.{all_known, inputs_code, term_code, end_code, code_by, more_if, learnt, kept, kept_by, n_at_end, Gathered};

use answers::{Code, Fault};
use terms::{Line, Term};

// What the lines so far told: n of `.i` and the number of `.p`, where they stood; whether `.o` and `.type` stood; how many terms
// there were, and how many of them with output 1 and with output 0.
#[derive(Clone, Copy, PartialEq, Eq)]
pub struct Known {
    pub n: Option<u8>,
    pub one: bool,
    pub fr: bool,
    pub told: Option<u64>,
    pub terms: u64,
    pub on: usize,
    pub off: usize,
}

// Whether `.i`, `.o` and `.type` stood.
fn complete(known: Known) -> bool
    ensures { result ≡ all_known known }
{
    known.n.is_some() && known.one && known.fr
}

// What is wrong with `.i` and number v, where n was told before, or not.
fn inputs_code(n: Option<u8>, v: u64) -> Option<Code>
    ensures { code_number result ≡ inputs_code n v }
{
    match (n, v) {
        (Some(_), _) => Some(Code::BadLine),
        (None, 1..=8) => None,
        (None, _) => Some(Code::BadN),
    }
}

// What is wrong with a term line.
fn term_code(known: Known, term: Option<Term>) -> Option<Code>
    ensures { code_number result ≡ term_code known term }
{
    if !complete(known) {
        return Some(Code::Keyword);
    }
    match term {
        Some(term) if Some(term.n) == known.n => None,
        _ => Some(Code::BadLine),
    }
}

// What is wrong with `.e`.
fn end_code(known: Known) -> Option<Code>
    ensures { code_number result ≡ end_code known }
{
    if !complete(known) {
        return Some(Code::Keyword);
    }
    match known.told {
        Some(told) if told != known.terms => Some(Code::TermCount),
        _ => None,
    }
}

// What is wrong with a line, if anything is; a keyword that stood before is one too many. Guards tell that, and not a value that is
// tested later: so each keyword goes straight on to what is learnt of it.
fn judge(known: Known, line: Line) -> Option<Code>
    ensures { code_number result ≡ code_by known line }
{
    match line {
        Line::Nothing => None,
        Line::Inputs(v) => inputs_code(known.n, v),
        Line::Output if known.one => Some(Code::BadLine),
        Line::Fr if known.fr => Some(Code::BadLine),
        Line::Terms(_) if known.told.is_some() => Some(Code::BadLine),
        Line::Output | Line::Fr | Line::Terms(_) => None,
        Line::Term(term) => term_code(known, term),
        Line::End => end_code(known),
        Line::Malformed => Some(Code::BadLine),
        Line::Unknown => Some(Code::Keyword),
    }
}

// What is known after a line that has no fault.
fn learn(known: Known, line: Line) -> Known
    requires terms_bound { known.terms < 2 ^ 63 }
    requires on_bound { known.on < 2 ^ 63 }
    requires off_bound { known.off < 2 ^ 63 }
    ensures { result ≡ learnt known line }
{
    match line {
        Line::Inputs(v) => Known {
            n: Some((v % 256) as u8),
            ..known
        },
        Line::Output => Known { one: true, ..known },
        Line::Fr => Known { fr: true, ..known },
        Line::Terms(k) => Known {
            told: Some(k),
            ..known
        },
        Line::Term(Some(term)) => Known {
            terms: known.terms + 1,
            on: known.on + (term.out == b'1') as usize,
            off: known.off + (term.out == b'0') as usize,
            ..known
        },
        _ => known,
    }
}

// Keeps the cube of a term whose output is c behind the `count` that its list has, up to 64.
fn keep(list: &mut [u8], count: usize, term: Term, c: u8)
    requires { length list.old ≡ 128 }
    ensures { list.new ≡ kept c term count list.old }
{
    if term.out == c && count < 64 {
        answers::put(list, 2 * count, &[term.cube.pos, term.cube.neg]);
    }
}

// The same for either list, of a term line that has a term.
fn keep_term(on: &mut [u8], off: &mut [u8], known: Known, line: Line)
    requires on_len { length on.old ≡ 128 }
    requires off_len { length off.old ≡ 128 }
    ensures on_after { on.new ≡ kept_by on_char line known.on on.old }
    ensures off_after { off.new ≡ kept_by off_char line known.off off.old }
{
    if let Line::Term(Some(term)) = line {
        keep(on, known.on, term, b'1');
        keep(off, known.off, term, b'0');
    }
}

// n, at the end. There it is known, or the end would be at fault.
fn end(known: Known, line: Line) -> Option<u8>
    ensures { result ≡ n_at_end known line }
{
    match line {
        Line::End => known.n,
        _ => None,
    }
}

// What a walk over the lines finds: n and the number of cubes of either list. The cubes lie in two lent buffers, since nothing here
// has a heap; their number goes on beyond the room, because 4 is told only where no line is at fault.
#[derive(Clone, Copy, PartialEq, Eq)]
pub struct Scan {
    pub n: u8,
    pub on: usize,
    pub off: usize,
}

// Goes through the lines of a text up to the first faulty one or to `.e`, and keeps up to 64 cubes of either list.
#[tactic(auto, using(crate::proofs::Scanned::walking))]
pub fn gather(text: &[u8], on: &mut [u8], off: &mut [u8]) -> Result<Scan, Fault>
    requires on_len { length on.old ≡ 128 }
    requires off_len { length off.old ≡ 128 }
    ensures { Gathered text.now on.new off.new result }
{
    let mut known = Known {
        n: None,
        one: false,
        fr: false,
        told: None,
        terms: 0,
        on: 0,
        off: 0,
    };
    let mut at = 0;
    let mut row = 1;
    while at < text.len() {
        let said = terms::says(text, at);
        if let Some(code) = judge(known, said.line) {
            return Err(Fault::at(code, row));
        }
        if let Some(n) = end(known, said.line) {
            return Ok(Scan {
                n,
                on: known.on,
                off: known.off,
            });
        }
        keep_term(on, off, known, said.line);
        known = learn(known, said.line);
        at = words::line_end(text, said.to) + 1;
        row += 1;
    }
    Err(Fault::at(Code::Keyword, row))
}
