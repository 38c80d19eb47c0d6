// One line of a table: what it says, and the lines of terms.
#![tactic(auto)]

ghost use Rattle.std.specs.Prelude.{◌≡◌, cond, ◌&&◌, ◌∷◌, [], ◌+◌, ◌≤◌, ◌<◌, ltb, eqb, length, drop};
ghost use Rattle.bits.specs.Bits.{has};
ghost use Rattle.std.proofs.lemmas.List.Edits.{sets};
ghost use Rattle.rules.specs.Lists.{passed_over, same};
ghost use Rattle.words.specs.Words.{words, before, ends_bare, line};
ghost use Rattle.terms.specs.Terms.{is_input, on_char, off_char, keyword_line, says_by, dash, characters, term_lines};
ghost use Rattle.terms.specs.Seen.{masked, term_seen, seen, numbered, after};

use cubes::Cube;

// A term that is well formed for n inputs: its cube, and the character of its output.
#[derive(Clone, Copy, PartialEq, Eq)]
pub struct Term {
    pub n: u8,
    pub cube: Cube,
    pub out: u8,
}

// What a line says. A term line may have no well formed term.
#[derive(Clone, Copy, PartialEq, Eq)]
pub enum Line {
    Nothing,
    Inputs(u64),
    Output,
    Fr,
    Terms(u64),
    Term(Option<Term>),
    End,
    Malformed,
    Unknown,
}

// Whether a character may stand for an input.
fn input(c: u8) -> bool
    ensures { result ≡ is_input c }
{
    matches!(c, b'0' | b'1' | b'-')
}

// What a character is worth to the mask of those with this mark. It is added and not set by cases: what stands in a table is hard to
// foretell, and a branch on it costs more than all else.
fn worth(c: u8, mark: u8, weight: u32) -> u32
    ensures upper_bound { result ≤ weight }
    ensures value { result ≡ cond (eqb c mark) weight 0 }
{
    if c == mark { weight } else { 0 }
}

// The term of up to eight characters, input 0 first, with this output; none where one is not 0, 1 or -. It stays a function of its own:
// there its loop is unrolled, while within the walk over the lines it ran out of registers.
#[tactic(auto, using(crate::proofs::Seen::masking))]
#[inline(never)]
fn masks(w: &[u8], out: u8) -> Option<Term>
    requires { length w.now ≤ 8 }
    ensures { result ≡ masked w.now out }
{
    let mut pos = 0u32;
    let mut neg = 0u32;
    let mut weight = 1u32;
    for &c in w {
        if !input(c) {
            return None;
        }
        pos += worth(c, b'1', weight);
        neg += worth(c, b'0', weight);
        weight *= 2;
    }
    let cube = Cube {
        pos: pos as u8,
        neg: neg as u8,
    };
    Some(Term {
        n: w.len() as u8,
        cube,
        out,
    })
}

// A term line, from its first word and the one that is alone after it.
#[tactic(auto, using(crate::proofs::Seen::term_by))]
fn read_term(w: &[u8], out: &[u8], alone: bool) -> Option<Term>
    ensures { result ≡ term_seen w.now (after alone out.now) }
{
    if 8 < w.len() || !alone {
        return None;
    }
    match *out {
        [c @ (b'0' | b'1' | b'-' | b'~')] => masks(w, c),
        _ => None,
    }
}

// A number that stands alone behind a keyword.
fn number(v: &[u8], alone: bool) -> Option<u64>
    ensures { result ≡ numbered alone v.now }
{
    if !alone {
        return None;
    }
    words::count(v)
}

// Whether this very word stands alone behind a keyword.
fn only(v: &[u8], word: &[u8], alone: bool) -> bool
    ensures { result ≡ alone && same v.now word.now }
{
    alone && words::same(v, word)
}

// A line whose first word begins with a dot, from that word and the one that is alone after it.
#[tactic(auto, using(crate::proofs::Keywords::keyword_told))]
fn keyword(name: &[u8], v: &[u8], alone: bool) -> Line
    ensures { result ≡ seen (keyword_line name.now (after alone v.now)) }
{
    if words::same(name, b".e") {
        return Line::End;
    }
    if words::same(name, b".i") {
        return number(v, alone).map_or(Line::Malformed, Line::Inputs);
    }
    if words::same(name, b".o") {
        return if only(v, b"1", alone) {
            Line::Output
        } else {
            Line::Malformed
        };
    }
    if words::same(name, b".type") {
        return if only(v, b"fr", alone) {
            Line::Fr
        } else {
            Line::Malformed
        };
    }
    if words::same(name, b".p") {
        return number(v, alone).map_or(Line::Malformed, Line::Terms);
    }
    Line::Unknown
}

// Whether nothing more of a line comes at a place: the text ends there, the line, or what stands before its comment.
#[tactic(auto, using(crate::proofs::InLine::ended_told))]
fn ended(text: &[u8], at: usize) -> bool
    requires { at ≤ length text.now }
    ensures { result ≡ eqb (passed_over ends_bare (drop at text.now)) 0 }
{
    matches!(text.get(at), None | Some(b'\n' | b'#'))
}

// Whether the word from `start` to `end` is there, and no other behind it: the next would start at `next`.
fn last(text: &[u8], start: usize, end: usize, next: usize) -> bool
    requires { next ≤ length text.now }
    ensures { result ≡ ltb start end && eqb (passed_over ends_bare (drop next text.now)) 0 }
{
    start < end && ended(text, next)
}

// What a line says, and a place in it up to which it was looked at, so that the way to its end need not begin again.
#[derive(Clone, Copy, PartialEq, Eq)]
pub struct Said {
    pub line: Line,
    pub to: usize,
}

// What the line from `at` on says, its comment apart: its words are looked for in the text itself, which is gone through once.
#[tactic(auto, using(crate::proofs::InLine::scanning))]
pub fn says(text: &[u8], at: usize) -> Said
    requires { at ≤ length text.now }
    ensures line_value { result.line ≡ seen (says_by (words (before ends_bare (drop at text.now)))) }
    ensures at_le_to { at ≤ result.to }
    ensures to_bound { result.to ≤ at + passed_over ends_bare (drop at text.now) }
{
    let from = words::word_start(text, at);
    if ended(text, from) {
        return Said {
            line: Line::Nothing,
            to: from,
        };
    }
    let to = words::word_end(text, from);
    let start = words::word_start(text, to);
    let end = words::word_end(text, start);
    let next = words::word_start(text, end);
    let alone = last(text, start, end, next);
    if text[from] == b'.' {
        return Said {
            line: keyword(&text[from..to], &text[start..end], alone),
            to: next,
        };
    }
    Said {
        line: Line::Term(read_term(&text[from..to], &text[start..end], alone)),
        to: next,
    }
}

// The character of input i in a cube.
#[tactic(auto, unfolding(bits::specs::Bits::bit))]
fn character(cube: Cube, i: u8) -> u8
    requires { i < 8 }
    ensures { result ≡ cond (has cube.pos i) on_char (cond (has cube.neg i) off_char dash) }
{
    if (cube.pos >> i) & 1 == 1 {
        return b'1';
    }
    if (cube.neg >> i) & 1 == 1 {
        return b'0';
    }
    b'-'
}

// Puts the line of a term into the buffer from `start` on: n characters, a blank, the output and LF.
#[tactic(auto, using(crate::proofs::Writing::line_steps))]
fn put_term(cube: Cube, n: u8, c: u8, out: &mut [u8], start: usize)
    requires n_bound { n ≤ 8 }
    requires n_in_bounds { start + (n + 3) ≤ length out.old }
    ensures { out.new ≡ sets out.old start (line (characters n cube.pos cube.neg ∷ (c ∷ []) ∷ [])) }
{
    for i in 0..n {
        out[start + i as usize] = character(cube, i);
    }
    answers::put(out, start + n as usize, &[b' ', c, b'\n']);
}

// Puts a term line for each cube of the list into the buffer from `start` on, and says where the last ends.
#[tactic(auto, using(crate::proofs::Writing::list_steps))]
pub fn put_terms(list: &[u8], n: u8, c: u8, out: &mut [u8], start: usize) -> usize
    requires n_bound { n ≤ 8 }
    requires list_in_bounds { start + length (term_lines n c list.now) ≤ length out.old }
    ensures value { result ≡ start + length (term_lines n c list.now) }
    ensures out_after { out.new ≡ sets out.old start (term_lines n c list.now) }
{
    let mut at = start;
    for &[pos, neg] in cubes::each(list) {
        put_term(Cube { pos, neg }, n, c, out, at);
        at += n as usize + 3;
    }
    at
}
