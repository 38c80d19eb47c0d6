// The work of the two programs, on slices: the input is cut into records, and answers and claims are turned into text. A program
// is left with reading and writing.
#![tactic(auto)]

ghost use Rattle.std.specs.Prelude.{◌≡◌, cond, map, ◌+◌, ◌*◌, ◌≤◌, min, eqb, ltb, length};
ghost use Rattle.std.proofs.lemmas.List.Edits.{sets};
ghost use Rattle.answers.specs.Answers.{Leaves};
ghost use Rattle.records.specs.Records.{record_end};
ghost use Rattle.words.specs.Words.{line};
ghost use Rattle.lines.specs.Lines.{hex, answer_line, text, this_record, what_follows, match_lines, check_lines};

use answers::Answer;

// Where the first record of the input is cut: where its counts say that it ends, untested, or at the input's end.
fn cut(input: &[u8]) -> usize
    ensures { result ≡ min (record_end input.now) (length input.now) }
{
    if input.len() < 5 {
        return input.len();
    }
    records::record_end(input).min(input.len())
}

// The first record of the input, and what follows it, as parts of the input.
fn this_record(input: &[u8]) -> &[u8]
    ensures { result.now ≡ this_record input.now }
{
    let end = cut(input);
    &input[..end]
}

fn what_follows(input: &[u8]) -> &[u8]
    ensures { result.now ≡ what_follows input.now }
{
    let end = cut(input);
    &input[end..]
}

// The line of an answer at the buffer's start; 37 bytes hold the longest, four numbers of three digits and one of twenty.
#[tactic(auto, using(crate::proofs::Texts::digits_most_by))]
fn put_answer(answer: Answer, out: &mut [u8]) -> usize
    requires { 37 ≤ length out.old }
    ensures upper_bound { result ≤ 37 }
    ensures value { result ≡ length (answer_line answer) }
    ensures out_after { out.new ≡ sets out.old 0 (answer_line answer) }
{
    let kind = words::put_number(answer.code as u64, b' ', out, 0);
    let record = words::put_number(answer.kind as u64, b' ', out, kind);
    let place = words::put_number(answer.record as u64, b' ', out, record);
    let pattern = words::put_number(answer.place as u64, b' ', out, place);
    words::put_number(answer.pattern as u64, b'\n', out, pattern)
}

// What follows a word: a blank where `i` of `count` words are done, LF where all are.
fn gap(i: usize, count: usize) -> u8
    ensures { result ≡ cond (ltb i count) 32 10 }
{
    if i < count { b' ' } else { b'\n' }
}

// The line of the bytes in hex, from `start` on: each byte is two digits and a blank, the last two digits and LF.
fn put_hex(bytes: &[u8], out: &mut [u8], start: usize)
    requires { start + length (line (map hex bytes.now)) ≤ length out.old }
    ensures { out.new ≡ sets out.old start (line (map hex bytes.now)) }
{
    let mut at = start;
    for (i, &b) in bytes.iter().enumerate() {
        let word = [
            words::digit(b / 16),
            words::digit(b % 16),
            gap(i + 1, bytes.len()),
        ];
        answers::put(out, at, &word);
        at += 3;
    }
}

// The text of an answer, and under it that of a claim, if there is room for both.
fn put_text(answer: Answer, claim: &[u8], out: &mut [u8]) -> usize
    requires { length claim.now ≤ 4096 }
    ensures upper_bound { result ≤ 37 + 3 * length claim.now }
    ensures leaves { Leaves (length (text answer claim.now)) (text answer claim.now) out.old out.new result }
{
    let mut first = [0u8; 37];
    let len = put_answer(answer, &mut first);
    let needed = len + 3 * claim.len();
    if out.len() < needed {
        return needed;
    }
    answers::put(out, 0, &first[..len]);
    put_hex(claim, out, len);
    needed
}

// How many bytes of the lent buffer are shown: the claim, if code is 0.
fn shown(answer: Answer) -> usize
    ensures { result ≡ cond (eqb answer.code 0) answer.place 0 }
{
    if answer.code == 0 { answer.place } else { 0 }
}

// What the match program prints for its input, if it fits, and the length of it, which is never above 37 + 3·4,096.
pub fn match_lines(input: &[u8], out: &mut [u8]) -> usize
    ensures upper_bound { result ≤ 12325 }
    ensures leaves { Leaves (length (match_lines input.now)) (match_lines input.now) out.old out.new result }
{
    let f = this_record(input);
    let g = this_record(what_follows(input));
    let mut claim = answers::room::<4096>();
    let answer = matcher::find(f, g, &mut claim);
    let len = shown(answer);
    put_text(answer, &claim[..len], out)
}

// A longer claim is not read.
const MOST_CLAIM: usize = 49152;

// What the check program prints for its input, if it fits, and the length of it: one line.
pub fn check_lines(input: &[u8], out: &mut [u8]) -> usize
    ensures upper_bound { result ≤ 37 }
    ensures leaves { Leaves (length (check_lines input.now)) (check_lines input.now) out.old out.new result }
{
    let f = this_record(input);
    let rest = what_follows(input);
    let g = this_record(rest);
    let claim = what_follows(rest);
    if claim.len() > MOST_CLAIM {
        return answers::leave(out, b"too long\n");
    }
    put_text(checker::check(f, g, claim), b"", out)
}
