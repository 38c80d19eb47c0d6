// Text as bytes: where lines and words end, and numbers in decimal, read and written.
#![tactic(auto)]

ghost use Rattle.std.specs.Prelude.{◌≡◌, ℕ, Bool, not, ◌++◌, ◌∷◌, [], ◌+◌, ◌*◌, ◌≤◌, ◌<◌, min, length, drop};
ghost use Rattle.std.proofs.lemmas.List.Edits.{sets};
ghost use Rattle.rules.specs.Lists.{passed_over, same as same_list};
ghost use Rattle.words.specs.Words.{is_lf, is_blank, ends_word, digit as glyph, decimal};
ghost use Rattle.words.specs.Counted.{most, counted};
ghost use Rattle.words.specs.Eight.{bytes};

// Where the first character from `at` on stands at which a text stops, or where the text ends. A `while`: with a `for` or `position`
// each character costs a jump more.
fn passed<F: FnMut(&u8) -> bool>(text: &[u8], at: usize, stops: F) -> usize
    requires at_in_bounds { at ≤ length text.now }
    requires stops_callable { (state : F) (c : _) → F.pre state c }
    ensures { (t : ℕ → Bool)
        → ((c : _) (r : Bool) (state : F) → F.step stops c r state → (state ≡ stops) × (r ≡ t c.now))
        → result ≡ at + passed_over t (drop at text.now) }
{
    let mut stops = stops;
    let mut i = at;
    while i < text.len() {
        if stops(&text[i]) {
            return i;
        }
        i += 1;
    }
    i
}

// Where the line ends that `at` lies in: at its LF, or at the text's end. Eight characters are looked at at once.
#[tactic(auto, using(crate::proofs::Scans::lf_here))]
pub fn line_end(text: &[u8], at: usize) -> usize
    requires { at ≤ length text.now }
    ensures { result ≡ at + passed_over is_lf (drop at text.now) }
{
    if text.get(at) == Some(&b'\n') {
        return at;
    }
    let (whole, rest) = text[at..].as_chunks::<8>();
    for (k, chunk) in whole.iter().enumerate() {
        let lf = first_lf(u64::from_le_bytes(*chunk));
        if lf < 8 {
            return at + 8 * k + lf;
        }
    }
    passed(text, text.len() - rest.len(), |c| *c == b'\n')
}

// How many of the eight bytes of x come before the first that is LF; 8 if none is. LF is turned to 0, and any other byte to one
// that is not: then its top bit is 1, or adding 127 to its other bits makes it so, with no carry into the next byte. So the
// marks are the top bits of the bytes that were LF.
fn first_lf(x: u64) -> usize
    ensures { result ≡ passed_over is_lf (bytes 8 x) }
{
    let y = x ^ 0x0A0A_0A0A_0A0A_0A0A;
    let others = ((y & 0x7F7F_7F7F_7F7F_7F7F) + 0x7F7F_7F7F_7F7F_7F7F) | y;
    let marks = (others & 0x8080_8080_8080_8080) ^ 0x8080_8080_8080_8080;
    u64::trailing_zeros(marks) as usize / 8
}

// Whether a character is a blank.
fn blank(c: u8) -> bool
    ensures { result ≡ is_blank c }
{
    matches!(c, b' ' | b'\t' | b'\r')
}

// Whether a word cannot go on with a character: at a blank, at LF, or at the # of a comment.
fn ends(c: u8) -> bool
    ensures { result ≡ ends_word c }
{
    blank(c) || c == b'\n' || c == b'#'
}

// Where the next word of a line starts, from `at` on, and where a word ends. LF and # are no blanks and no part of a word, so
// both stop where the line or its comment does, and nobody has to look for that place first.
pub fn word_start(text: &[u8], at: usize) -> usize
    requires { at ≤ length text.now }
    ensures { result ≡ at + passed_over (λ c. not (is_blank c)) (drop at text.now) }
{
    passed(text, at, |c| !blank(*c))
}

pub fn word_end(text: &[u8], at: usize) -> usize
    requires { at ≤ length text.now }
    ensures { result ≡ at + passed_over ends_word (drop at text.now) }
{
    passed(text, at, |c| ends(*c))
}

// Whether two words are the same, character by character: `==` calls for a comparison by groups, which is slower for words as short as these.
pub fn same(w: &[u8], v: &[u8]) -> bool
    ensures { result ≡ same_list w.now v.now }
{
    if w.len() != v.len() {
        return false;
    }
    for (i, &c) in w.iter().enumerate() {
        if c != v[i] {
            return false;
        }
    }
    true
}

// A tenth of the largest number that is told apart, which no count of lines comes near to.
const TENTH: u64 = 1_844_674_407_370_955_161;

// Reads a word as a number, if it is one. A number beyond the largest that is told apart is told as that one.
#[tactic(auto, using(crate::proofs::Scans::reading_steps))]
pub fn count(w: &[u8]) -> Option<u64>
    ensures { result ≡ counted w.now }
{
    if w.is_empty() {
        return None;
    }
    let mut value = 0;
    for &c in w {
        if !c.is_ascii_digit() {
            return None;
        }
        value = then_digit(value, c - b'0');
    }
    Some(value)
}

// The number with one digit more, up to the largest.
fn then_digit(value: u64, d: u8) -> u64
    requires { d < 10 }
    ensures { result ≡ min (10 * value + d) most }
{
    if TENTH <= value {
        return 10 * TENTH;
    }
    10 * value + d as u64
}

// A digit in capital hex.
pub fn digit(d: u8) -> u8
    requires { d < 16 }
    ensures { result ≡ glyph d }
{
    if d < 10 {
        return b'0' + d;
    }
    b'A' + (d - 10)
}

// Puts a number into the buffer from `start` on, in decimal, and says where it ends: the digits before the last by this function.
#[tactic(auto, using(crate::proofs::Decimals::digits_stored))]
fn put_decimal(x: u64, out: &mut [u8], start: usize) -> usize
    requires { start + length (decimal x) ≤ length out.old }
    ensures value { result ≡ start + length (decimal x) }
    ensures out_after { out.new ≡ sets out.old start (decimal x) }
{
    if x < 10 {
        out[start] = digit(x as u8);
        return start + 1;
    }
    let last = put_decimal(x / 10, out, start);
    out[last] = digit((x % 10) as u8);
    last + 1
}

// A number, and the character that follows it.
#[tactic(auto, using(crate::proofs::Decimals::one_behind))]
pub fn put_number(x: u64, next: u8, out: &mut [u8], start: usize) -> usize
    requires { start + length (decimal x) < length out.old }
    ensures value { result ≡ start + length (decimal x) + 1 }
    ensures out_after { out.new ≡ sets out.old start (decimal x ++ (next ∷ [])) }
{
    let end = put_decimal(x, out, start);
    out[end] = next;
    end + 1
}
