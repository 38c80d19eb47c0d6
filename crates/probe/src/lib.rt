// Exported functions for tests alone: what the host's calls do not show. Each hands a call's answer over as one number.
#![tactic(auto)]

ghost use Rattle.std.specs.Prelude.{◌≡◌, IfSome, length};
ghost use Rattle.answers.specs.Answers.{Leaves};
ghost use Rattle.records.specs.Records.{reading, bytes_at_fault};
ghost use Rattle.partial.specs.Partial.{Few};
ghost use Rattle.probe.specs.Probe.{packed_mod, counts_of, pair_number, dead_number};

use answers::Answer;
use partial::Pair;

#[tactic(auto, unfolding(crate::specs::Probe::packed_mod))]
fn packed_mod(answer: Answer) -> u64
    ensures { result ≡ packed_mod answer }
{
    answers::pack(Answer {
        place: answer.place % 0x1_0000_0000,
        ..answer
    })
}

#[unsafe(no_mangle)]
pub extern "C" fn probe_read(record: &[u8], numbers: &mut [u64]) -> u64
    ensures { Leaves (packed_mod (reading «record».now).answer) (counts_of (reading «record».now)) numbers.old numbers.new result }
{
    let found = records::read(record);
    answers::store_three(numbers, found.n as u64, found.a as u64, found.b as u64);
    let answer = found.answer;
    packed_mod(answer)
}

// Copies the bytes at fault into the buffer, if they fit, and returns their number.
#[unsafe(no_mangle)]
pub extern "C" fn probe_fault<'a>(f: &'a [u8], g: &'a [u8], out: &mut [u8]) -> u64
    ensures { Leaves (length (bytes_at_fault f.now g.now)) (bytes_at_fault f.now g.now) out.old out.new result }
{
    answers::leave(out, records::at_fault(f, g)) as u64
}

// A pair as a number, or that there is none.
#[tactic(auto, unfolding(crate::specs::Probe::pair_number))]
fn pair_number(pair: Option<Pair>) -> u64
    requires { IfSome pair Few }
    ensures { result ≡ pair_number pair }
{
    match pair {
        None => 1,
        Some(pair) => 2 + pair.s as u64 + 256 * (pair.u as u64) + 65536 * (pair.v as u64),
    }
}

// The first dead pair under the choices: 0 if the records or the choices are not accepted, 1 if there is none, else
// 2 + s + 256·u + 65,536·v.
#[tactic(auto, using(crate::proofs::Dead::dead_by, checker::proofs::Making::wired_n, checker::proofs::Making::wired_prefix, partial::proofs::Whole::few_found))]
#[unsafe(no_mangle)]
pub extern "C" fn probe_dead(f: &[u8], g: &[u8], choices: &[u8], q: u8) -> u64
    ensures { result ≡ dead_number f.now g.now choices.now q }
{
    let both = match records::both(f, g) {
        Ok(both) => both,
        Err(_) => return 0,
    };
    match checker::wire(both.n(), choices, 0) {
        Ok(wiring) => pair_number(wiring.first_dead(both.f, both.g, q)),
        Err(_) => 0,
    }
}
