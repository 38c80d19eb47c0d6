// What the engine calls, all on slices: matcher, checker, summary, writer and tables. Each answer is one number, which fits for
// every input.
#![tactic(auto)]

ghost use Rattle.std.specs.Prelude.{◌≡◌, length};
ghost use Rattle.answers.specs.Answers.{packed, told, Tells, buffer_after, Leaves};
ghost use Rattle.records.specs.Records.{summing, figures_of};
ghost use Rattle.checker.specs.Checking.{checking};
ghost use Rattle.matcher.specs.Matching.{matching, claim_for};
ghost use Rattle.writer.specs.Writing.{writing, record_bytes};
ghost use Rattle.tables.specs.Tables.{table_reading, record_of, table_writing, table_of};

#[tactic(auto, using(matcher::proofs::Exact::matching_place))]
pub fn zap_match(f: &[u8], g: &[u8], out: &mut [u8]) -> u64
    ensures value { result ≡ packed (matching f.now g.now (length out.old)) }
    ensures tells { Tells (matching f.now g.now (length out.old)) result }
    ensures out_after { out.new ≡ buffer_after (matching f.now g.now (length out.old)) (claim_for f.now g.now) out.old }
{
    answers::pack(matcher::find(f, g, out))
}

#[tactic(auto, using(checker::proofs::Places::checking_place))]
pub fn zap_check(f: &[u8], g: &[u8], claim: &[u8]) -> u64
    ensures value { result ≡ packed (checking f.now g.now claim.now) }
    ensures tells { Tells (checking f.now g.now claim.now) result }
{
    answers::pack(checker::check(f, g, claim))
}

// The record's on patterns, off patterns and inputs in use, in this order, at the start of `figures`, if it has room for three.
#[tactic(auto, using(records::proofs::Places::summing_place))]
pub fn zap_summary(f: &[u8], figures: &mut [u64]) -> u64
    ensures leaves { Leaves (packed (summing f.now).answer) (figures_of (summing f.now)) figures.old figures.new result }
    ensures tells { Tells (summing f.now).answer result }
{
    let found = records::summary(f);
    let on = found.on as u64;
    let off = found.off as u64;
    let used = found.used as u64;
    answers::store_three(figures, on, off, used);
    let answer = found.answer;
    answers::pack(answer)
}

// A list of an odd length is refused at its end, which can lie anywhere: so `tell`, and not `pack`.
pub fn zap_write(n: u8, on: &[u8], off: &[u8], out: &mut [u8]) -> u64
    ensures value { result ≡ packed (told (writing n on.now off.now (length out.old))) }
    ensures tells { Tells (told (writing n on.now off.now (length out.old))) result }
    ensures out_after { out.new ≡ buffer_after (writing n on.now off.now (length out.old)) (record_bytes n on.now off.now) out.old }
{
    answers::tell(writer::write(n, on, off, out))
}

// A line can have any number: so `tell`, and not `pack`.
pub fn zap_read_table(text: &[u8], out: &mut [u8]) -> u64
    ensures value { result ≡ packed (told (table_reading text.now (length out.old))) }
    ensures tells { Tells (told (table_reading text.now (length out.old))) result }
    ensures out_after { out.new ≡ buffer_after (table_reading text.now (length out.old)) (record_of text.now) out.old }
{
    answers::tell(tables::read_table(text, out))
}

#[tactic(auto, using(tables::proofs::Places::table_writing_place))]
pub fn zap_write_table(record: &[u8], out: &mut [u8]) -> u64
    ensures value { result ≡ packed (table_writing «record».now (length out.old)) }
    ensures tells { Tells (table_writing «record».now (length out.old)) result }
    ensures out_after { out.new ≡ buffer_after (table_writing «record».now (length out.old)) (table_of «record».now) out.old }
{
    answers::pack(tables::write_table(record, out))
}
