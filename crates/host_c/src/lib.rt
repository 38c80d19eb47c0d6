// What the engine links: each call of `host` under its own name, with its clauses said again. A library of crates cannot be a
// static library too, so the exports stand here and add nothing.
#![tactic(auto)]

ghost use Rattle.std.specs.Prelude.{◌≡◌, length};
ghost use Rattle.answers.specs.Answers.{packed, told, Tells, buffer_after, Leaves};
ghost use Rattle.records.specs.Records.{summing, figures_of};
ghost use Rattle.checker.specs.Checking.{checking};
ghost use Rattle.matcher.specs.Matching.{matching, claim_for};
ghost use Rattle.writer.specs.Writing.{writing, record_bytes};
ghost use Rattle.tables.specs.Tables.{table_reading, record_of, table_writing, table_of};

#[unsafe(no_mangle)]
pub extern "C" fn zap_match(f: &[u8], g: &[u8], out: &mut [u8]) -> u64
    ensures value { result ≡ packed (matching f.now g.now (length out.old)) }
    ensures tells { Tells (matching f.now g.now (length out.old)) result }
    ensures out_after { out.new ≡ buffer_after (matching f.now g.now (length out.old)) (claim_for f.now g.now) out.old }
{
    host::zap_match(f, g, out)
}

#[unsafe(no_mangle)]
pub extern "C" fn zap_check(f: &[u8], g: &[u8], claim: &[u8]) -> u64
    ensures value { result ≡ packed (checking f.now g.now claim.now) }
    ensures tells { Tells (checking f.now g.now claim.now) result }
{
    host::zap_check(f, g, claim)
}

#[unsafe(no_mangle)]
pub extern "C" fn zap_summary(f: &[u8], figures: &mut [u64]) -> u64
    ensures leaves { Leaves (packed (summing f.now).answer) (figures_of (summing f.now)) figures.old figures.new result }
    ensures tells { Tells (summing f.now).answer result }
{
    host::zap_summary(f, figures)
}

#[unsafe(no_mangle)]
pub extern "C" fn zap_write(n: u8, on: &[u8], off: &[u8], out: &mut [u8]) -> u64
    ensures value { result ≡ packed (told (writing n on.now off.now (length out.old))) }
    ensures tells { Tells (told (writing n on.now off.now (length out.old))) result }
    ensures out_after { out.new ≡ buffer_after (writing n on.now off.now (length out.old)) (record_bytes n on.now off.now) out.old }
{
    host::zap_write(n, on, off, out)
}

#[unsafe(no_mangle)]
pub extern "C" fn zap_read_table(text: &[u8], out: &mut [u8]) -> u64
    ensures value { result ≡ packed (told (table_reading text.now (length out.old))) }
    ensures tells { Tells (told (table_reading text.now (length out.old))) result }
    ensures out_after { out.new ≡ buffer_after (table_reading text.now (length out.old)) (record_of text.now) out.old }
{
    host::zap_read_table(text, out)
}

#[unsafe(no_mangle)]
pub extern "C" fn zap_write_table(record: &[u8], out: &mut [u8]) -> u64
    ensures value { result ≡ packed (table_writing «record».now (length out.old)) }
    ensures tells { Tells (table_writing «record».now (length out.old)) result }
    ensures out_after { out.new ≡ buffer_after (table_writing «record».now (length out.old)) (table_of «record».now) out.old }
{
    host::zap_write_table(record, out)
}
