//! The lines that tell outcomes.
ghost use Rattle.std.specs.Prelude.{◌≡◌, ◌≤◌, ◌++◌, length, flat_map, OnOk, OnErr};
ghost use Rattle.flow_io.specs.Outside.{Adds, AddsPrefix, HasCause};
ghost use Rattle.path_report.specs.Sending.{spaced};
ghost use Rattle.flowcheck_cli.specs.CheckLines.{cause_word, outcome_fields, outcome_line, counts_line};

use crate::outcome::Outcome;
use crate::short_line::ShortLine;
use flow_io::{Fault, Output, write_whole};
use report_reading::ReadWhy;

/// Writes the line of the block with this number. After a fault a beginning of it was added. Takes no memory.
pub fn write_outcome<O: Output>(out: &mut O, index: u64, outcome: Outcome) -> Result<(), Fault>
    ensures ok { OnOk result (Adds (O.written out.old) (O.written out.new) (outcome_line index outcome)) }
    ensures err { OnErr result (AddsPrefix (O.written out.old) (O.written out.new) (outcome_line index outcome)) }
    ensures cause { HasCause (O.faults out.old) (O.faults out.new) result }
{
    write_whole(out, outcome_line(index, outcome).as_slice())
}

/// Writes the line of the numbers of blocks and of texts. After a fault a beginning of it was added. Takes no memory.
pub fn write_counts<O: Output>(out: &mut O, blocks: u64, reports: u64) -> Result<(), Fault>
    ensures ok { OnOk result (Adds (O.written out.old) (O.written out.new) (counts_line blocks reports)) }
    ensures err { OnErr result (AddsPrefix (O.written out.old) (O.written out.new) (counts_line blocks reports)) }
    ensures cause { HasCause (O.faults out.old) (O.faults out.new) result }
{
    write_whole(out, counts_line(blocks, reports).as_slice())
}

/// The line of the block with this number.
fn outcome_line(index: u64, outcome: Outcome) -> ShortLine
    ensures { result ≡ outcome_line index outcome }
{
    let mut line = ShortLine::of(b"graph");
    line.number(index);
    put_outcome(&mut line, outcome);
    line.end();
    line
}

/// The fields that tell an outcome.
fn put_outcome(line: &mut ShortLine, outcome: Outcome)
    requires { length line.old ≤ 32 }
    ensures bytes { line.new ≡ line.old ++ flat_map spaced (outcome_fields outcome) }
    ensures long { length line.new ≤ 95 }
{
    match outcome {
        Outcome::Yes => line.field(b"yes"),
        Outcome::No { line: at } => {
            line.field(b"no");
            line.number(at);
        }
        Outcome::Unread { line: at, why } => {
            line.field(b"unread");
            line.number(at);
            line.field(cause_word(why));
        }
    }
}

/// The word of a cause.
fn cause_word(why: ReadWhy) -> &'static [u8]
    ensures word { result.now ≡ cause_word why }
    ensures short { length result.now ≤ 9 }
{
    match why {
        ReadWhy::BadForm => b"BadForm",
        ReadWhy::BadNumber => b"BadNumber",
        ReadWhy::BadName => b"BadName",
        ReadWhy::BadOrder => b"BadOrder",
        ReadWhy::NoEnd => b"NoEnd",
    }
}

/// The line of the numbers of blocks and of texts.
fn counts_line(blocks: u64, reports: u64) -> ShortLine
    ensures { result ≡ counts_line blocks reports }
{
    let mut line = ShortLine::of(b"blocks");
    line.number(blocks);
    line.field(b"reports");
    line.number(reports);
    line.end();
    line
}
