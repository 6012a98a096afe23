//! The line of an answer.
ghost use Rattle.std.specs.Prelude.{◌≡◌};
ghost use Rattle.flow_io.specs.Outside.{Rose};
ghost use Rattle.flownodes_cli.specs.Run.{Notes, note_of};

use flow_io::{Output, Status, write_whole};

/// Writes the line of an answer, if it has one. A fault here changes nothing else.
pub fn tell<E: Output>(status: Status, notes: &mut E)
    ensures { Notes (note_of status) (E.written notes.old) (E.written notes.new)
        (Rose (E.faults notes.old) (E.faults notes.new)) }
{
    let line = line_of(status);
    let _ = write_whole(notes, line.as_bytes());
}

/// The line of an answer, empty where the input was read to its end.
fn line_of(status: Status) -> &'static str
    ensures { result.now ≡ note_of status }
{
    match status {
        Status::Clean | Status::Partial | Status::Refused => "",
        Status::Words => "usage: flownodes [--split] [FILE]\n",
        Status::Fault => "flownodes: read or write fault\n",
        Status::Memory => "flownodes: out of memory\n",
        Status::Long => "flownodes: input too long\n",
    }
}
