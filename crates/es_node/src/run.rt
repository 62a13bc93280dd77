//! The run of the program over any input and output.
ghost use Rattle.std.specs.Prelude.{◌≡◌, ◌<◌, ◌↔◌, true, false};
ghost use Rattle.es_outside.specs.Told.{Rose};
ghost use Rattle.es_node.specs.Repeats.{Completes};
ghost use Rattle.es_node.specs.Running.{Replays, end_status, is_replay, status_code};

use crate::solo::Solo;
use es_outside::{Pair, ReplayClock, Sink, Source};
use es_rest::{ConnEnd, serve_connection};
use es_types::{MOST_ENTRIES, Text, USUAL_PITS};
use list_machine::Limits;
use std::alloc::Global;

/// How a program ended. Its exit status is the position of the variant here, from 0.
#[derive(Clone, Copy, PartialEq, Eq)]
pub enum Status {
    /// The input ended between two requests.
    Done,
    /// The wire refused a head; its response was written.
    Refused,
    /// The words are no command. Nothing was read or written.
    Usage,
    ReadFault,
    WriteFault,
    NoMemory,
    /// The input ended inside a request.
    Truncated,
    /// 2^30 bytes were taken, and another one was there.
    TooMuch,
}

impl Status {
    /// The exit status.
    pub fn code(self) -> u8
        ensures { result ≡ status_code self }
    {
        match self {
            Status::Done => 0,
            Status::Refused => 1,
            Status::Usage => 2,
            Status::ReadFault => 3,
            Status::WriteFault => 4,
            Status::NoMemory => 5,
            Status::Truncated => 6,
            Status::TooMuch => 7,
        }
    }
}

/// The limits of a command that says none.
const LIMITS: Limits = Limits {
    pits: USUAL_PITS,
    entries: MOST_ENTRIES,
};

fn end_status(end: ConnEnd) -> Status
    ensures { result ≡ end_status end }
{
    match end {
        ConnEnd::Done => Status::Done,
        ConnEnd::Refused => Status::Refused,
        ConnEnd::ReadFault => Status::ReadFault,
        ConnEnd::WriteFault => Status::WriteFault,
        ConnEnd::NoMemory => Status::NoMemory,
        ConnEnd::Truncated => Status::Truncated,
        ConnEnd::TooMuch => Status::TooMuch,
    }
}

fn is_replay(words: &[Text]) -> bool
    ensures { result ≡ is_replay words.now }
{
    if words.len() == 1 {
        words[0].as_str() == "replay"
    } else {
        false
    }
}

// Serves the requests of the source to the sink.
fn replay<S: Source, K: Sink>(alloc: Global, source: &mut S, sink: &mut K) -> Status
    ensures replays { Replays (S.left source.old) (S.left source.new) (K.written sink.old) (K.written sink.new) result }
    ensures read_fault { result ≡ Status.ReadFault → Rose (S.read_faults source.old) (S.read_faults source.new) }
    ensures write_fault { result ≡ Status.WriteFault → Rose (K.write_faults sink.old) (K.write_faults sink.new) }
    ensures read_reported { S.read_faults source.old < S.read_faults source.new → result ≡ Status.ReadFault }
    ensures write_reported { K.write_faults sink.old < K.write_faults sink.new → result ≡ Status.WriteFault }
    ensures usage { result ≡ Status.Usage → ⊥ }
{
    let mut solo = match Solo::make(alloc, LIMITS) {
        Ok(solo) => solo,
        Err(_) => return Status::NoMemory,
    };
    let mut clock = ReplayClock::make();
    let mut pair = Pair::make(source, sink);
    let end = serve_connection(alloc, &mut solo, &mut pair, &mut clock);
    solo.finish();
    end_status(end)
}

/// Runs the command `replay`: requests from the source, answers to the sink. It waits for nobody.
pub fn run<S: Source, K: Sink>(
    alloc: Global,
    words: &[Text],
    source: &mut S,
    sink: &mut K,
) -> Status
    // The status is Usage exactly where the words are no command, and then nothing is read or written.
    ensures usage { (result ≡ Status.Usage) ↔ (is_replay words.now ≡ false) }
    ensures untouched { result ≡ Status.Usage → (source.new ≡ source.old) × (sink.new ≡ sink.old) }
    // Else each response is what a plain machine of one thread over lists answers.
    ensures replays { is_replay words.now ≡ true → Replays (S.left source.old) (S.left source.new) (K.written sink.old) (K.written sink.new) result }
    // A fault is the status only where the count rose, and wherever it rose.
    ensures read_fault { result ≡ Status.ReadFault → Rose (S.read_faults source.old) (S.read_faults source.new) }
    ensures write_fault { result ≡ Status.WriteFault → Rose (K.write_faults sink.old) (K.write_faults sink.new) }
    ensures read_reported { S.read_faults source.old < S.read_faults source.new → result ≡ Status.ReadFault }
    ensures write_reported { K.write_faults sink.old < K.write_faults sink.new → result ≡ Status.WriteFault }
    // An input of whole requests is answered wholly.
    ensures complete { is_replay words.now ≡ true → Completes (S.left source.old) (S.left source.new) (K.written sink.old) (K.written sink.new)
        (S.read_faults source.old) (S.read_faults source.new) (K.write_faults sink.old) (K.write_faults sink.new) result }
{
    if is_replay(words) {
        replay(alloc, source, sink)
    } else {
        Status::Usage
    }
}
