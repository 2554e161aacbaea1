ghost use Rattle.std.specs.Prelude.{◌≡◌, ◌≢◌, map, string_bytes, true};
ghost use Rattle.command_words.specs.Commands.{HasNoMode};
ghost use Rattle.ride_base.specs.Calls.{call_of};
ghost use Rattle.ride_base.specs.Outside.{CountStays, SinkCountStays};
ghost use Rattle.dispatch_top.specs.Behaving.{Behaves, IsComplete};
ghost use Rattle.dispatch_top.specs.Ends.{Ends, IsUnanswered};
ghost use Rattle.dispatch_top.specs.Forms.{run_asks};

use crate::gen_mode::print_summary;
use crate::run_mode::answer_run;
use crate::status::Status;
use crate::walk_mode::print_walk;
use crate::words::{Task, read_words};
use ride_base::{Shelf, Sink};
use road_graph::Steps;
use std::alloc::Global;
use std::thread::Threads;

/// Does what the words of a command line ask, without the program's own name. By `run GRAPH FLEET STREAM` it reads the three texts from
/// the shelf in this order, and writes what became of each line to the sink before it reads the next one; by `walk GRAPH FROM TO` it
/// writes a least walk; by `gen NUMBER` it writes the sums over the rides of a made city. At every status what the names hold is as before, and no line that was answered is lost.
pub fn run<R: Threads + Sync, S: Shelf, K: Sink, L>(
    _rt: &R,
    alloc: Global,
    words: &[String],
    shelf: &mut S,
    sink: &mut K,
    steps: &mut Steps<L>,
) -> Status
    ensures ends { Ends (run_asks (map string_bytes words.now)) result
        (call_of (S.seen shelf.old) (K.seen sink.old) (S.seen shelf.new) (K.seen sink.new)) }
    ensures complete { IsComplete (run_asks (map string_bytes words.now)) result
        (call_of (S.seen shelf.old) (K.seen sink.old) (S.seen shelf.new) (K.seen sink.new)) }
    ensures behaves { Behaves (run_asks (map string_bytes words.now)) result
        (call_of (S.seen shelf.old) (K.seen sink.old) (S.seen shelf.new) (K.seen sink.new)) }
    ensures quiet { (S.seen shelf.old).quiet ≡ true → result ≢ Status.ReadFault
        → CountStays (S.seen shelf.old) (S.seen shelf.new) }
    ensures kept { (K.seen sink.old).quiet ≡ true → result ≢ Status.WriteFault
        → SinkCountStays (K.seen sink.old) (K.seen sink.new) }
    ensures untouched { IsUnanswered (run_asks (map string_bytes words.now))
        → (shelf.new ≡ shelf.old) × (sink.new ≡ sink.old) }
    ensures usage { HasNoMode (map string_bytes words.now) → result ≡ Status.Usage }
{
    match read_words(alloc, words) {
        Ok(Task::Run(asked)) => answer_run(alloc, &asked, shelf, sink, steps),
        Ok(Task::Walk { graph, from, to }) => {
            print_walk(alloc, graph, from, to, shelf, sink, steps)
        }
        Ok(Task::Gen { number }) => print_summary(alloc, number, sink, steps),
        Ok(Task::Later) => Status::NotYet,
        Ok(Task::Unknown) => Status::Usage,
        Err(_) => Status::NoMemory,
    }
}
