ghost use Rattle.std.specs.Prelude.{◌≡◌, ℕ, List, [], IsOk, OnOk};
ghost use Rattle.input_tables.specs.Streams.{IsInRange};
ghost use Rattle.board_core.specs.Histories.{Event};
ghost use Rattle.dispatch_top.specs.Answerers.{GoesOn, HasFew};
ghost use Rattle.dispatch_top.specs.Streams.{events_said};

use input_tables::StreamLine;
use ride_base::NoMemory;
use road_graph::Steps;
use std::alloc::Global;

/// What answers the events of a stream, one after another.
pub(crate) trait Answerer {
    /// A relation over two moments of one answerer: from the first on to the second it answered these events of a stream, in order, and
    /// this is the text of their answers.
    ghost Has: { Self → Self → List Event → List ℕ → Type 0 };

    /// The events that it holds back, in order.
    ghost held: { Self → List Event };

    /// Takes what a line says. The lines of the answers that are due now are added to an empty text. After an error it is of no use.
    fn answer<L>(
        &mut self,
        alloc: Global,
        said: &StreamLine,
        text: &mut Vec<u8>,
        steps: &mut Steps<L>,
    ) -> Result<(), NoMemory>
        requires ready { HasFew Has held self.old }
        requires said { IsInRange said.now }
        requires empty { text.old.items ≡ [] }
        ensures { OnOk result
            (GoesOn Has held self.old (events_said said.now) self.new text.new.items) };

    /// Answers what is held back. The lines of these answers are added to an empty text. After an error it is of no use. Where nothing is
    /// held back there is none, and no line.
    fn finish<L>(
        &mut self,
        alloc: Global,
        text: &mut Vec<u8>,
        steps: &mut Steps<L>,
    ) -> Result<(), NoMemory>
        requires ready { HasFew Has held self.old }
        requires empty { text.old.items ≡ [] }
        ensures goes { OnOk result (GoesOn Has held self.old [] self.new text.new.items) }
        ensures none { OnOk result (held self.new ≡ []) }
        ensures still { held self.old ≡ [] → IsOk result × (text.new.items ≡ []) };
}
