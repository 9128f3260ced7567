// The blocks of an input, shown line by line.
ghost use Rattle.std.specs.Prelude.{◌≡◌};
ghost use Rattle.air_record.specs.Text.{text_of};
ghost use Rattle.air_record.specs.declared.record.Record.{Record};
ghost use Rattle.l2_commands.specs.Journals.{showing, blocks_of};
ghost use Rattle.line_player.specs.Playing.{PlaysOn};
ghost use Rattle.line_player.specs.Streams.{input, output};
ghost use Rattle.pdu_show.specs.Decoding.{Decoding, undecoded};

use air_run::RunRefusal;
use air_text::LineFault;
use l2_bits::Bytes;
use l2_io::{PutFault, Sink, Source};
use line_player::{Ending, LineEnd, Player, Reason, play};
use pdu_show::Decoder;
use std::alloc::Global;

/// The showing of blocks, with the text of the line that is shown.
#[derive(Drop)]
struct Decode {
    decoder: Decoder,
    text: Bytes,
}

impl Decode {
    fn new(alloc: Global) -> Decode
        ensures { result.decoder ≡ undecoded }
    {
        Decode {
            decoder: Decoder::new(alloc),
            text: Bytes::new(alloc),
        }
    }
}

impl Player for Decode {
    // No line that shows a block breaks a rule.
    type Rule = RunRefusal;

    ghost State = { Decoding };

    ghost Record = { Record };

    ghost text_of = { text_of };

    ghost machine = { showing };

    ghost state = { λ m. m.decoder };

    fn goes_past(_kept: &[u8]) -> bool {
        false
    }

    #[tactic(auto, using(line_player::proofs::Nothing::part_nothing))]
    fn line<K: Sink>(
        &mut self,
        _alloc: Global,
        _number: u32,
        text: &[u8],
        out: &mut K,
    ) -> LineEnd<RunRefusal> {
        self.text.clear();
        match self.decoder.line(text, &mut self.text) {
            Ok(()) => match out.put(self.text.as_slice()) {
                Ok(()) => LineEnd::Next,
                Err(PutFault::Failed) => LineEnd::WriteFault,
                Err(PutFault::NoMemory) => LineEnd::NoMemory,
            },
            Err(LineFault::Refused(refusal)) => LineEnd::Refused(Reason::Line(refusal)),
            Err(LineFault::NoMemory) => LineEnd::NoMemory,
        }
    }

    #[tactic(auto, using(line_player::proofs::Nothing::after_none))]
    fn over<K: Sink>(self, _out: &mut K) -> Ending<RunRefusal> {
        Ending::Done
    }
}

/// Shows the blocks that a source gives, line by line.
pub fn show_blocks<S: Source, K: Sink>(
    alloc: Global,
    source: &mut S,
    out: &mut K,
) -> Ending<RunRefusal>
    ensures { PlaysOn text_of blocks_of (input S.Source source.old) (input S.Source source.new)
        (output K.Sink out.old) (output K.Sink out.new) result }
{
    play(alloc, Decode::new(alloc), source, out)
}
