// One end of the link.
ghost use Rattle.std.specs.Prelude.{◌≡◌, ◌<◌, replicate, None};
ghost use Rattle.l2_node.specs.End.{fresh, reset, with_channel, with_visits};

use crate::finding::Numbers;
use bearer::{Bearer, Running, Side};
use harq::{Receiver, Sender};
use l2_types::Channel;
use prioritise::Buckets;
use std::alloc::Global;
use std::marker::Model;

// The bearers by ascending LCID, under one MAC entity.
#[derive(Drop)]
pub(crate) struct End {
    pub alloc: Global,
    pub side: Side,
    // Whether buffers are reported in padding.
    pub reports: bool,
    pub bearers: Vec<Bearer<Running>>,
    pub buckets: Buckets,
    pub sender: Sender,
    pub receiver: Receiver,
    pub numbers: Held,
}

// The numbers of the data PDUs in the last block of each process, by LCID.
#[derive(Drop)]
pub(crate) struct Held {
    pub rows: Numbers,
}

impl Model for End {
    ghost use Rattle.l2_node.specs.End.{End as Machine};

    ghost Value = { Machine };

    ghost view = { λ e. record {
      side = e.side;
      reports = e.reports;
      bearers = e.bearers.items;
      buckets = e.buckets;
      sender = e.sender;
      receiver = e.receiver;
      numbers = e.numbers.rows;
    } };
}

impl End {
    #[tactic(auto, unfolding(crate::specs::End::fresh))]
    pub fn new(alloc: Global, side: Side, maximum: u32, reports: bool) -> End
        ensures { result ≡ fresh side maximum reports }
    {
        End {
            alloc,
            side,
            reports,
            bearers: Vec::new(alloc),
            buckets: Buckets::new(),
            sender: Sender::new(maximum),
            receiver: Receiver::new(maximum),
            numbers: no_numbers(),
        }
    }

    #[tactic(auto, unfolding(crate::specs::End::with_visits))]
    pub fn set_visits(&mut self, maximum: u32)
        ensures { self.new ≡ with_visits maximum self.old }
    {
        self.sender = Sender::new(maximum);
        self.receiver = Receiver::new(maximum);
        self.numbers = no_numbers();
    }

    // A MAC reset (TS 36.321 5.9).
    #[tactic(auto, unfolding(crate::specs::End::reset))]
    pub fn reset(&mut self)
        ensures { self.new ≡ reset self.old }
    {
        self.buckets.reset();
        self.sender.reset();
        self.receiver.reset();
        self.numbers = no_numbers();
    }
}

// A channel more, where its LCID has none.
pub(crate) fn add_channel(channel: Channel, buckets: &mut Buckets)
    requires lcid { channel.lcid < 11 }
    requires group { channel.group < 4 }
    ensures { buckets.new ≡ with_channel channel buckets.old }
{
    if !buckets.has(channel.lcid) {
        buckets.add(channel);
    }
}

fn no_numbers() -> Held
    ensures { result.rows ≡ replicate 8 (replicate 11 None) }
{
    Held {
        rows: [[None; 11]; 8],
    }
}
