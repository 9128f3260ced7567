// What is told of a TTI.
ghost use Rattle.std.specs.Prelude.{◌≡◌, IfOk, is_some};
ghost use Rattle.journal_air.specs.Told.{block_told, is_blank};

use air_record::Arrived;
use l2_bits::{Bytes, NoMemory, OCTETS_LIMIT};
use mac_pdu::Direction;
use std::alloc::Global;
use std::marker::Model;

// A `block` record.
#[derive(Drop)]
pub(crate) struct BlockTold {
    pub(crate) process: u32,
    pub(crate) fresh: bool,
    pub(crate) rv: u8,
    pub(crate) octets: Bytes,
}

impl Model for BlockTold {
    ghost use Rattle.l2_bits.specs.declared.limits.TheConstants.{OCTETS_LIMIT};
    ghost use Rattle.std.specs.Prelude.{◌<◌, length};
    ghost use Rattle.journal_air.specs.Told.{BlockTold as Told};

    ghost Value = { Told };

    ghost view = { λ b. record {
      process = b.process;
      fresh = b.fresh;
      version = b.rv;
      octets = b.octets;
    } };

    ghost invariant = { λ b. length b.octets < OCTETS_LIMIT };
}

impl BlockTold {
    // A block of 2^28 octets or more finds no memory.
    pub(crate) fn new(
        alloc: Global,
        process: u32,
        fresh: bool,
        rv: u8,
        octets: &[u8],
    ) -> Result<BlockTold, NoMemory>
        ensures { IfOk result (λ block. block ≡ block_told process fresh rv octets.now) }
    {
        if octets.len() >= OCTETS_LIMIT {
            return Err(NoMemory);
        }
        Ok(BlockTold {
            process,
            fresh,
            rv,
            octets: Bytes::from_slice(alloc, octets)?,
        })
    }
}

// An `air` record.
#[derive(Drop)]
pub(crate) struct AirTold {
    pub(crate) what: Arrived,
    pub(crate) heard: Option<bool>,
}

impl Model for AirTold {
    ghost use Rattle.journal_air.specs.Told.{AirTold as Told};

    ghost Value = { Told };

    ghost view = { λ a. record { what = a.what; heard = a.heard } };
}

// Those of a direction.
#[derive(Drop)]
pub(crate) struct WayTold {
    pub(crate) block: Option<BlockTold>,
    pub(crate) air: Option<AirTold>,
}

impl Model for WayTold {
    ghost use Rattle.journal_air.specs.Told.{WayTold as Told};

    ghost Value = { Told };

    ghost view = { λ w. record { block = w.block; air = w.air } };
}

impl WayTold {
    ghost use Rattle.journal_air.specs.Told.{no_way, put_block, put_air};

    fn new() -> WayTold
        ensures { result ≡ no_way }
    {
        WayTold {
            block: None,
            air: None,
        }
    }

    fn is_blank(&self) -> bool
        ensures { result ≡ is_blank self.now }
    {
        self.block.is_none() && self.air.is_none()
    }

    fn has_landed(&self) -> bool
        ensures { result ≡ is_some self.now.air }
    {
        self.air.is_some()
    }

    fn send(&mut self, block: BlockTold)
        ensures { self.new ≡ put_block block self.old }
    {
        self.block = Some(block);
    }

    fn land(&mut self, air: AirTold)
        ensures { self.new ≡ put_air air self.old }
    {
        self.air = Some(air);
    }
}

// All that is told of a TTI.
#[derive(Drop)]
pub(crate) struct TtiTold {
    pub(crate) in_order: bool,
    pub(crate) asleep: bool,
    pub(crate) down: WayTold,
    pub(crate) up: WayTold,
}

impl Model for TtiTold {
    ghost use Rattle.journal_air.specs.Told.{TtiTold as Told};

    ghost Value = { Told };

    ghost view = { λ x. record {
      in_order = x.in_order;
      asleep = x.asleep;
      down = x.down;
      up = x.up;
    } };
}

impl TtiTold {
    ghost use Rattle.journal_air.specs.Told.{blank_tti, tells_sleep, tells_block, tells_air};

    pub(crate) fn new() -> TtiTold
        ensures { result ≡ blank_tti }
    {
        TtiTold {
            in_order: true,
            asleep: false,
            down: WayTold::new(),
            up: WayTold::new(),
        }
    }

    // The terminal sleeps.
    pub(crate) fn sleep(&mut self)
        ensures { self.new ≡ tells_sleep self.old }
    {
        self.in_order = self.in_order && !self.asleep;
        self.asleep = true;
    }

    // A block is sent.
    pub(crate) fn send(&mut self, direction: Direction, block: BlockTold)
        ensures { self.new ≡ tells_block direction block self.old }
    {
        match direction {
            Direction::Down => {
                self.in_order = self.in_order && self.down.is_blank();
                self.down.send(block);
            }
            Direction::Up => {
                self.in_order = self.in_order && self.up.is_blank();
                self.up.send(block);
            }
        }
    }

    // Something comes of it.
    pub(crate) fn land(&mut self, direction: Direction, air: AirTold)
        ensures { self.new ≡ tells_air direction air self.old }
    {
        match direction {
            Direction::Down => {
                self.in_order = self.in_order && !self.down.has_landed();
                self.down.land(air);
            }
            Direction::Up => {
                self.in_order = self.in_order && !self.up.has_landed();
                self.up.land(air);
            }
        }
    }
}
