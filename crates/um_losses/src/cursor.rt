// Where a reader of records stands, and what they mean for flows.
ghost use Rattle.std.specs.Prelude.{◌≡◌};
ghost use Rattle.um_losses.specs.Records.{renewal, on_channel, passed, change_of, passed_forged};
ghost use Rattle.um_losses.specs.Records.{forged_change_of};
ghost use Rattle.bearer_types.specs.Sides.{heard_by};

use crate::flow::{Happening, Whose};
use crate::pdu::Pdu;
use air_record::{Arrived, Record};
use bearer_types::Event;
use l2_types::{Clock, Side};
use mac_pdu::Direction;

// The block that records are about, and the logical channel of its SDU.
#[derive(Clone, Copy)]
pub(crate) struct Cursor {
    pub(crate) direction: Direction,
    pub(crate) process: u32,
    pub(crate) channel: Option<u8>,
}

#[derive(Clone, Copy)]
pub(crate) struct Change {
    pub(crate) whose: Whose,
    pub(crate) what: Happening,
}

impl Cursor {
    // Goes on over a record, and answers what it changes.
    pub(crate) fn pass(&mut self, one: &Record) -> Option<Change>
        ensures cursor { self.new ≡ passed one.now self.old }
        ensures change { result ≡ change_of one.now self.old }
    {
        match one {
            Record::Block {
                direction,
                process,
                fresh,
                ..
            } => {
                self.direction = *direction;
                self.process = *process;
                self.channel = None;
                renewal(*direction, *process, *fresh)
            }
            Record::MacSdu { lcid, .. } => {
                self.channel = Some(*lcid);
                None
            }
            Record::RlcUm { sn, fi, lens } => {
                let pdu = Pdu {
                    sn: *sn,
                    fi: *fi,
                    elements: lens.len(),
                };
                let process = self.process;
                on_channel(
                    self.direction,
                    self.channel,
                    Happening::PduWritten { process, pdu },
                )
            }
            Record::Air {
                direction,
                what: Arrived::Got,
                ..
            } => Some(Change {
                whose: Whose::Each {
                    direction: *direction,
                },
                what: Happening::BlockArrived {
                    process: self.process,
                },
            }),
            Record::Of {
                side,
                event: Event::Expired {
                    lcid,
                    clock: Clock::Reorder,
                },
            } => Some(Change {
                whose: Whose::One {
                    direction: heard_by(*side),
                    lcid: *lcid,
                },
                what: Happening::TimerExpired,
            }),
            _ => None,
        }
    }

    // The same over a record of a block that is forged at a side.
    pub(crate) fn pass_forged(&mut self, side: Side, one: &Record) -> Option<Change>
        ensures cursor { self.new ≡ passed_forged one.now self.old }
        ensures change { result ≡ forged_change_of side one.now self.old }
    {
        match one {
            Record::MacSdu { lcid, .. } => {
                self.channel = Some(*lcid);
                None
            }
            Record::RlcUm { sn, fi, lens } => {
                let pdu = Pdu {
                    sn: *sn,
                    fi: *fi,
                    elements: lens.len(),
                };
                on_channel(heard_by(side), self.channel, Happening::PduForged { pdu })
            }
            _ => None,
        }
    }
}

fn renewal(direction: Direction, process: u32, fresh: bool) -> Option<Change>
    ensures { result ≡ renewal direction process fresh }
{
    if !fresh {
        return None;
    }
    Some(Change {
        whose: Whose::Each { direction },
        what: Happening::BlockRenewed { process },
    })
}

fn on_channel(direction: Direction, channel: Option<u8>, what: Happening) -> Option<Change>
    ensures { result ≡ on_channel direction channel what }
{
    match channel {
        Some(lcid) => Some(Change {
            whose: Whose::One { direction, lcid },
            what,
        }),
        None => None,
    }
}

// The direction that is heard at a side.
fn heard_by(side: Side) -> Direction
    ensures { result ≡ heard_by side }
{
    match side {
        Side::Nb => Direction::Up,
        Side::Ue => Direction::Down,
    }
}
