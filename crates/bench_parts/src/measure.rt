//! What a line of the input asks for.

use crate::{entities, security};
use l2_bits::NoMemory;
use std::alloc::{AllocError, Global};

/// A part and how much it is to do.
#[derive(Clone, Copy, Debug, PartialEq, Eq)]
pub enum Measure {
    /// `aes N`: N blocks, each the one before under the key.
    Aes(u32),
    /// `eea2 N`: one text of N octets ciphered.
    Eea2(u32),
    /// `eia2 N`: the code of one message of N octets.
    Eia2(u32),
    /// `pdcp100 N`, `pdcp1500 N`: N SDUs through a PDCP sender and a receiver.
    Pdcp { is_long: bool, sdus: u32 },
    /// `window4 N`, `window64 N`, `window500 N`: N PDUs of an acknowledged sender, of which so many
    /// stay unacknowledged.
    Window { window: u64, pdus: u32 },
}

impl Measure {
    /// Reads a line; `None` where it names no measure.
    pub fn read(line: &str) -> Option<Measure> {
        let (name, amount) = line.split_once(' ')?;
        let amount = amount.parse::<u32>().ok()?;
        match name {
            "aes" => Some(Measure::Aes(amount)),
            "eea2" => Some(Measure::Eea2(amount)),
            "eia2" => Some(Measure::Eia2(amount)),
            "pdcp100" => Some(Measure::Pdcp {
                is_long: false,
                sdus: amount,
            }),
            "pdcp1500" => Some(Measure::Pdcp {
                is_long: true,
                sdus: amount,
            }),
            "window4" => Some(Measure::Window {
                window: 4,
                pdus: amount,
            }),
            "window64" => Some(Measure::Window {
                window: 64,
                pdus: amount,
            }),
            "window500" => Some(Measure::Window {
                window: 500,
                pdus: amount,
            }),
            _ => None,
        }
    }

    /// The octets that it works on, which take no part in its time.
    pub fn octets(self, alloc: Global) -> Result<Vec<u8>, AllocError> {
        match self {
            Measure::Eea2(len) | Measure::Eia2(len) => Ok(vec![in alloc; 0; len as usize]?),
            _ => Ok(Vec::new(alloc)),
        }
    }

    /// Does it, and gives a number of what it made.
    pub fn run(self, alloc: Global, octets: &mut [u8]) -> Result<u64, NoMemory> {
        match self {
            Measure::Aes(blocks) => Ok(security::aes(blocks)),
            Measure::Eea2(_) => Ok(security::eea2(octets)),
            Measure::Eia2(_) => Ok(security::eia2(octets)),
            Measure::Pdcp { is_long, sdus } => entities::pdcp(alloc, is_long, sdus),
            Measure::Window { window, pdus } => entities::sender(alloc, window, pdus),
        }
    }
}
