use hex::FromHexError;
use l2_bits::NoMemory;
use std::alloc::AllocError;
use std::io;
use std::num::ParseIntError;
use std::str::Utf8Error;
use thiserror::Error;

/// Why a line has no answer.
#[derive(Debug, Drop, Error)]
pub enum Fault {
    #[error("no such call")]
    Words,
    #[error("{0}")]
    Number(#[from] ParseIntError),
    #[error("{0}")]
    Octets(#[from] FromHexError),
    #[error("{0}")]
    Text(#[from] Utf8Error),
    #[error("out of memory")]
    NoMemory,
    #[error("{0}")]
    Stream(#[from] io::Error),
}

impl From<NoMemory> for Fault {
    fn from(_error: NoMemory) -> Fault {
        Fault::NoMemory
    }
}

impl From<AllocError> for Fault {
    fn from(_error: AllocError) -> Fault {
        Fault::NoMemory
    }
}
