//! PDCP entities face to face, and an acknowledged sender whose window stays about as full.

use eps_sec::{Cipher, Key, Keys};
use l2_bits::{Bytes, NoMemory};
use l2_types::AmTxConfig;
use pdcp_pdu::PdcpKind;
use pdcp_rx::{Cause, PdcpRx};
use pdcp_tx::PdcpTx;
use rlc_am_tx::AmTx;
use rlc_pdu::{AM_MODULUS, AmPdu, Nacks, read_am, write_status};
use std::alloc::Global;

const SHORT: [u8; 90] = [7; 90];

const LONG: [u8; 1490] = [7; 1490];

/// So many SDUs submitted, taken, confirmed and opened again; the SDUs that went up.
pub fn pdcp(alloc: Global, is_long: bool, sdus: u32) -> Result<u64, NoMemory> {
    let key = Key { octets: [1; 16] };
    let keys = Keys {
        alg: Cipher::Eea2,
        user: key,
        rrc: key,
        integrity: key,
    };
    let kind = PdcpKind::Am { bits: 12 };
    let mut sender = PdcpTx::new(alloc, kind, 0, &keys, 0, 1);
    let mut receiver = PdcpRx::new(alloc, kind, 0, &keys, 0, 1);
    let mut ups = 0u64;
    for place in 0..sdus as u64 {
        let sdu = if is_long {
            LONG.as_slice()
        } else {
            SHORT.as_slice()
        };
        if sender.submit(sdu).is_err() {
            return Err(NoMemory);
        }
        if let Some(next) = sender.next_pdu()? {
            receiver.arrive(next.octets.as_slice(), Cause::Arrived)?;
            sender.confirm(place);
        }
        if receiver.up().is_some() {
            ups = ups.wrapping_add(1);
        }
    }
    Ok(ups)
}

const CONFIG: AmTxConfig = AmTxConfig {
    poll_pdu: None,
    poll_byte: None,
    poll_retransmit: 45,
    max_retx: 4,
};

/// So many PDUs taken, of which the last `window` aren't acknowledged; the SDUs that were
/// confirmed.
pub fn sender(alloc: Global, window: u64, pdus: u32) -> Result<u64, NoMemory> {
    let mut sender = AmTx::new(alloc, CONFIG)?;
    let mut confirmed = 0u64;
    for number in 0..pdus as u64 {
        let sdu = Bytes::from_slice(alloc, &SHORT)?;
        if sender.offer(sdu).is_err() {
            return Err(NoMemory);
        }
        sender.take(100, None, true)?;
        if number >= window {
            acknowledge(alloc, &mut sender, number - window)?;
        }
        if sender.confirmed().is_some() {
            confirmed = confirmed.wrapping_add(1);
        }
    }
    sender.finish();
    Ok(confirmed)
}

// All numbers below one are acknowledged.
fn acknowledge(alloc: Global, sender: &mut AmTx, number: u64) -> Result<(), NoMemory> {
    let status = write_status(alloc, (number % AM_MODULUS) as u32, &Nacks::new(alloc))?;
    if let Ok(AmPdu::Status(status)) = read_am(status.as_slice()) {
        sender.status(status)?;
    }
    Ok(())
}
