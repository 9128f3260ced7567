// PDCP's reading of the SDUs that an unacknowledged flow hands up.
ghost use Rattle.std.specs.Prelude.{◌≡◌, ◌<◌, IfOk, OnOk};
ghost use Rattle.pdcp_pdu.specs.Pdus.{IsUserBits};
ghost use Rattle.pdcp_pdu.specs.declared.PdcpKind.TheVariants.{Um};
ghost use Rattle.pdcp_sec.specs.Protection.{protection_of, ciphered_with};
ghost use Rattle.journal_edge.specs.UmReading.{as_begun, renewed, read_by, text_of, behind};

use eps_sec::Keys;
use l2_bits::{Bytes, NoMemory};
use l2_num::ahead;
use pdcp_pdu::{PdcpKind, User, read_user};
use pdcp_sec::Security;
use std::alloc::Global;
use std::marker::Model;

/// The first number that is no COUNT.
const END: u64 = 1 << 32;

/// Reads the SDUs that RLC hands up in a life, one by one.
#[derive(Drop)]
pub(crate) struct UmReader {
    alloc: Global,
    bits: u32,
    security: Security,
    next: u64,
}

impl Model for UmReader {
    ghost use Rattle.std.specs.Prelude.{◌≤◌, ◌^◌};
    ghost use Rattle.pdcp_pdu.specs.Pdus.{IsUserBits};
    ghost use Rattle.journal_edge.specs.UmReading.{Reader};

    ghost Value = { Reader };

    ghost view = { λ r. record { bits = r.bits; protection = r.security; next = r.next } };

    ghost invariant = { λ r. IsUserBits r.bits × (r.next ≤ 2 ^ 32) };
}

impl UmReader {
    /// As the first life begins.
    pub(crate) fn new(
        alloc: Global,
        bits: u32,
        keys: &Keys,
        bearer: u32,
        direction: u32,
    ) -> UmReader
        requires bits { IsUserBits bits }
        requires bearer { bearer < 32 }
        requires direction { direction < 2 }
        ensures { result ≡ as_begun bits (protection_of (Um bits) keys.now bearer direction) }
    {
        UmReader {
            alloc,
            bits,
            security: Security::new(PdcpKind::Um { bits }, keys, bearer, direction),
            next: 0,
        }
    }

    /// The next life begins, under other keys.
    pub(crate) fn renew(&mut self, keys: &Keys)
        ensures { self.new ≡ renewed keys.now self.old }
    {
        self.security.renew(PdcpKind::Um { bits: self.bits }, keys);
        self.next = 0;
    }

    /// Reads an SDU of RLC, if it is a data PDU whose COUNT has 32 bits.
    pub(crate) fn read(&mut self, sdu: &[u8]) -> Result<Option<Bytes>, NoMemory>
        ensures value { IfOk result (λ one. one ≡ text_of (read_by self.old sdu.now)) }
        ensures state { OnOk result (self.new ≡ behind (read_by self.old sdu.now) self.old) }
    {
        let Ok(User::Sdu { sn, octets }) = read_user(self.bits, sdu) else {
            return Ok(None);
        };
        let size = 1u32 << self.bits;
        let above = ahead(sn, (self.next % u64::from(size)) as u32, size);
        let count = self.next + u64::from(above);
        if count >= END {
            return Ok(None);
        }
        let text = self.decipher(count as u32, octets)?;
        self.next = count + 1;
        Ok(Some(text))
    }

    fn decipher(&self, count: u32, text: &[u8]) -> Result<Bytes, NoMemory>
        ensures { IfOk result
            (λ octets. octets ≡ ciphered_with self.now.protection count text.now) }
    {
        let mut octets = Vec::from_slice(self.alloc, text)?;
        self.security.apply(count, &mut octets);
        Ok(Bytes::from_vec(octets))
    }
}
