//! The keys of a PDCP entity at work: ciphering and integrity by COUNT (TS 36.323 5.6, 5.7), for
//! both ends alike.
#![tactic(auto)]

ghost use Rattle.std.specs.Prelude.{◌≡◌, ◌<◌, ◌≤◌, ◌++◌, ℕ, List, length, take, drop};
ghost use Rattle.pdcp_sec.specs.Protection.{Protection, protection_of, key_of, ciphered_with};
ghost use Rattle.pdcp_sec.specs.Protection.{tag_of};
ghost use Rattle.eps_sec.specs.Modes.{ciphered};

use eps_sec::{Cipher, Key, Keys, Schedule, eea_apply, eia_tag};
use pdcp_pdu::PdcpKind;
use std::marker::Model;

// A key, with its round keys where PDUs are to be ciphered or protected with it.
#[derive(Debug, Drop)]
struct WorkKey {
    key: Key,
    schedule: Option<Schedule>,
}

impl Model for WorkKey {
    ghost use Rattle.std.specs.Prelude.{◌≡◌, ℕ, List, IfSome};

    ghost Value = { List ℕ };

    ghost view = { λ w. w.key.octets };

    ghost invariant = { λ w. IfSome w.schedule (λ s. s ≡ w.key.octets) };
}

impl WorkKey {
    // The key, expanded if it is to be used.
    fn new(key: &Key, is_used: bool) -> WorkKey
        ensures { result ≡ key.now.octets }
    {
        let schedule = if is_used {
            Some(Schedule::new(key))
        } else {
            None
        };
        WorkKey {
            key: *key,
            schedule,
        }
    }
}

/// The keys of a bearer in one direction and one life, those expanded that its PDUs take, with what
/// else both algorithms take: BEARER, below 32, and DIRECTION, 0 on the uplink and 1 on the
/// downlink. No call takes memory.
#[derive(Debug, Drop)]
pub struct Security {
    cipher: Cipher,
    key: WorkKey,
    integrity: WorkKey,
    bearer: u32,
    direction: u32,
}

impl Model for Security {
    ghost use Rattle.std.specs.Prelude.{◌<◌};
    ghost use Rattle.pdcp_sec.specs.Protection.{Protection};

    ghost Value = { Protection };

    ghost view = { λ s. record {
      cipher = s.cipher;
      key = s.key;
      integrity = s.integrity;
      bearer = s.bearer;
      direction = s.direction;
    } };

    ghost invariant = { λ s. (s.bearer < 32) × (s.direction < 2) };
}

impl Security {
    /// Expands the keys of a bearer: that of the cipher if there is one, and that of integrity for
    /// signalling, which alone is protected.
    pub fn new(kind: PdcpKind, keys: &Keys, bearer: u32, direction: u32) -> Security
        requires bearer { bearer < 32 }
        requires direction { direction < 2 }
        ensures { result ≡ protection_of kind keys.now bearer direction }
    {
        Security {
            cipher: keys.alg,
            key: WorkKey::new(key_of(kind, keys), keys.alg == Cipher::Eea2),
            integrity: WorkKey::new(&keys.integrity, kind == PdcpKind::Srb),
            bearer,
            direction,
        }
    }

    /// The same bearer under other keys.
    pub fn renew(&mut self, kind: PdcpKind, keys: &Keys)
        ensures { self.new ≡ protection_of kind keys.now self.old.bearer self.old.direction }
    {
        *self = Security::new(kind, keys, self.bearer, self.direction);
    }

    /// Ciphers a text under a COUNT, or deciphers it.
    #[tactic(auto, unfolding(crate::specs::Protection::ciphered_with), using(crate::proofs::Lengths::length_ciphered))]
    pub fn apply(&self, count: u32, text: &mut [u8])
        ensures text { text.new ≡ ciphered_with self.now count text.old }
        ensures len { length text.new ≡ length text.old }
    {
        let (cipher, bearer, direction) = (self.cipher, self.bearer, self.direction);
        match &self.key.schedule {
            Some(schedule) => eea_apply(schedule, cipher, count, bearer, direction, text),
            None => self.apply_unexpanded(count, text),
        }
    }

    // The same with a key that isn't expanded.
    fn apply_unexpanded(&self, count: u32, text: &mut [u8])
        ensures text { text.new ≡ ciphered self.now.cipher self.now.key count self.now.bearer
            self.now.direction text.old }
    {
        if self.cipher == Cipher::Eea0 {
            return;
        }
        eea_apply(
            &Schedule::new(&self.key.key),
            self.cipher,
            count,
            self.bearer,
            self.direction,
            text,
        );
    }

    /// Ciphers what stands behind the first `header` octets of a PDU, or deciphers it, in its
    /// place.
    pub fn apply_behind(&self, count: u32, header: usize, pdu: &mut [u8])
        requires { header ≤ length pdu.old }
        ensures text { pdu.new ≡ take header pdu.old
            ++ ciphered_with self.now count (drop header pdu.old) }
        ensures len { length pdu.new ≡ length pdu.old }
    {
        let (_header, text) = pdu.split_at_mut(header);
        self.apply(count, text);
    }

    /// The MAC-I of a message: the header and the plain data of its PDU.
    #[tactic(auto, unfolding(crate::specs::Protection::tag_of))]
    pub fn tag(&self, count: u32, message: &[u8]) -> [u8; 4]
        ensures value { result ≡ tag_of self.now count message.now }
        ensures len { length result ≡ 4 }
    {
        let (bearer, direction) = (self.bearer, self.direction);
        match &self.integrity.schedule {
            Some(schedule) => eia_tag(schedule, count, bearer, direction, message),
            None => {
                let schedule = Schedule::new(&self.integrity.key);
                eia_tag(&schedule, count, bearer, direction, message)
            }
        }
    }
}

fn key_of<'a>(kind: PdcpKind, keys: &'a Keys) -> &'a Key
    ensures { result.now ≡ key_of kind keys.now }
{
    match kind {
        PdcpKind::Srb => &keys.rrc,
        PdcpKind::Um { bits: _ } => &keys.user,
        PdcpKind::Am { bits: _ } => &keys.user,
    }
}

/// The law that deciphering a ciphered text gives the text.
#[tactic(auto, using(crate::proofs::Lengths::ciphered_twice))]
pub fn deciphers_what_was_ciphered()
    ensures { (p : Protection) (count : ℕ) (text : List ℕ)
        → ciphered_with p count (ciphered_with p count text) ≡ text }
{}
