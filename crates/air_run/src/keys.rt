ghost use Rattle.std.specs.Prelude.{◌≡◌, [], OnOk, None};
ghost use Rattle.air_run.specs.Rules.{is_used, with_key, with_keys, are_equal, is_any_used};

use eps_sec::Key;
use l2_bits::NoMemory;
use std::alloc::Global;
use std::collections::BTreeSet;
use std::marker::Model;

/// The keys that a run has used so far.
#[derive(Drop)]
pub(crate) struct UsedKeys {
    keys: BTreeSet<[u8; 16]>,
}

impl Model for UsedKeys {
    ghost use Rattle.std.specs.Prelude.{List, ℕ};

    ghost Value = { List (List ℕ) };

    ghost view = { λ u. u.keys.keys };
}

impl UsedKeys {
    pub fn new(alloc: Global) -> UsedKeys
        ensures { result ≡ [] }
    {
        UsedKeys {
            keys: BTreeSet::new(alloc),
        }
    }

    fn has(&self, key: &Key) -> bool
        ensures { result ≡ is_used key.now.octets self.now }
    {
        self.keys.contains(&key.octets)
    }

    fn add(&mut self, key: &Key) -> Result<(), NoMemory>
        ensures { OnOk result (self.new ≡ with_key key.now.octets self.old) }
    {
        self.keys.insert(key.octets)?;
        Ok(())
    }

    /// Whether one of three keys was used before, or stands twice among them.
    pub fn has_any(&self, user: &Key, rrc: &Key, integrity: &Key) -> bool
        ensures { result ≡ is_any_used user.now rrc.now integrity.now self.now }
    {
        self.has(user)
            || self.has(rrc)
            || self.has(integrity)
            || are_equal(user, rrc)
            || are_equal(user, integrity)
            || are_equal(rrc, integrity)
    }

    pub fn add_all(&mut self, user: &Key, rrc: &Key, integrity: &Key) -> Result<(), NoMemory>
        ensures { OnOk result (self.new ≡ with_keys user.now rrc.now integrity.now self.old) }
    {
        self.add(user)?;
        self.add(rrc)?;
        self.add(integrity)
    }
}

fn are_equal(a: &Key, b: &Key) -> bool
    ensures { result ≡ are_equal a.now b.now }
{
    a.octets.as_slice() == b.octets.as_slice()
}
