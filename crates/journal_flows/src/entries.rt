use journal_account::StatusEntry;
use l2_bits::NoMemory;
use std::alloc::Global;
use std::marker::Model;

/// The entries of a STATUS, by true numbers, which contracts see as a list (TS 36.322 6.2.1.6).
#[derive(Drop)]
pub struct Entries {
    entries: Vec<StatusEntry>,
}

impl Model for Entries {
    ghost use Rattle.std.specs.Prelude.{List};
    ghost use Rattle.journal_account.specs.declared.entry.StatusEntry.{StatusEntry};

    ghost Value = { List StatusEntry };

    ghost view = { λ e. e.entries.items };
}

impl Entries {
    ghost use Rattle.std.specs.Prelude.{◌≡◌, [], ◌∷◌, ◌++◌, OnOk, OnErr};

    // It takes no memory.
    pub(crate) fn new(alloc: Global) -> Entries
        ensures { result ≡ [] }
    {
        Entries {
            entries: Vec::new(alloc),
        }
    }

    // An `Err` changes nothing.
    pub(crate) fn push(&mut self, entry: StatusEntry) -> Result<(), NoMemory>
        ensures ok { OnOk result (self.new ≡ self.old ++ entry ∷ []) }
        ensures err { OnErr result (self.new ≡ self.old) }
    {
        self.entries.push(entry)?;
        Ok(())
    }

    /// The entries in their order.
    pub fn as_slice(&self) -> &[StatusEntry]
        ensures { result.now ≡ self.now }
    {
        self.entries.as_slice()
    }
}
