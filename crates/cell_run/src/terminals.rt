// All terminals of a cell, in ascending order.
ghost use Rattle.std.specs.Prelude.{◌≡◌, ◌≤◌, ◌++◌, length, replicate, OnOk, IfOk};
ghost use Rattle.std.specs.List.{All};
ghost use Rattle.l2_io.specs.Known.{HasRisen};
ghost use Rattle.cell_run.specs.Acting.{PutsText};
ghost use Rattle.cell_run.specs.Entries.{texts_of};
ghost use Rattle.cell_run.specs.Terminals.{fresh_terminal, up_wish, down_wish, all_wishes};
ghost use Rattle.cell_run.specs.Terminals.{all_behind, all_entries, last_entries};
ghost use Rattle.cell_text.specs.declared.line.TheConstants.{MOST_USERS};
ghost use Rattle.l2_types.specs.declared.limits.TheConstants.{GREATEST_GRANT};

use crate::fault::CellFault;
use crate::numbered::Room;
use crate::terminal::Terminal;
use cell_text::MOST_USERS;
use l2_bits::{Bytes, NoMemory};
use l2_io::Sink;
use l2_types::GREATEST_GRANT;
use std::alloc::Global;

/// So many terminals before the first line of their scripts.
pub fn fresh_terminals(alloc: Global, users: u32) -> Result<Vec<Terminal>, NoMemory>
    ensures { IfOk result (λ ts. ts.items ≡ replicate users fresh_terminal) }
{
    let mut terminals = Vec::with_capacity(alloc, users as usize)?;
    for done in 0..users {
        terminals.push(Terminal::new(alloc))?;
    }
    Ok(terminals)
}

/// What each wants to send, in octets; 0 for one that isn't there.
pub fn up_wishes(terminals: &[Terminal]) -> [u64; 8]
    requires { length terminals.now ≤ MOST_USERS }
    ensures { result ≡ all_wishes up_wish terminals.now }
{
    let mut wishes = [0; 8];
    for at in 0..terminals.len() {
        wishes[at] = terminals[at].up_wish();
    }
    wishes
}

/// What waits for each, in octets; 0 for one that isn't there.
pub fn down_wishes(terminals: &[Terminal]) -> [u64; 8]
    requires { length terminals.now ≤ MOST_USERS }
    ensures { result ≡ all_wishes down_wish terminals.now }
{
    let mut wishes = [0; 8];
    for at in 0..terminals.len() {
        wishes[at] = terminals[at].down_wish();
    }
    wishes
}

/// Runs a TTI of all with these grants, in octets, and puts their records.
pub fn run_tti<K: Sink>(
    terminals: &mut [Terminal],
    up_grants: &[u32; 8],
    down_grants: &[u32; 8],
    room: &mut Room,
    out: &mut K,
) -> Result<(), CellFault>
    requires few { length terminals.old ≤ MOST_USERS }
    requires up { All (λ grant. grant ≤ GREATEST_GRANT) up_grants.now }
    requires down { All (λ grant. grant ≤ GREATEST_GRANT) down_grants.now }
    ensures after { OnOk result
        (terminals.new ≡ all_behind up_grants.now down_grants.now 0 terminals.old) }
    ensures put { PutsText (texts_of (all_entries up_grants.now down_grants.now 0 terminals.old))
        (K.written out.old) (K.written out.new) (HasRisen (K.faults out.old) (K.faults out.new))
        result }
    ensures count { K.faults out.old ≤ K.faults out.new }
{
    for at in 0..terminals.len() {
        let user = at as u32;
        terminals[at].tti(user, up_grants[at], down_grants[at], room, out)?;
    }
    Ok(())
}

/// Adds the text of the records at the end of all.
pub fn finish_all(
    terminals: Vec<Terminal>,
    room: &mut Room,
    text: &mut Bytes,
) -> Result<(), NoMemory>
    requires { length terminals.items ≤ MOST_USERS }
    ensures { OnOk result (text.new ≡ text.old ++ texts_of (last_entries 0 terminals.items)) }
{
    let mut user = 0;
    for terminal in terminals {
        terminal.finish(user, room, text)?;
        user += 1;
    }
    Ok(())
}
