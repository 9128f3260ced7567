//! Reads short journals, and prints what the accounts of their flows tell.
//!
//! Each line of the input is a journal, with `|` between its lines, and is printed before what is
//! told of it: VT(S), VT(A), VR(R), VR(MS), VR(H), how many SDUs are in sequence, and the next
//! COUNT of each acknowledged flow; and VR(UH), VR(UR), whether losses were short, and how many
//! SDUs go up of each unacknowledged one. A line that begins with `#` says what the lines behind it
//! are about.
#![tactic(auto)]

use air_record::Record;
use journal_flows::JournalFlows;
use journal_form::has_layout;
use journal_lives::FlowLives;
use journal_text::read_text;
use l2_types::Side;
use std::alloc::Global;
use std::io;

/// What a journal tells of its flows, or `None` where it isn't read.
fn gather(alloc: Global, journal: &str) -> Option<JournalFlows> {
    let mut flows = JournalFlows::new(alloc);
    for text in journal.split('|') {
        let one = read_text(alloc, text.as_bytes()).ok()?;
        match &one {
            Record::Line { line, .. } => {
                flows.end_line().ok()?;
                let line = line.as_line();
                if has_layout(line) {
                    flows.begin_line(line);
                }
            }
            Record::Sum { .. } => {}
            _ => flows.see(&one, false).ok()?,
        }
    }
    flows.end_line().ok()?;
    Some(flows)
}

fn print_acked(rt: &HostRuntime, direction: &str, lcid: u8, flow: &FlowLives) -> io::Result<()> {
    let (account, count) = (flow.account(), flow.next_count());
    let (next, base) = (account.next(), account.base());
    let (front, bound, top) = (account.front(), account.bound(), account.top());
    let sequenced = account.sequenced();
    println!(rt; "{direction} {lcid}: {next} {base} {front} {bound} {top} {sequenced} {count}")
}

/// Takes the SDUs that go up of an unacknowledged flow, and answers how many there were.
fn count_joined(flows: &mut JournalFlows, side: Side, lcid: u8) -> u64 {
    for count in 0..u64::MAX {
        if flows.next_joined(side, lcid).is_none() {
            return count;
        }
    }
    u64::MAX
}

fn print_unacked(
    rt: &HostRuntime,
    direction: &str,
    side: Side,
    lcid: u8,
    flows: &mut JournalFlows,
) -> io::Result<()> {
    let Some(flow) = flows.um_flow(side, lcid) else {
        return Ok(());
    };
    let (top, edge) = (flow.top(), flow.edge());
    let losses = if flow.is_long() { "long" } else { "short" };
    let joined = count_joined(flows, side, lcid);
    println!(rt; "{direction} {lcid}: {top} {edge} {losses} {joined}")
}

fn print_flows(rt: &HostRuntime, flows: &mut JournalFlows) -> io::Result<()> {
    for lcid in 0..=10u8 {
        for (side, direction) in [(Side::Nb, "dl"), (Side::Ue, "ul")] {
            if let Some(flow) = flows.flow(side, lcid) {
                print_acked(rt, direction, lcid, flow)?;
            }
            print_unacked(rt, direction, side, lcid, flows)?;
        }
    }
    Ok(())
}

/// Prints a journal and what the accounts of its flows tell.
fn print_gathered(rt: &HostRuntime, line: &str, flows: Option<JournalFlows>) -> io::Result<()> {
    println!(rt; "{line}")?;
    match flows {
        Some(mut flows) => print_flows(rt, &mut flows),
        None => println!(rt; "not read"),
    }
}

fn print_line(rt: &HostRuntime, alloc: Global, line: &str) -> io::Result<()> {
    if line.starts_with('#') {
        return println!(rt; "{line}");
    }
    print_gathered(rt, line, gather(alloc, line))
}

fn main(rt: HostRuntime) -> io::Result<()> {
    let alloc = rt.alloc();
    for line in rt.lines(alloc) {
        let line = line?;
        print_line(&rt, alloc, &line)?;
    }
    Ok(())
}
