//! A session in which all parts have work: signalling, acknowledged and unacknowledged data,
//! losses, the test loop, buffer reports, a handover and a drain.

use crate::fault::Fault;
use std::alloc::Global;

/// What stands before the first TTI, but for the SDUs.
const CONFIGURATION: &str = "bsr on
keys 2 00000000000000000000000000000001 00000000000000000000000000000002 \
00000000000000000000000000000003
bearer 1 srb
bearer 3 am
bearer 4 um prio=2
loop a 0
";

/// New keys for both ends.
const HANDOVER: &str = "handover 00000000000000000000000000000004 \
00000000000000000000000000000005 00000000000000000000000000000006
";

const TTIS: u32 = 200;

fn submit(text: &mut String, bearer: &str, octet: &str, times: u32) -> Result<(), Fault> {
    text.push_str("submit ")?;
    text.push_str(bearer)?;
    text.push_str(" ")?;
    for _ in 0..times {
        text.push_str(octet)?;
    }
    text.push_str("\n")?;
    Ok(())
}

/// What is submitted before a TTI, and the TTI.
fn step(text: &mut String, tti: u32) -> Result<(), Fault> {
    if tti % 2 == 1 {
        submit(text, "nb 3", "3a", 1400)?;
    }
    if tti % 20 == 0 {
        submit(text, "nb 4", "4b", 40)?;
    }
    if tti == 100 {
        text.push_str(HANDOVER)?;
    }
    let outcomes = if tti % 10 == 9 {
        "tti 1500 bad 1500 bad\n"
    } else {
        "tti 1500 ok 1500 ok\n"
    };
    text.push_str(outcomes)?;
    Ok(())
}

/// The script of the session.
pub fn script(alloc: Global) -> Result<String, Fault> {
    let mut text = String::new(alloc);
    text.push_str(CONFIGURATION)?;
    submit(&mut text, "nb 1", "1c", 30)?;
    submit(&mut text, "ue 1", "2d", 30)?;
    for tti in 0..TTIS {
        step(&mut text, tti)?;
    }
    text.push_str("loop off\ndrain 1500\n")?;
    Ok(text)
}
