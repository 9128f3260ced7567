// Whether a block is canonical: what the grammar leaves free in one is compared, and no block is
// built (TS 36.321 6.1.2, 6.2.1).
ghost use Rattle.std.specs.Prelude.{◌≡◌, ◌<◌, ◌&&◌, true, false, length, option_map, Some, IfOk};
ghost use Rattle.l2_bits.specs.declared.limits.TheConstants.{OCTETS_LIMIT};
ghost use Rattle.mac_pdu.specs.Views.{item_in};
ghost use Rattle.mac_pdu.specs.Writing.{control_size};
ghost use Rattle.journal_form.specs.Canonical.{behind_length, behind_subheader, behind_subheaders};
ghost use Rattle.journal_form.specs.Canonical.{payload_size, are_zero, is_clear_element, is_clear};
ghost use Rattle.journal_form.specs.Canonical.{behind_payload, behind_payloads, are_all};
ghost use Rattle.journal_form.specs.Canonical.{least_behind, is_front, may_stand, are_placed};
ghost use Rattle.journal_form.specs.Canonical.{are_short, is_short};
ghost use Rattle.journal_form.specs.Tests.{is_canonical};

use l2_bits::{NoMemory, OCTETS_LIMIT};
use mac_pdu::{Bsr, Control, Direction, Item, MacReader};

/// The length of an SDU is below this (TS 36.321 6.2.1).
const SDU_LIMIT: usize = 32768;

// What stands behind F and L, where a length below 128 has 7 bits.
fn behind_length(size: usize, octets: &[u8]) -> Option<&[u8]>
    ensures { option_map (λ x. x.now) result ≡ behind_length size octets.now }
{
    match octets {
        [field, rest @ ..] if size < 128 && *field < 128 => Some(rest),
        [_, _, rest @ ..] if size >= 128 => Some(rest),
        _ => None,
    }
}

// What stands behind an item's subheader, where its R bits are 0 and its length has the shorter
// form if that holds it.
fn behind_subheader<'a>(item: Item<'_>, octets: &'a [u8]) -> Option<&'a [u8]>
    ensures { option_map (λ x. x.now) result
        ≡ behind_subheader (item_in item.entry) (Some octets.now) }
{
    let [first, rest @ ..] = octets else {
        return None;
    };
    if *first < 32 {
        return Some(rest);
    }
    if *first >= 64 {
        return None;
    }
    match item {
        Item::Sdu { octets, .. } => behind_length(octets.len(), rest),
        _ => Some(rest),
    }
}

// Whether an item is no SDU of 2^15 octets or more, for which there is no length.
fn is_short(item: Item<'_>) -> bool
    ensures { result ≡ is_short (item_in item.entry) }
{
    match item {
        Item::Sdu { octets, .. } => octets.len() < SDU_LIMIT,
        _ => true,
    }
}

// What stands behind the subheaders of a block, where each is canonical. An SDU for which there is
// no length finds no memory.
fn behind_subheaders<'a>(
    reader: MacReader<'_>,
    octets: &'a [u8],
) -> Result<Option<&'a [u8]>, NoMemory>
    ensures short { IfOk result (λ found. are_short reader.entry ≡ true) }
    ensures found { IfOk result
        (λ found. option_map (λ x. x.now) found
        ≡ behind_subheaders reader.entry (Some octets.now)) }
{
    let mut reader = reader;
    let mut rest = Some(octets);
    while let Some(item) = reader.next() {
        if !is_short(item) {
            return Err(NoMemory);
        }
        rest = match rest {
            Some(octets) => behind_subheader(item, octets),
            None => None,
        };
    }
    Ok(rest)
}

// How many octets a control element has.
fn control_size(element: Control) -> usize
    ensures { result ≡ control_size element }
{
    match element {
        Control::Contention(_) => 6,
        Control::Drx => 0,
        Control::Crnti(_) => 2,
        Control::Report(Bsr::Long { .. }) => 3,
        _ => 1,
    }
}

fn payload_size(item: Item<'_>) -> usize
    ensures { result ≡ payload_size (item_in item.entry) }
{
    match item {
        Item::Front => 0,
        Item::Element(element) => control_size(element),
        Item::Sdu { octets, .. } => octets.len(),
        Item::Padding(size) => size as usize,
    }
}

// Whether octets are 0: the first one is, and each is as the one before it.
fn are_zero(octets: &[u8]) -> bool
    ensures { result ≡ are_zero octets.now }
{
    match octets {
        [] => true,
        [first, rest @ ..] => *first == 0 && *rest == *octets.split_at(rest.len()).0,
    }
}

// Whether R bits and the octets of padding are 0, and an SDU has octets.
fn is_clear(item: Item<'_>, octets: &[u8]) -> bool
    requires { length octets.now ≡ payload_size (item_in item) }
    ensures { result ≡ is_clear (item_in item.entry) octets.now }
{
    match item {
        Item::Element(Control::Advance(_) | Control::Phr(_)) => octets[0] < 64,
        Item::Sdu { .. } => !octets.is_empty(),
        Item::Padding(_) => are_zero(octets),
        _ => true,
    }
}

// What stands behind the octets of an item, where they are canonical.
fn behind_payload<'a>(item: Item<'_>, octets: &'a [u8]) -> Option<&'a [u8]>
    ensures { option_map (λ x. x.now) result
        ≡ behind_payload (item_in item.entry) (Some octets.now) }
{
    let size = payload_size(item);
    if size > octets.len() {
        return None;
    }
    let (payload, rest) = octets.split_at(size);
    if is_clear(item, payload) {
        Some(rest)
    } else {
        None
    }
}

fn is_front(item: Item<'_>) -> bool
    ensures { result ≡ is_front (item_in item.entry) }
{
    matches!(item, Item::Front)
}

// How many octets padding at the end has at least behind an item: less of it stands in front.
fn least_behind(least: u32, item: Item<'_>) -> u32
    ensures { result ≡ least_behind least (item_in item.entry) }
{
    match item {
        Item::Element(_) => 2,
        Item::Sdu { octets, .. } if octets.len() < 128 => 1,
        Item::Sdu { .. } => 0,
        _ => least,
    }
}

// Whether an item may stand behind others, if it is padding at the end.
fn may_stand(fronted: bool, least: u32, item: Item<'_>) -> bool
    ensures { result ≡ may_stand fronted least (item_in item.entry) }
{
    match item {
        Item::Padding(size) => !fronted && size >= least,
        _ => true,
    }
}

// Whether padding stands in its place, and the octets behind the subheaders are canonical.
#[tactic(auto, using(crate::proofs::Payloads::none_left))]
fn are_clear(reader: MacReader<'_>, octets: &[u8]) -> bool
    ensures { result
        ≡ (are_placed false 0 reader.entry
        && are_all (behind_payloads reader.entry (Some octets.now))) }
{
    let mut reader = reader;
    let mut rest = octets;
    let mut fronted = false;
    let mut least = 0;
    while let Some(item) = reader.next() {
        if !may_stand(fronted, least, item) {
            return false;
        }
        let Some(behind) = behind_payload(item, rest) else {
            return false;
        };
        fronted = fronted || is_front(item);
        least = least_behind(least, item);
        rest = behind;
    }
    rest.is_empty()
}

// Whether a block is the canonical writing, in its size, of what is read in it.
pub(crate) fn is_canonical(direction: Direction, octets: &[u8]) -> Result<bool, NoMemory>
    requires { length octets.now < OCTETS_LIMIT }
    ensures { IfOk result (λ yes. yes ≡ is_canonical direction octets.now) }
{
    let Ok(reader) = MacReader::parse(direction, octets) else {
        return Ok(false);
    };
    let Some(body) = behind_subheaders(reader, octets)? else {
        return Ok(false);
    };
    let Ok(reader) = MacReader::parse(direction, octets) else {
        return Ok(false);
    };
    Ok(are_clear(reader, body))
}
