// New blocks: their PDUs, bound to what `send` records name.
ghost use Rattle.std.specs.Prelude.{◌≡◌, ◌<◌, [], length, IfOk, OnOk};
ghost use Rattle.l2_bits.specs.declared.limits.TheConstants.{OCTETS_LIMIT};
ghost use Rattle.mac_pdu.specs.Reading.{reading};
ghost use Rattle.promises.specs.RightForm.{sdus_in};
ghost use Rattle.journal_flows.specs.Gathering.{loads, loads_parcel, parcel_of, sdus_read};
ghost use Rattle.journal_flows.specs.Accounts.{accounts};

use crate::accounts::Accounts;
use crate::parcels::{Parcel, numbered};
use crate::sending::Named;
use crate::um_pdus::um_numbered;
use bearer_types::other;
use l2_bits::{Items, NoMemory};
use l2_types::Side;
use mac_pdu::{Direction, Item, MacReader};
use pdu_show::{Kinds, Layout};
use std::alloc::Global;

// What a PDU is that is named so.
fn parcel_of(
    alloc: Global,
    kinds: &Kinds,
    flows: &Accounts,
    from: Side,
    one: Named,
    octets: &[u8],
) -> Result<Option<Parcel>, NoMemory>
    requires { length octets.now < OCTETS_LIMIT }
    ensures { IfOk result
        (λ parcel. parcel ≡ parcel_of accounts kinds.now flows.now from one octets.now) }
{
    match kinds.of(one.lcid) {
        Some(Layout::Am { .. }) => {
            let next = flows.next(from, one.lcid);
            let front = flows.front(other(from), one.lcid);
            numbered(alloc, next, front, one.lcid, one.how, octets)
        }
        Some(Layout::Um { rlc_bits, .. }) => {
            let next = flows.um_next(from, one.lcid);
            let place = flows.um_place(from, one.lcid);
            um_numbered(alloc, rlc_bits, next, place, one.lcid, one.how, octets)
        }
        _ => Ok(None),
    }
}

// A PDU is written.
fn load(
    flows: &mut Accounts,
    from: Side,
    one: Named,
    parcel: Option<Parcel>,
    parcels: &mut Items<Parcel>,
) -> Result<(), NoMemory>
    ensures { OnOk result (record { flows = flows.new; parcels = parcels.new }
        ≡ loads_parcel accounts from one.how parcel
        (record { flows = flows.old; parcels = parcels.old })) }
{
    let Some(parcel) = parcel else {
        return Ok(());
    };
    flows.write(from, one.how, &parcel)?;
    parcels.push(parcel)
}

// The PDUs of a block, one behind the other.
#[tactic(auto, using(crate::proofs::Loads::none_left))]
fn load_all(
    alloc: Global,
    kinds: &Kinds,
    flows: &mut Accounts,
    from: Side,
    named: &mut Items<Named>,
    reader: MacReader<'_>,
) -> Result<Items<Parcel>, NoMemory>
    ensures { IfOk result (λ parcels. record { flows = flows.new; parcels = parcels }
        ≡ loads accounts kinds.now from named.old (sdus_in reader.entry)
        (record { flows = flows.old; parcels = [] })) }
{
    let mut reader = reader;
    let mut parcels = Items::new(alloc);
    while let Some(item) = reader.next() {
        if let Item::Sdu { octets, .. } = item {
            let Some(one) = named.pop_front() else {
                return Ok(parcels);
            };
            let parcel = parcel_of(alloc, kinds, flows, from, one, octets)?;
            load(flows, from, one, parcel, &mut parcels)?;
        }
    }
    Ok(parcels)
}

// A block of fewer than 2^28 octets is written: its PDUs are those that are named, in their order,
// which are taken out.
#[tactic(auto, using(crate::proofs::Loads::none_left))]
pub(crate) fn load_block(
    alloc: Global,
    kinds: &Kinds,
    flows: &mut Accounts,
    from: Side,
    direction: Direction,
    named: &mut Items<Named>,
    octets: &[u8],
) -> Result<Items<Parcel>, NoMemory>
    requires { length octets.now < OCTETS_LIMIT }
    ensures { IfOk result (λ parcels. record { flows = flows.new; parcels = parcels }
        ≡ loads accounts kinds.now from named.old (sdus_read (reading direction octets.now))
        (record { flows = flows.old; parcels = [] })) }
{
    match MacReader::parse(direction, octets) {
        Ok(reader) => load_all(alloc, kinds, flows, from, named, reader),
        Err(_) => Ok(Items::new(alloc)),
    }
}
