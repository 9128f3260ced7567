ghost use Rattle.std.specs.Prelude.{◌≡◌, ℕ, ◌+◌, ◌<◌, ◌≤◌, ◌^◌, [], ◌∷◌, drop, length, Option};
ghost use Rattle.std.specs.Prelude.{None, Some, MatchOption, MatchResult, IfSome, IfOk, IfErr, Ok};
ghost use Rattle.std.specs.Prelude.{Err, List};
ghost use Rattle.mac_pdu.specs.Items.{MacItem};
ghost use Rattle.mac_pdu.specs.Grammar.{MacPdu};
ghost use Rattle.mac_pdu.specs.declared.subheader.Stage.TheVariants as stage;
ghost use Rattle.mac_pdu.specs.Refusals.{MacRefused, subheaders, first_fault, overrun, header_size};
ghost use Rattle.mac_pdu.specs.Reading.{reading, item_of, behind};
ghost use Rattle.mac_pdu.specs.Subheaders.{payload_len};
ghost use Rattle.mac_pdu.specs.Views.{item_in, IsShort};
ghost use Rattle.l2_bits.specs.declared.limits.TheConstants.{OCTETS_LIMIT};

use crate::fault::{MacRefusal, MacWhy};
use crate::item::{Direction, Item};
use crate::subheader::{Kind, Stage, Subheader, control, fault, front, next_stage, payload_size};
use std::marker::Model;

/// The items of a block that haven't been taken.
#[derive(Drop)]
pub struct MacReader<'a> {
    direction: Direction,
    /// The block from the next subheader on; nothing after the last.
    headers: &'a [u8],
    /// The block from the next payload on.
    payloads: &'a [u8],
}

impl<'a> Model for MacReader<'a> {
    ghost use Rattle.l2_bits.specs.declared.limits.TheConstants.{OCTETS_LIMIT};
    ghost use Rattle.std.specs.Prelude.{◌≡◌, ◌<◌, ◌^◌, List, None, length};
    ghost use Rattle.mac_pdu.specs.Items.{MacItem};
    ghost use Rattle.mac_pdu.specs.Refusals.{subheaders, overrun};
    ghost use Rattle.mac_pdu.specs.Reading.{items};

    ghost Value = { List MacItem };

    ghost view = { λ r. items (subheaders r.direction 0 r.headers.now) r.payloads.now };

    ghost invariant = { λ r.
        (overrun 0 (subheaders r.direction 0 r.headers.now) r.payloads.now ≡ None)
        × (length r.payloads.now < OCTETS_LIMIT) };
}

impl<'a> MacReader<'a> {
    /// A reader of the items of a block of fewer than 2^28 octets, or why the block is refused.
    ///
    /// The whole block is checked, and no memory is taken.
    #[inline(always)]
    pub fn parse(direction: Direction, block: &'a [u8]) -> Result<MacReader<'a>, MacRefusal>
        requires { length block.now < OCTETS_LIMIT }
        // What is answered: the items that the grammar gives, or the first fault.
        ensures items { IfOk result (λ items. MacPdu direction items block.now) }
        ensures refused { IfErr result (λ refusal. MacRefused direction block.now refusal) }

        // When: always where the grammar gives items, always where there is a fault.
        ensures ok { (items : List MacItem) → MacPdu direction items block.now → result ≡ Ok items }
        ensures err { (refusal : MacRefusal) → MacRefused direction block.now refusal
            → result ≡ Err refusal }

        // The same as a function of the octets.
        ensures exact { result ≡ reading direction block.now }
    {
        MacReader::read(direction, block)
    }

    /// Takes the next item, `None` exactly after the last.
    #[inline(always)]
    pub fn next(&mut self) -> Option<Item<'a>>
        ensures item { MatchOption result
            ((self.old ≡ []) × (self.new ≡ []))
            (λ item. self.old ≡ item_in item ∷ self.new) }
        ensures short { IfSome result (λ item. IsShort (item_in item)) }
    {
        let one = front(self.direction, self.headers)?;
        let n = payload_size(&one, self.payloads.len());
        let (payload, rest) = self.payloads.split_at(n);
        self.headers = headers_behind(&one, self.headers);
        self.payloads = rest;
        Some(item(&one, payload))
    }

    /// What `parse` answers, as a function of the octets.
    fn read(direction: Direction, block: &'a [u8]) -> Result<MacReader<'a>, MacRefusal>
        requires { length block.now < OCTETS_LIMIT }
        ensures { result ≡ reading direction block.now }
    {
        let header = header_len(direction, block)?;
        let payloads = block.split_at(header).1;
        if let Some(at) = first_overrun(direction, block, payloads) {
            return Err(MacRefusal {
                at: at as u32,
                why: MacWhy::LengthPast,
            });
        }
        Ok(MacReader {
            direction,
            headers: block,
            payloads,
        })
    }
}

/// How many octets the subheaders have, or the first fault among them.
#[tactic(auto, unfolding(crate::specs::Refusals::first_fault))]
fn header_len(direction: Direction, block: &[u8]) -> Result<usize, MacRefusal>
    requires { length block.now < OCTETS_LIMIT }
    ensures fault { MatchResult result
        (λ n. (first_fault stage.Start 0 (length block.now) (subheaders direction 0 block.now)
        ≡ None)
        × (n ≡ header_size (subheaders direction 0 block.now))
        × (n ≤ length block.now))
        (λ e. first_fault stage.Start 0 (length block.now) (subheaders direction 0 block.now)
        ≡ Some e) }
{
    let mut rest = block;
    let mut at = 0;
    let mut stage = Stage::Start;
    while let Some(one) = front(direction, rest) {
        if let Some(why) = fault(stage, one.kind, one.more) {
            return Err(MacRefusal { at: at as u32, why });
        }
        at += one.size;
        if !one.more {
            return Ok(at);
        }
        stage = next_stage(stage, one.kind);
        rest = rest.split_at(one.size).1;
    }
    Err(MacRefusal {
        at: block.len() as u32,
        why: MacWhy::Short,
    })
}

/// Where the first subheader stands whose payload runs past the block.
#[tactic(auto, unfolding(crate::specs::Refusals::overrun))]
fn first_overrun(direction: Direction, headers: &[u8], payloads: &[u8]) -> Option<usize>
    requires { length headers.now < OCTETS_LIMIT }
    ensures at { result ≡ overrun 0 (subheaders direction 0 headers.now) payloads.now }
    ensures within { IfSome result (λ at. at ≤ length headers.now) }
{
    let mut headers = headers;
    let mut payloads = payloads;
    let mut at = 0;
    while let Some(one) = front(direction, headers) {
        let n = payload_size(&one, payloads.len());
        if payloads.len() < n {
            return Some(at);
        }
        if !one.more {
            return None;
        }
        payloads = payloads.split_at(n).1;
        headers = headers.split_at(one.size).1;
        at += one.size;
    }
    None
}

/// The item that a subheader and its payload give.
#[tactic(auto, unfolding(crate::specs::Reading::item_of, crate::specs::Subheaders::payload_len))]
fn item<'a>(one: &Subheader, payload: &'a [u8]) -> Item<'a>
    requires whole { length payload.now ≡ payload_len one.now (length payload.now) }
    requires short { length payload.now < OCTETS_LIMIT }
    ensures item { item_in result ≡ item_of one.now payload.now }
    ensures short { IsShort (item_in result) }
{
    match one.kind {
        Kind::Sdu => Item::Sdu {
            lcid: one.lcid,
            octets: payload,
        },
        Kind::Control(element) => Item::Element(control(element, payload)),
        Kind::Padding if one.more => Item::Front,
        Kind::Padding | Kind::Reserved => Item::Padding(payload.len() as u32),
    }
}

/// The octets of the subheaders after one.
fn headers_behind<'a>(one: &Subheader, headers: &'a [u8]) -> &'a [u8]
    requires { one.now.size ≤ length headers.now }
    ensures { result.now ≡ behind one.now headers.now }
{
    if one.more { &headers[one.size..] } else { &[] }
}
