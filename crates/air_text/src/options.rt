ghost use Rattle.std.specs.Prelude.{◌≡◌, ◌≤◌, true, ℕ, List, Option, None, Some, IfOk, MatchOption};
ghost use Rattle.std.specs.Prelude.{codes};
ghost use Rattle.air_text.specs.Words.{Gives, texts, joined, spaced, before_equals, behind_equals};
ghost use Rattle.air_text.specs.Words.{is_option, is_named, is_again, is_twice};
ghost use Rattle.air_text.specs.Options.{goes, priority_of, group_of, rlc_bits_of, pdcp_bits_of};
ghost use Rattle.air_text.specs.Options.{config_of, name_of, has_um, has_srb, has_am, has, psn_of};
ghost use Rattle.air_text.specs.Options.{option_of, word_option, options_of};
ghost use Rattle.std.specs.Str.{bytes_eq};
ghost use Rattle.bearer_types.specs.Configs.{IsConfig, AreRlcBits, ArePdcpBits};
ghost use Rattle.air_text.specs.Fields.{either_of};

use crate::fault::{LineFault, LineRefusal};
use crate::fields::{either, is_word, limit, number};
use bearer_types::BearerConfig;
use l2_bits::{Bytes, NoMemory};
use l2_types::{AmRxConfig, AmTxConfig, Channel, Kind};
use std::alloc::Global;

/// The name of an option.
#[derive(Clone, Copy, Debug, PartialEq, Eq)]
pub enum Name {
    Prio,
    Pbr,
    Bsd,
    Lcg,
    Reorder,
    Sn,
    Psn,
    PollPdu,
    PollByte,
    PollRetx,
    MaxRetx,
    Prohibit,
    Count,
}

// The two sides of the first =.
pub fn split(word: &[u8]) -> Option<(&[u8], &[u8])>
    ensures { MatchOption result (behind_equals word.now ≡ None)
        (λ p. (p.0.now ≡ before_equals word.now) × (behind_equals word.now ≡ Some p.1.now)) }
{
    for (i, x) in word.iter().enumerate() {
        if *x == b'=' {
            let (before, from) = word.split_at(i);
            let (_, behind) = from.split_at(1);
            return Some((before, behind));
        }
    }
    None
}

#[tactic(auto, unfolding(crate::specs::Words::is_option))]
fn is_named_so(name: &[u8], word: &[u8]) -> bool
    ensures { result ≡ is_option name.now word.now }
{
    let Some((found, _)) = split(word) else {
        return false;
    };
    is_word(found, name)
}

#[tactic(auto, unfolding(crate::specs::Words::is_named))]
fn is_among(name: &[u8], words: &[&[u8]]) -> bool
    ensures { result ≡ is_named name.now (texts words.now) }
{
    let mut words = words;
    while let [word, rest @ ..] = words {
        if is_named_so(name, word) {
            return true;
        }
        words = rest;
    }
    false
}

#[tactic(auto, unfolding(crate::specs::Words::is_again))]
fn comes_again(word: &[u8], words: &[&[u8]]) -> bool
    ensures { result ≡ is_again word.now (texts words.now) }
{
    let Some((name, _)) = split(word) else {
        return false;
    };
    is_among(name, words)
}

#[tactic(auto, unfolding(crate::specs::Words::is_twice))]
/// Whether two words are options of one name.
pub fn has_twice(words: &[&[u8]]) -> bool
    ensures { result ≡ is_twice (texts words.now) }
{
    let mut words = words;
    while let [word, rest @ ..] = words {
        if comes_again(word, rest) {
            return true;
        }
        words = rest;
    }
    false
}

#[tactic(auto, unfolding(crate::specs::Options::name_of))]
fn find_name(text: &[u8]) -> Option<Name>
    ensures { result ≡ name_of text.now }
{
    if is_word(text, b"prio") {
        return Some(Name::Prio);
    }
    if is_word(text, b"pbr") {
        return Some(Name::Pbr);
    }
    if is_word(text, b"bsd") {
        return Some(Name::Bsd);
    }
    if is_word(text, b"lcg") {
        return Some(Name::Lcg);
    }
    if is_word(text, b"reorder") {
        return Some(Name::Reorder);
    }
    if is_word(text, b"sn") {
        return Some(Name::Sn);
    }
    if is_word(text, b"psn") {
        return Some(Name::Psn);
    }
    if is_word(text, b"pollpdu") {
        return Some(Name::PollPdu);
    }
    if is_word(text, b"pollbyte") {
        return Some(Name::PollByte);
    }
    if is_word(text, b"pollretx") {
        return Some(Name::PollRetx);
    }
    if is_word(text, b"maxretx") {
        return Some(Name::MaxRetx);
    }
    if is_word(text, b"prohibit") {
        return Some(Name::Prohibit);
    }
    if is_word(text, b"count") {
        return Some(Name::Count);
    }
    None
}

fn takes(kind: Kind, name: Name) -> bool
    ensures { result ≡ has kind name }
{
    match kind {
        Kind::Tm => false,
        Kind::Srb => !matches!(name, Name::Sn | Name::Psn | Name::Count),
        Kind::Um => matches!(
            name,
            Name::Prio | Name::Pbr | Name::Bsd | Name::Lcg | Name::Reorder | Name::Sn | Name::Psn
        ),
        Kind::Am => !matches!(name, Name::Sn),
    }
}

/// Whether a kind goes with a logical channel.
pub fn fits(kind: Kind, lcid: u8) -> bool
    ensures { result ≡ goes kind lcid }
{
    match kind {
        Kind::Tm => lcid == 0,
        Kind::Srb => lcid == 1 || lcid == 2,
        Kind::Um => 3 <= lcid,
        Kind::Am => 3 <= lcid,
    }
}

fn priority(kind: Kind, lcid: u8) -> u8
    ensures { result ≡ priority_of kind lcid }
{
    if kind == Kind::Tm {
        return 1;
    }
    match lcid {
        1 => 1,
        2 => 3,
        _ => 8,
    }
}

fn group(kind: Kind) -> u8
    ensures { result ≡ group_of kind }
{
    match kind {
        Kind::Tm => 0,
        Kind::Srb => 0,
        Kind::Um => 3,
        Kind::Am => 3,
    }
}

fn rlc_bits(kind: Kind) -> u32
    ensures { result ≡ rlc_bits_of kind }
{
    match kind {
        Kind::Tm => 0,
        _ => 10,
    }
}

fn pdcp_bits(kind: Kind) -> u32
    ensures { result ≡ pdcp_bits_of kind }
{
    match kind {
        Kind::Tm => 0,
        Kind::Srb => 5,
        _ => 12,
    }
}

/// A bearer without an option.
#[tactic(auto, using(crate::proofs::Configs::plain_config), unfolding(crate::specs::Options::config_of))]
pub fn plain(lcid: u8, kind: Kind) -> BearerConfig
    requires goes { goes kind lcid ≡ true }
    requires few { lcid ≤ 10 }
    ensures config { result ≡ config_of lcid kind }
    ensures ranges { IsConfig result }
{
    BearerConfig {
        channel: Channel {
            lcid,
            priority: priority(kind, lcid),
            pbr: None,
            bucket: 100,
            group: group(kind),
        },
        kind,
        rlc_bits: rlc_bits(kind),
        pdcp_bits: pdcp_bits(kind),
        first: 0,
        tx: AmTxConfig {
            poll_pdu: None,
            poll_byte: None,
            poll_retransmit: 45,
            max_retx: 4,
        },
        rx: AmRxConfig {
            reorder: 35,
            prohibit: None,
        },
    }
}

fn sn(kind: Kind, text: &[u8]) -> Result<u32, LineRefusal>
    requires { has kind Name.Sn ≡ true }
    ensures value { result ≡ either_of 5 10 text.now }
    ensures ranges { IfOk result (AreRlcBits kind) }
{
    match kind {
        Kind::Um => either(text, 5, 10),
        _ => unreachable!(),
    }
}

fn psn(kind: Kind, text: &[u8]) -> Result<u32, LineRefusal>
    requires { has kind Name.Psn ≡ true }
    ensures value { result ≡ psn_of kind text.now }
    ensures ranges { IfOk result (ArePdcpBits kind) }
{
    match kind {
        Kind::Um => either(text, 7, 12),
        Kind::Am => either(text, 12, 15),
        _ => unreachable!(),
    }
}

fn option(config: BearerConfig, name: Name, text: &[u8]) -> Result<BearerConfig, LineRefusal>
    requires has { has config.kind name ≡ true }
    requires ranges { IsConfig config }
    ensures config { result ≡ option_of config name text.now }
    ensures ranges { IfOk result IsConfig }
{
    let mut config = config;
    match name {
        Name::Prio => {
            config.channel.priority = number(text, 1, 16)? as u8;
            Ok(config)
        }
        Name::Pbr => {
            config.channel.pbr = limit(text, b"inf", 0, 65535)?;
            Ok(config)
        }
        Name::Bsd => {
            config.channel.bucket = number(text, 1, 1000)?;
            Ok(config)
        }
        Name::Lcg => {
            config.channel.group = number(text, 0, 3)? as u8;
            Ok(config)
        }
        Name::Reorder => {
            config.rx.reorder = number(text, 0, 65535)?;
            Ok(config)
        }
        Name::Sn => {
            config.rlc_bits = sn(config.kind, text)?;
            Ok(config)
        }
        Name::Psn => {
            config.pdcp_bits = psn(config.kind, text)?;
            Ok(config)
        }
        Name::PollPdu => {
            config.tx.poll_pdu = limit(text, b"inf", 1, 65535)?;
            Ok(config)
        }
        Name::PollByte => {
            config.tx.poll_byte = limit(text, b"inf", 1, 4000000)?;
            Ok(config)
        }
        Name::PollRetx => {
            config.tx.poll_retransmit = number(text, 0, 65535)?;
            Ok(config)
        }
        Name::MaxRetx => {
            config.tx.max_retx = number(text, 1, 32)?;
            Ok(config)
        }
        Name::Prohibit => {
            config.rx.prohibit = limit(text, b"off", 0, 65535)?;
            Ok(config)
        }
        Name::Count => {
            config.first = number(text, 0, 4294967295)?;
            Ok(config)
        }
    }
}

#[tactic(auto, unfolding(crate::specs::Options::word_option))]
fn option_word(config: BearerConfig, word: &[u8]) -> Result<BearerConfig, LineRefusal>
    requires { IsConfig config }
    ensures config { result ≡ word_option config word.now }
    ensures ranges { IfOk result IsConfig }
{
    let Some((text, value)) = split(word) else {
        return Err(LineRefusal::Word);
    };
    let Some(name) = find_name(text) else {
        return Err(LineRefusal::Word);
    };
    if takes(config.kind, name) {
        option(config, name, value)
    } else {
        Err(LineRefusal::Word)
    }
}

#[tactic(auto, unfolding(crate::specs::Options::options_of))]
/// One word after the other.
pub fn options(config: BearerConfig, words: &[&[u8]]) -> Result<BearerConfig, LineRefusal>
    requires { IsConfig config }
    ensures config { result ≡ options_of config (texts words.now) }
    ensures ranges { IfOk result IsConfig }
{
    let mut config = config;
    let mut words = words;
    while let [word, rest @ ..] = words {
        config = option_word(config, word)?;
        words = rest;
    }
    Ok(config)
}

/// The words with a space between two.
pub fn join(alloc: Global, words: &[&[u8]]) -> Result<Bytes, NoMemory>
    ensures { IfOk result (λ text. text ≡ joined (texts words.now)) }
{
    let mut text = Bytes::new(alloc);
    let [first, rest @ ..] = words else {
        return Ok(text);
    };
    text.append(first)?;
    let mut words = rest;
    while let [word, rest @ ..] = words {
        text.append(b" ")?;
        text.append(word)?;
        words = rest;
    }
    Ok(text)
}
