// The buckets of the channels.
ghost use Rattle.std.specs.Prelude.{◌≡◌, ◌<◌, ◌≤◌, length, false};
ghost use Rattle.std.specs.List.{All};
ghost use Rattle.prioritise.specs.Channels.{place};
ghost use Rattle.prioritise.specs.Shares.{round_one, round_two, all_grown, grown};
ghost use Rattle.prioritise.specs.Shares.{bounded, fallen};

use crate::channel::is_before;
use arrayvec::ArrayVec;
use l2_types::Channel;
use std::marker::Model;

// A grant on its way through the channels.
#[derive(Drop)]
struct Gifts {
    levels: [u64; 11],
    shares: [u32; 11],
    left: u32,
}

impl Model for Gifts {
    ghost use Rattle.prioritise.specs.Shares.{Giving};

    ghost Value = { Giving };

    ghost view = { λ g. record { levels = g.levels; shares = g.shares; left = g.left } };
}

impl Gifts {
    ghost use Rattle.prioritise.specs.Shares.{first_part, first_given, second_part, second_given};

    fn give_first(&mut self, channel: &Channel, needs: &[u32; 11])
        requires { channel.now.lcid < 11 }
        ensures { self.new ≡ first_given channel.now (first_part channel.now needs.now self.old)
            self.old }
    {
        let at = channel.lcid as usize;
        let level = self.levels[at];
        let part = bounded_by(channel.pbr, level, needs[at].min(self.left));
        self.levels[at] = fallen_by(channel.pbr, level, part);
        self.shares[at] = part;
        self.left = self.left.saturating_sub(part);
    }

    fn give_second(&mut self, channel: &Channel, needs: &[u32; 11])
        requires { channel.now.lcid < 11 }
        ensures { self.new ≡ second_given channel.now (second_part channel.now needs.now self.old)
            self.old }
    {
        let at = channel.lcid as usize;
        let part = needs[at].saturating_sub(self.shares[at]).min(self.left);
        self.shares[at] += part;
        self.left = self.left.saturating_sub(part);
    }
}

/// The logical channels with their buckets.
#[derive(Drop)]
pub struct Buckets {
    channels: ArrayVec<Channel, 11>,
    // By LCID, in octets.
    levels: [u64; 11],
}

impl Model for Buckets {
    ghost use Rattle.prioritise.specs.Channels.{AreSound};
    ghost use Rattle.prioritise.specs.Shares.{Bucketed, bucketed};

    ghost Value = { Bucketed };

    ghost view = { λ b. bucketed b.channels.items b.levels };

    ghost invariant = { λ b. AreSound b.channels.items };
}

impl Buckets {
    ghost use Rattle.prioritise.specs.Channels.{AreSound, has};
    ghost use Rattle.prioritise.specs.Shares.{over, no_channels, added, emptied, ticked, allotted};
    ghost use Rattle.prioritise.specs.Shares.{after_allot};

    /// No channels.
    #[tactic(auto, unfolding(crate::specs::Shares::no_channels))]
    pub fn new() -> Buckets
        ensures { result ≡ no_channels }
    {
        Buckets {
            channels: ArrayVec::new(),
            levels: [0; 11],
        }
    }

    /// Whether a channel has this LCID.
    pub fn has(&self, lcid: u8) -> bool
        ensures { result ≡ has lcid self.now.channels }
    {
        self.channels
            .as_slice()
            .iter()
            .any(|channel| lcid == channel.lcid)
    }

    /// Adds a channel with an empty bucket, whose LCID is 0 to 10 and isn't there, and whose group
    /// is 0 to 3.
    #[tactic(auto, unfolding(crate::specs::Shares::added))]
    pub fn add(&mut self, channel: Channel)
        requires lcid { channel.lcid < 11 }
        requires group { channel.group < 4 }
        requires new { has channel.lcid self.old.channels ≡ false }
        ensures { self.new ≡ added channel self.old }
    {
        let at = place_of(&channel, self.channels.as_slice());
        self.channels.insert(at, channel);
    }

    /// The channels in the order of the rounds.
    pub fn channels(&self) -> &[Channel]
        ensures channels { result.now ≡ self.now.channels }
        ensures sound { AreSound result.now }
    {
        self.channels.as_slice()
    }

    /// A TTI begins: each bucket of a finite rate grows by it, up to the rate times the duration.
    #[tactic(auto, unfolding(crate::specs::Shares::ticked))]
    pub fn tick(&mut self)
        ensures { self.new ≡ ticked self.old }
    {
        grow(self.channels.as_slice(), &mut self.levels);
    }

    /// Empties the buckets, as a MAC reset does.
    #[tactic(auto, unfolding(crate::specs::Shares::emptied))]
    pub fn reset(&mut self)
        ensures { self.new ≡ emptied self.old }
    {
        self.levels = [0; 11];
    }

    /// The shares of a grant, in octets by LCID, for what each channel needs: 0 for an LCID that
    /// isn't there. The buckets fall by what round one gave.
    #[tactic(auto, unfolding(crate::specs::Shares::allotted, crate::specs::Shares::after_allot, crate::specs::Shares::shared, crate::specs::Shares::first_shared))]
    pub fn allot(&mut self, needs: &[u32; 11], grant: u32) -> [u32; 11]
        ensures shares { result ≡ allotted self.old needs.now grant }
        ensures within { over self.old.channels result ≤ grant }
        ensures buckets { self.new ≡ after_allot self.old needs.now grant }
    {
        let mut gifts = Gifts {
            levels: self.levels,
            shares: [0; 11],
            left: grant,
        };
        give(self.channels.as_slice(), needs, &mut gifts);
        self.levels = gifts.levels;
        gifts.shares
    }
}

// The place of a new channel in the order of the rounds.
fn place_of(channel: &Channel, channels: &[Channel]) -> usize
    ensures place { result ≡ place channel.now channels.now }
    ensures within { result ≤ length channels.now }
{
    let mut at = 0;
    while at < channels.len() && is_before(&channels[at], channel) {
        at += 1;
    }
    at
}

// A grant goes through the channels in two rounds.
fn give(channels: &[Channel], needs: &[u32; 11], gifts: &mut Gifts)
    requires { All (λ c. c.lcid < 11) channels.now }
    ensures { gifts.new
        ≡ round_two channels.now needs.now (round_one channels.now needs.now gifts.old) }
{
    give_all_first(channels, needs, gifts);
    give_all_second(channels, needs, gifts);
}

fn give_all_first(channels: &[Channel], needs: &[u32; 11], gifts: &mut Gifts)
    requires { All (λ c. c.lcid < 11) channels.now }
    ensures { gifts.new ≡ round_one channels.now needs.now gifts.old }
{
    for channel in channels {
        gifts.give_first(channel, needs);
    }
}

fn give_all_second(channels: &[Channel], needs: &[u32; 11], gifts: &mut Gifts)
    requires { All (λ c. c.lcid < 11) channels.now }
    ensures { gifts.new ≡ round_two channels.now needs.now gifts.old }
{
    for channel in channels {
        gifts.give_second(channel, needs);
    }
}

fn grow(channels: &[Channel], levels: &mut [u64; 11])
    requires { All (λ c. c.lcid < 11) channels.now }
    ensures { levels.new ≡ all_grown channels.now levels.old }
{
    for channel in channels {
        let at = channel.lcid as usize;
        levels[at] = grown_by(channel.pbr, channel.bucket, levels[at]);
    }
}

// A bucket after a TTI more.
fn grown_by(pbr: Option<u32>, duration: u32, level: u64) -> u64
    ensures { result ≡ grown pbr duration level }
{
    match pbr {
        Some(rate) => level
            .saturating_add(rate as u64)
            .min(rate as u64 * duration as u64),
        None => level,
    }
}

// A part, at most what a bucket of a finite rate has.
fn bounded_by(pbr: Option<u32>, level: u64, part: u32) -> u32
    ensures { result ≡ bounded pbr level part }
{
    match pbr {
        Some(_) if level < part as u64 => level as u32,
        _ => part,
    }
}

// A bucket after it gave a part.
fn fallen_by(pbr: Option<u32>, level: u64, part: u32) -> u64
    ensures { result ≡ fallen pbr level part }
{
    match pbr {
        Some(_) => level.saturating_sub(part as u64),
        None => level,
    }
}
