ghost use Rattle.std.specs.Prelude.{◌≡◌, ◌≤◌, ◌<◌, None, IfSome, All, slice_index_or, length};
ghost use Rattle.bearer_types.specs.Configs.{AreRlcBits, ArePdcpBits};
ghost use Rattle.pdu_show.specs.Kinds.{layout_of, IsLayout, AreLayouts, none_known, with_kind};

use l2_types::Kind;
use pdcp_pdu::PdcpKind;
use std::marker::Model;

/// How the RLC PDUs of a logical channel are read, and the PDCP PDUs in them.
#[derive(Clone, Copy, Debug, PartialEq, Eq)]
pub enum Layout {
    /// Transparent.
    Tm,
    /// Unacknowledged, with RLC numbers of so many bits.
    Um { rlc_bits: u32, pdcp: PdcpKind },
    /// Acknowledged.
    Am { pdcp: PdcpKind },
}

/// The bearers that are known, by their logical channels.
#[derive(Drop)]
pub struct Kinds {
    layouts: [Option<Layout>; 11],
}

impl Model for Kinds {
    ghost use Rattle.std.specs.Prelude.{List, Option};
    ghost use Rattle.pdu_show.specs.declared.kinds.Layout.{Layout};
    ghost use Rattle.pdu_show.specs.Kinds.{AreLayouts};

    ghost Value = { List (Option Layout) };

    ghost view = { λ k. k.layouts };

    ghost invariant = { λ k. AreLayouts k.layouts };
}

fn layout_for(kind: Kind, rlc_bits: u32, pdcp_bits: u32) -> Layout
    requires rlc { AreRlcBits kind rlc_bits }
    requires pdcp { ArePdcpBits kind pdcp_bits }
    ensures layout { result ≡ layout_of kind rlc_bits pdcp_bits }
    ensures bits { IsLayout result }
{
    match kind {
        Kind::Tm => Layout::Tm,
        Kind::Srb => Layout::Am {
            pdcp: PdcpKind::Srb,
        },
        Kind::Um => Layout::Um {
            rlc_bits,
            pdcp: PdcpKind::Um { bits: pdcp_bits },
        },
        Kind::Am => Layout::Am {
            pdcp: PdcpKind::Am { bits: pdcp_bits },
        },
    }
}

impl Kinds {
    /// No bearer is known.
    pub fn new() -> Kinds
        ensures { result ≡ none_known }
    {
        Kinds {
            layouts: [None; 11],
        }
    }

    /// Knows a bearer by its kind and the bits of its numbers, in place of one that was known on
    /// the logical channel.
    ///
    /// `lcid` is 0 to 10; the bits are those that a configuration of the kind has.
    pub fn set(&mut self, lcid: u8, kind: Kind, rlc_bits: u32, pdcp_bits: u32)
        requires lcid { lcid ≤ 10 }
        requires rlc { AreRlcBits kind rlc_bits }
        requires pdcp { ArePdcpBits kind pdcp_bits }
        ensures { self.new ≡ with_kind self.old lcid kind rlc_bits pdcp_bits }
    {
        self.layouts[lcid as usize] = Some(layout_for(kind, rlc_bits, pdcp_bits));
    }

    /// How the SDUs of a logical channel are read; `None` where no bearer is known on it.
    pub fn of(&self, lcid: u8) -> Option<Layout>
        ensures layout { result ≡ slice_index_or self.now lcid None }
        ensures bits { IfSome result IsLayout }
    {
        match self.layouts.get(lcid as usize) {
            Some(layout) => *layout,
            None => None,
        }
    }
}
