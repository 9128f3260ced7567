// Lines that may begin a group.
ghost use Rattle.std.specs.Prelude.{◌↔◌, IsTrue};
ghost use Rattle.bearer_types.specs.Configs.{AreRlcBits, ArePdcpBits};
ghost use Rattle.journal_form.specs.Lines.{HasLayout};

use air_record::Line;
use l2_types::Kind;

fn are_rlc_bits(kind: Kind, bits: u32) -> bool
    ensures { IsTrue result ↔ AreRlcBits kind bits }
{
    match kind {
        Kind::Tm => bits == 0,
        Kind::Srb => bits == 10,
        Kind::Um => bits == 5 || bits == 10,
        Kind::Am => bits == 10,
    }
}

fn are_pdcp_bits(kind: Kind, bits: u32) -> bool
    ensures { IsTrue result ↔ ArePdcpBits kind bits }
{
    match kind {
        Kind::Tm => bits == 0,
        Kind::Srb => bits == 5,
        Kind::Um => bits == 7 || bits == 12,
        Kind::Am => bits == 12 || bits == 15,
    }
}

/// Whether a line may begin a group: where it is that of a bearer, the logical channel is 0 to 10,
/// and its numbers have bits that its kind has. Each line that was read is so.
pub fn has_layout(line: &Line) -> bool
    ensures { IsTrue result ↔ HasLayout line.now }
{
    match line {
        Line::Bearer { config, .. } => {
            config.channel.lcid <= 10
                && are_rlc_bits(config.kind, config.rlc_bits)
                && are_pdcp_bits(config.kind, config.pdcp_bits)
        }
        _ => true,
    }
}
