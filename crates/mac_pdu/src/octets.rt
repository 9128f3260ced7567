ghost use Rattle.std.specs.Prelude.{◌≡◌, ◌+◌, ◌<◌, ◌^◌, [], ◌∷◌, ◌++◌, length, map, OnOk};
ghost use Rattle.std.specs.Prelude.{replicate, All};
ghost use Rattle.std.specs.List.{flat_map};
ghost use Rattle.mac_pdu.specs.Items.{front, element, padding as end, control_lcid, control_octets};
ghost use Rattle.mac_pdu.specs.Items.{IsControl, sdu_item};
ghost use Rattle.mac_pdu.specs.Writing.{IsSdu, headers, length_field, inner, payload, writing};

use crate::builder::Sdu;
use crate::item::{Bsr, Control, Direction};
use l2_bits::{Bytes, NoMemory};

/// The LCID of a control element.
fn lcid(control: &Control) -> u8
    ensures { result ≡ control_lcid control.now }
{
    match control {
        Control::Contention(_) => 28,
        Control::Advance(_) => 29,
        Control::Drx => 30,
        Control::Phr(_) => 26,
        Control::Crnti(_) => 27,
        Control::Report(Bsr::Truncated { .. }) => 28,
        Control::Report(Bsr::Short { .. }) => 29,
        Control::Report(Bsr::Long { .. }) => 30,
    }
}

/// Writes the octets of a control element.
fn put_control(out: &mut Bytes, direction: Direction, control: &Control) -> Result<(), NoMemory>
    requires { IsControl direction control.now }
    ensures { OnOk result (out.new ≡ out.old ++ control_octets control.now) }
{
    match control {
        Control::Contention(id) => out.append(id),
        Control::Advance(value) => out.append(&[*value]),
        Control::Drx => Ok(()),
        Control::Phr(level) => out.append(&[*level]),
        Control::Crnti(value) => out.append(&value.to_be_bytes()),
        Control::Report(Bsr::Truncated { group, level }) => out.append(&[(group << 6) | level]),
        Control::Report(Bsr::Short { group, level }) => out.append(&[(group << 6) | level]),
        Control::Report(
            Bsr::Long {
                levels: [a, b, c, d],
            },
        ) => out.append(&[
            (a << 2) | (b >> 4),
            ((b & 15) << 4) | (c >> 2),
            ((c & 3) << 6) | d,
        ]),
    }
}

/// Writes F and L.
fn put_length(out: &mut Bytes, len: usize) -> Result<(), NoMemory>
    requires { len < 2 ^ 15 }
    ensures { OnOk result (out.new ≡ out.old ++ length_field len) }
{
    if len < 128 {
        out.append(&[len as u8])
    } else {
        out.append(&[128 + (len >> 8) as u8, (len & 0xff) as u8])
    }
}

/// Writes the subheaders of control elements that others follow.
fn put_control_heads(out: &mut Bytes, controls: &[Control]) -> Result<(), NoMemory>
    ensures { OnOk result (out.new ≡ out.old ++ flat_map inner (map element controls.now)) }
{
    for control in controls {
        out.append(&[0x20 + lcid(control)])?;
    }
    Ok(())
}

/// Writes the subheaders of SDUs that others follow.
fn put_sdu_heads(out: &mut Bytes, sdus: &[Sdu]) -> Result<(), NoMemory>
    requires { All IsSdu sdus.now }
    ensures { OnOk result (out.new ≡ out.old ++ flat_map inner (map sdu_item sdus.now)) }
{
    for sdu in sdus {
        out.append(&[0x20 + sdu.lcid])?;
        put_length(out, sdu.octets.as_slice().len())?;
    }
    Ok(())
}

/// Writes the octets of control elements.
fn put_controls(out: &mut Bytes, direction: Direction, controls: &[Control]) -> Result<(), NoMemory>
    requires { All (IsControl direction) controls.now }
    ensures { OnOk result (out.new ≡ out.old ++ flat_map payload (map element controls.now)) }
{
    for control in controls {
        put_control(out, direction, control)?;
    }
    Ok(())
}

/// Writes the octets of SDUs.
fn put_sdus(out: &mut Bytes, sdus: &[Sdu]) -> Result<(), NoMemory>
    ensures { OnOk result (out.new ≡ out.old ++ flat_map payload (map sdu_item sdus.now)) }
{
    for sdu in sdus {
        out.append(sdu.octets.as_slice())?;
    }
    Ok(())
}

/// Writes the subheaders of all items, which another follows.
fn put_open_heads(out: &mut Bytes, controls: &[Control], sdus: &[Sdu]) -> Result<(), NoMemory>
    requires { All IsSdu sdus.now }
    ensures { OnOk result
        (out.new ≡ out.old ++ flat_map inner (map element controls.now ++ map sdu_item sdus.now)) }
{
    put_control_heads(out, controls)?;
    put_sdu_heads(out, sdus)
}

/// Writes the subheaders of all items, the last of which none follows.
fn put_ended_heads(out: &mut Bytes, controls: &[Control], sdus: &[Sdu]) -> Result<(), NoMemory>
    requires { All IsSdu sdus.now }
    ensures { OnOk result
        (out.new ≡ out.old ++ headers (map element controls.now ++ map sdu_item sdus.now)) }
{
    match (controls.split_last(), sdus.split_last()) {
        (_, Some((last, sdus))) => {
            put_control_heads(out, controls)?;
            put_sdu_heads(out, sdus)?;
            out.append(&[last.lcid])
        }
        (Some((last, controls)), None) => {
            put_control_heads(out, controls)?;
            out.append(&[lcid(last)])
        }
        (None, None) => Ok(()),
    }
}

/// Writes the octets of all items.
fn put_payloads(
    out: &mut Bytes,
    direction: Direction,
    controls: &[Control],
    sdus: &[Sdu],
) -> Result<(), NoMemory>
    requires { All (IsControl direction) controls.now }
    ensures { OnOk result
        (out.new ≡ out.old ++ flat_map payload (map element controls.now ++ map sdu_item sdus.now)) }
{
    put_controls(out, direction, controls)?;
    put_sdus(out, sdus)
}

/// Writes all items behind `fronts` subheaders of padding.
pub fn put_fronted(
    out: &mut Bytes,
    direction: Direction,
    fronts: u32,
    controls: &[Control],
    sdus: &[Sdu],
) -> Result<(), NoMemory>
    requires controls { All (IsControl direction) controls.now }
    requires sdus { All IsSdu sdus.now }
    requires some { 0 < length (writing (map element controls.now ++ map sdu_item sdus.now)) }
    ensures { OnOk result
        (out.new ≡ out.old
        ++ writing (replicate fronts front
        ++ (map element controls.now ++ map sdu_item sdus.now))) }
{
    out.append_times(0x3f, fronts)?;
    put_ended_heads(out, controls, sdus)?;
    put_payloads(out, direction, controls, sdus)
}

/// Writes all items, and `padding` octets of padding behind their subheader.
pub fn put_padded(
    out: &mut Bytes,
    direction: Direction,
    controls: &[Control],
    sdus: &[Sdu],
    padding: u32,
) -> Result<(), NoMemory>
    requires controls { All (IsControl direction) controls.now }
    requires sdus { All IsSdu sdus.now }
    ensures { OnOk result
        (out.new ≡ out.old
        ++ writing ((map element controls.now ++ map sdu_item sdus.now) ++ end padding ∷ [])) }
{
    put_open_heads(out, controls, sdus)?;
    out.append(&[0x1f])?;
    put_payloads(out, direction, controls, sdus)?;
    out.append_times(0, padding)
}
