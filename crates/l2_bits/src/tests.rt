use super::*;

// ACK_SN 3 and an entry for 1 with the octets 2 to 32767, as a STATUS PDU writes them (TS 36.322
// 6.2.1.6).
const STATUS: [u8; 8] = [0x00, 0x0e, 0x00, 0xa0, 0x00, 0xbf, 0xff, 0x80];

const FIELDS: [(u32, u32); 8] = [
    (0, 4),
    (3, 10),
    (1, 1),
    (1, 10),
    (0, 1),
    (1, 1),
    (2, 15),
    (32767, 15),
];

#[test]
fn writes_and_reads_fields(rt: HostRuntime) -> Result<(), NoMemory> {
    let mut writer = BitWriter::new(rt.alloc());
    for (value, width) in FIELDS {
        assert!(rt; width == 32 || width < 32 && value < 1 << width);
        writer.put(value, width)?;
    }
    writer.fill()?;
    let written = writer.finish();
    assert_eq!(rt; written.as_slice(), STATUS.as_slice());
    let mut reader = BitReader::new(&STATUS);
    let mut at = 0;
    for (value, width) in FIELDS {
        assert!(rt; width <= 32 && at <= 64 - width);
        assert_eq!(rt; field(&STATUS, at as usize, width), value, "at bit {at}");
        assert_eq!(rt; reader.take(width), Ok(value), "at bit {at}");
        at += width;
    }
    assert_eq!(rt; reader.take(8), Err(Short { at_bit: 57 }));
    assert_eq!(rt; reader.take(7), Ok(0));
    let mut half = BitReader::new(&STATUS);
    let Ok(first) = half.take(32) else {
        return Err(NoMemory);
    };
    assert_eq!(rt; first, 0x000e_00a0);
    assert_eq!(rt; half.rest(), STATUS.split_at(4).1);
    Ok(())
}

#[test]
fn keeps_octets_and_items_in_order(rt: HostRuntime) -> Result<(), NoMemory> {
    let mut first = Bytes::from_slice(rt.alloc(), &[1, 2])?;
    first.append(&[3])?;
    let mut zeros = Bytes::with_capacity(rt.alloc(), 4)?;
    zeros.append_times(0, 2)?;
    assert_eq!(rt; zeros.as_slice(), [0, 0].as_slice());
    zeros.clear();
    assert!(rt; zeros.as_slice().is_empty());
    let mut packets = Packets::new(rt.alloc());
    packets.push(first)?;
    let mut others = Packets::new(rt.alloc());
    if let Err((_octets, no_memory)) = others.push_back(Bytes::new(rt.alloc())) {
        return Err(no_memory);
    }
    packets.append(&mut others)?;
    assert!(rt; others.is_empty());
    assert_eq!(rt; packets.len(), 2);
    assert!(rt;
        packets
            .get(1)
            .is_some_and(|octets| octets.as_slice().is_empty())
    );
    assert!(rt; packets.get(2).is_none());
    assert!(rt;
        packets
            .pop_front()
            .is_some_and(|octets| octets.as_slice() == [1, 2, 3].as_slice())
    );
    Ok(())
}
