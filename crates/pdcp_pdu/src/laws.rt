ghost use Rattle.pdcp_pdu.specs.Laws.{UserAgain, SrbAgain};

/// A PDU of a data bearer is read again from the octets that it is written as, and no other PDU has
/// them.
pub fn reads_user_again()
    ensures { UserAgain }
{}

/// A PDU of a signalling bearer is read again from the octets that it is written as, and no other
/// PDU has them.
pub fn reads_signalling_again()
    ensures { SrbAgain }
{}
