/// What RLC takes of PDCP.
#[derive(Clone, Copy, Debug, PartialEq, Eq)]
pub enum Take {
    /// The status report (TS 36.323 5.3.1).
    Report,
    /// The PDU of a COUNT.
    Pdu(u64),
}
