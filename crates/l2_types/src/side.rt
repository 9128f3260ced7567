/// An end of the radio link.
#[derive(Clone, Copy, Debug, PartialEq, Eq)]
pub enum Side {
    /// The base station (eNB).
    Nb,
    /// The terminal (UE).
    Ue,
}
