/// Why a block is refused, numbered from 1.
#[derive(Clone, Copy, Debug, PartialEq, Eq)]
pub enum MacWhy {
    /// The block ends before a subheader does.
    Short = 1,
    /// An LCID is reserved in this direction.
    ReservedLcid = 2,
    /// A payload runs past the block.
    LengthPast = 3,
    /// A control element's subheader stands behind that of an SDU.
    ControlAfterSdu = 4,
    /// Padding that another subheader follows is neither the first subheader, nor the second
    /// behind such padding.
    PaddingPlace = 5,
}

/// A refused block.
#[derive(Clone, Copy, Debug, PartialEq, Eq)]
pub struct MacRefusal {
    /// The octet where the subheader at fault begins, counted from 0; for `Short` the length of the
    /// block.
    pub at: u32,
    /// What is wrong there.
    pub why: MacWhy,
}
