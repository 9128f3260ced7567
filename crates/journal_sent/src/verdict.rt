/// Whether PDUs carry the octets that they may, and whether their headers say truly where these
/// stand.
#[derive(Clone, Copy)]
pub(crate) struct Verdict {
    pub(crate) sent: bool,
    pub(crate) shaped: bool,
}
