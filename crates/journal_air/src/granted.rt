use air_record::Outcome;

/// What a line grants in a TTI, in octets, and what becomes of it.
#[derive(Clone, Copy, Debug, PartialEq, Eq)]
pub struct Granted {
    pub up_grant: u32,
    pub up: Outcome,
    pub down_grant: u32,
    pub down: Outcome,
    /// Whether the terminal may sleep.
    pub may_sleep: bool,
}

/// The TTIs that a line has still to have.
#[derive(Clone, Copy, Debug, PartialEq, Eq)]
pub enum Due {
    /// None.
    Nothing,
    /// One.
    Once(Granted),
    /// Any number, with this grant in both directions.
    Often(u32),
}
