//! What the terminals of a cell ask for, and what each is granted of a total.
//!
//! Numbers are octets of one TTI and direction. A cell has at most 8 terminals.
#![tactic(auto)]

mod grants;
pub mod laws;
mod levels;

pub use grants::share;
pub use levels::{LEAST_WISH, wish};

#[cfg(test)]
mod tests {
    use super::*;
    use std::test::Fail;

    #[test]
    fn wishes_by_levels(rt: HostRuntime) -> Result<(), Fail> {
        let rows = [
            ([0, 0, 0, 0], 64),
            ([1, 2, 3, 4], 117),
            ([0, 62, 0, 0], 150_064),
            ([0, 63, 0, 0], 150_064),
            ([63, 63, 63, 63], 600_064),
        ];
        for (levels, want) in rows {
            assert_eq!(rt; wish(&levels), want, "{levels:?}");
        }
        Ok(())
    }

    #[test]
    fn grants_in_turn(rt: HostRuntime) -> Result<(), Fail> {
        let rows = [
            (
                [64, 65, 0, 0, 0, 0, 0, 0],
                2,
                0,
                100,
                [64, 36, 0, 0, 0, 0, 0, 0],
            ),
            (
                [64, 64, 0, 0, 0, 0, 0, 0],
                2,
                1,
                100,
                [36, 64, 0, 0, 0, 0, 0, 0],
            ),
            (
                [20_000, 9_423, 64, 7, 1, 1, 1, 1],
                3,
                1,
                18_000,
                [8_514, 9_422, 64, 0, 0, 0, 0, 0],
            ),
            (
                [64, 64, 64, 64, 64, 64, 64, 64],
                8,
                7,
                150,
                [64, 22, 0, 0, 0, 0, 0, 64],
            ),
        ];
        for (wishes, users, first, total, want) in rows {
            assert_eq!(rt; share(&wishes, users, first, total), want, "{wishes:?}");
        }
        Ok(())
    }
}
