ghost use Rattle.std.specs.Prelude.{◌≡◌};
ghost use Rattle.bearer_types.specs.Sides as sides;

use l2_types::Side;
use mac_pdu::Direction;

/// The other end of a link.
pub fn other(side: Side) -> Side
    ensures { result ≡ sides.other side }
{
    match side {
        Side::Nb => Side::Ue,
        Side::Ue => Side::Nb,
    }
}

/// The end that sends in a direction (TS 36.321 3.1).
pub fn sender_of(direction: Direction) -> Side
    ensures { result ≡ sides.sender_of direction }
{
    match direction {
        Direction::Down => Side::Nb,
        Direction::Up => Side::Ue,
    }
}
