//! Laws of delivery: both ends of a bearer of unacknowledged data through lives, with what is under
//! way between them. They speak of the definitions that `bearer` meets, and do nothing.

ghost use Rattle.law_deliver.specs.UmDelivery.Delivery.{DeliversWhatCame, DeliversInOrder};

/// In each direction in which losses are short, for RLC in each life and for PDCP, what goes up at
/// an end through all lives are just the SDUs whose PDUs RLC hands up, told by their places among
/// those that the other end took: in their order, each once and unchanged.
pub fn delivers_what_came()
    ensures { DeliversWhatCame }
{}

/// So what goes up at an end are some of the SDUs that the other took, and of those that were
/// submitted there: in order, each once and unchanged.
pub fn delivers_in_order()
    ensures { DeliversInOrder }
{}
