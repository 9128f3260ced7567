//! What the states promise over any list of calls, proved as the contract of a function that does
//! nothing.
ghost use Rattle.std.specs.Prelude.{List};
ghost use Rattle.l2_types.specs.declared.config.DrxConfig.{DrxConfig};
ghost use Rattle.drx.specs.DrxHistory.{Call, ListensRight, world_after, start};

/// A terminal listens exactly in the first TTIs of a cycle, for `inactivity` TTIs after one with a
/// new block, from 8 TTIs on after a damaged block of a process for `retransmit` TTIs unless the
/// process decoded one since, and where its uplink process holds a block.
pub fn listens_where_it_has_to()
    ensures { (config : DrxConfig) (calls : List Call)
        → ListensRight config (world_after calls (start config)) }
{}
