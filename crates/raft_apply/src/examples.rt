// A small log, and what its entries say. The function does nothing when it runs; its contract is proved
// by computing.
ghost use Rattle.raft_apply.specs.Examples.{EachKindIsSaid};

/// An entry of each kind says what its body says.
pub fn each_kind_is_said()
    ensures { EachKindIsSaid }
{}
