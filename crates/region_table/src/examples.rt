// A small log, and what the definitions say of it. The function does nothing when it runs; its contract
// is proved by computing.
ghost use Rattle.region_table.specs.Examples.{FaultsAreTold};

/// An entry is done where it is applied, and early where its region, the source of its commit or, if it
/// makes its region, an entry before it is behind.
pub fn faults_are_told()
    ensures { FaultsAreTold }
{}
