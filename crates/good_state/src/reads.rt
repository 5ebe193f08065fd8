// Laws of what is read of a state, which callers may use. They do nothing when they run.
ghost use Rattle.std.specs.Prelude.{ℕ, List, IsErrOf};
ghost use Rattle.flash_types.specs.Asks.{Asked};
ghost use Rattle.committed_log.specs.Lawful.{IsLawful};
ghost use Rattle.delta_layer.specs.declared.built.BuildError.TheVariants.{Damaged};
ghost use Rattle.delta_layer.specs.declared.built.Job.{Job};
ghost use Rattle.delta_layer.specs.declared.view.SegmentView.{SegmentView};
ghost use Rattle.learner_read.specs.declared.snapshot.Snapshot.{Snapshot};
ghost use Rattle.segment_snapshot.specs.Rights.{IsRightScan};
ghost use Rattle.segment_work.specs.Outcomes.{FailsAsRead, read_for};
ghost use Rattle.replica_state.specs.Asks.{IsReadOf};
ghost use Rattle.replica_state.specs.Core.{Core, IsCore, full};
ghost use Rattle.replica_state.specs.Works.{task_of};
ghost use Rattle.good_state.specs.Good.{IsGoodState};
ghost use Rattle.good_state.specs.Views.{AreViewsReadable, Outcome};

/// A snapshot that is read of a good state gives the log's rows to each scan, as all that is applied
/// then makes them.
pub fn reads_of_good_states_are_right<G>()
    ensures { (bytes : G → List ℕ) (s : Core G) (ask : Asked) (snapshot : Snapshot G)
        → IsCore s → IsLawful s.log → IsGoodState bytes s → IsReadOf s ask snapshot
        → IsRightScan bytes s.log (full s) ask snapshot }
{}

/// The views of a work that is begun on a good state read, and a work whose views read is nowhere
/// damaged: its build never answers `Damaged`.
pub fn works_of_good_states_read<G>()
    ensures views { (bytes : G → List ℕ) (job : Job) (s : Core G)
        → IsGoodState bytes s
        → AreViewsReadable bytes (task_of job s).work.views }
    ensures undamaged { (bytes : G → List ℕ) (job : Job) (views : List (SegmentView G))
        → AreViewsReadable bytes views
        → (result : Outcome G) → FailsAsRead bytes (read_for job views) result
        → (at : ℕ) → IsErrOf result (Damaged at) → ⊥ }
{}
