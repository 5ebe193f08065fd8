// What an image stands for.
ghost use Rattle.std.specs.Prelude.{◌≡◌, ◌⊎◌, ◌≤◌, ◌<◌, ℕ, Bool, true, false};
ghost use Rattle.flash_io.specs.Image.{Image, SameBut};
ghost use Rattle.flash_types.specs.Ranges.{least_handle};
ghost use Rattle.committed_log.specs.Laws.{IsInside};
ghost use Rattle.committed_log.specs.Lawful.{IsLawful};
ghost use Rattle.committed_log.specs.Log.{Log};
ghost use Rattle.log_laws.specs.Chains.{chain_at};
ghost use Rattle.log_laws.specs.Longer.{GoesOn};
ghost use Rattle.good_replica.specs.Good.{CoversFrom};
ghost use Rattle.manifest_form.specs.States.{is_formed};
ghost use Rattle.manifest_form.specs.declared.recover.Recovered.{Recovered};
ghost use Rattle.manifest.specs.Made.{OldOrMade, new_store};
ghost use Rattle.manifest.specs.Stores.{HasStore, IsNew};
ghost use Rattle.replica_store.specs.Naming.{is_named};
ghost use Rattle.store_image.specs.Images.{HasStanding, IsEmpty, Stands, StandsAtLeast, StandsFor, columns_in};
ghost use Rattle.store_image.specs.Sound.{SameNamed};

use flash_io::Disk;

/// An image stands for a lawful log at one set of applied entries and with one safe point, by one
/// store (High among what it has) with the same segments.
pub fn images_stand_for_one_set()
    ensures set { (log : Log) → IsLawful log → (A B : ℕ → Bool) (safe other : ℕ) (c : Image)
        → StandsFor log A safe c
        → StandsFor log B other c
        → ((p : ℕ) → A p ≡ B p) × (safe ≡ other) }
    ensures store { (log : Log) → IsLawful log → (A B : ℕ → Bool) (safe other : ℕ) (c : Image)
        → (a : HasStanding log A safe c) (b : HasStanding log B other c)
        → (a.file ≡ b.file) × (a.has ≡ b.has) × (a.stands.segments ≡ b.stands.segments) }
{}

/// Where only files change that are neither the root, nor the manifest's, nor named by its state, an
/// image stands for the same, by the same store: where one of them is made, written over or goes, and
/// where files from Next on change, as while files are staged.
pub fn unnamed_files_do_not_matter()
    ensures store { (own : ℕ) (has : Recovered) (d c : Image)
        → SameNamed own has.state d c
        → HasStore d own has
        → HasStore c own has }
    ensures stands { (log : Log) (A : ℕ → Bool) (safe own : ℕ) (has : Recovered) (d c : Image)
        → HasStore d own has
        → SameNamed own has.state d c
        → StandsFor log A safe d
        → StandsFor log A safe c }
    ensures one { (own : ℕ) (has : Recovered) (file : ℕ) (d c : Image)
        → is_named own has.state file ≡ false
        → SameBut file d c
        → SameNamed own has.state d c }
    ensures beneath { (own : ℕ) (has : Recovered) (first : ℕ) (d c : Image)
        → is_formed own has.state ≡ true
        → has.state.next ≤ first
        → ((file : ℕ) → file < first → c file ≡ d file)
        → SameNamed own has.state d c }
    ensures fresh { (own : ℕ) (has : Recovered) (file : ℕ)
        → is_formed own has.state ≡ true
        → has.state.next ≤ file
        → is_named own has.state file ≡ false }
{}

/// Where only the manifest's file changes, and has the old state there, the image stands for what it
/// stood for; and where it has a new one that stands for the log with the files that were there, the
/// image stands for that.
pub fn commits_leave_old_or_new()
    ensures old { (log : Log) (A : ℕ → Bool) (safe own : ℕ) (has : Recovered) (d c : Image)
        → HasStore d own has
        → SameBut own d c
        → HasStore c own has
        → StandsFor log A safe d
        → StandsFor log A safe c }
    ensures new { (log : Log) (A : ℕ → Bool) (own : ℕ) (has : Recovered) (d c : Image)
        → SameBut own d c
        → HasStore c own has
        → Stands log A own has d
        → StandsFor log A has.state.safe_point c }
    ensures by_store { (log : Log) (A : ℕ → Bool) (safe : ℕ) (c : Image) (own : ℕ) (has : Recovered)
        → HasStore c own has
        → StandsFor log A safe c
        → (has.state.safe_point ≡ safe) × Stands log A own has c }
{}

/// What stands for a log stands for each lawful log that goes on from it.
pub fn longer_logs_are_stood_for()
    ensures { (short long : Log) → GoesOn short long → IsLawful long → (A : ℕ → Bool) (safe : ℕ) (c : Image)
        → StandsFor short A safe c
        → StandsFor long A safe c }
{}

/// Where nothing was committed an image stands for each log with nothing applied and the safe point
/// 0, and for nothing else.
pub fn new_images_stand_for_nothing()
    ensures only { (log : Log) (A : ℕ → Bool) (safe : ℕ) (c : Image)
        → IsNew c
        → StandsFor log A safe c
        → IsEmpty A safe c }
    ensures so { (log : Log) (c : Image) → IsNew c → StandsFor log (λ _. false) 0 c }
{}

/// A store that was just made stands for its log with nothing applied and the safe point 0. While it
/// is made each image is an old one or stands so.
pub fn new_stores_stand_for_nothing<D: Disk>()
    ensures made { (log : Log) (own : ℕ) (c : Image)
        → HasStore c own (new_store log.table (columns_in log) (chain_at log 0))
        → StandsFor log (λ _. false) 0 c }
    ensures any_moment { (log : Log) (old : D) (c : Image)
        → OldOrMade (D.may_leave old) (new_store log.table (columns_in log) (chain_at log 0)) c
        → D.may_leave old c ⊎ StandsFor log (λ _. false) 0 c }
{}

/// The segments of an image that stands for a log hold every handle, each once, in order.
pub fn segments_cover_all_handles()
    ensures { (log : Log) (A : ℕ → Bool) (own : ℕ) (has : Recovered) (c : Image)
        → (it : Stands log A own has c)
        → CoversFrom least_handle it.segments }
{}

/// What stands for at least a set stands for at least each set inside of it, and lower safe points.
pub fn promises_are_lowered()
    ensures { (log : Log) (B C : ℕ → Bool) (low high : ℕ) → IsInside B C → low ≤ high → (c : Image)
        → StandsAtLeast log C high c
        → StandsAtLeast log B low c }
{}
