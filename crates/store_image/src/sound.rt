// What keeps a disk sound.
ghost use Rattle.std.specs.Prelude.{◌≡◌, ℕ, Bool, List, false};
ghost use Rattle.flash_io.specs.Image.{Image, SameBut};
ghost use Rattle.flash_io.specs.Crash.{Elsewhere, LeavesOnly, NoNew, Removed};
ghost use Rattle.committed_log.specs.Lawful.{IsLawful};
ghost use Rattle.committed_log.specs.Log.{Log};
ghost use Rattle.log_laws.specs.Chains.{chain_at};
ghost use Rattle.log_laws.specs.Longer.{GoesOn};
ghost use Rattle.good_replica.specs.Trail.{Segment};
ghost use Rattle.manifest_form.specs.declared.state.State.{State};
ghost use Rattle.manifest.specs.declared.store.Manifest.{Manifest};
ghost use Rattle.manifest.specs.Made.{IsUnmade, OldOrMade, new_store};
ghost use Rattle.manifest.specs.Runs.{OldOrNew};
ghost use Rattle.manifest.specs.Stores.{IsNew, IsKept, has_of, has_with};
ghost use Rattle.replica_store.specs.Naming.{is_named};
ghost use Rattle.store_image.specs.Images.{AreRegionsRead, AreSegmentsRead, Stands, StandsForSome, columns_in};
ghost use Rattle.store_image.specs.Sound.{AreAlike, IsSound};

use flash_io::Disk;

/// A disk that a crash left, which has one image, is sound where that is an image of a sound disk.
pub fn crashes_keep_sound<D: Disk>()
    ensures { (log : Log) (old new : D)
        → IsSound log (D.files old) (D.may_leave old)
        → D.may_leave old (D.files new)
        → ((c : Image) → D.may_leave new c → (file : ℕ) → c file ≡ D.files new file)
        → IsSound log (D.files new) (D.may_leave new) }
{}

/// A disk that is sound for a log is sound for each lawful log that goes on from it.
pub fn longer_logs_keep_sound<D: Disk>()
    ensures { (short long : Log) (disk : D)
        → GoesOn short long
        → IsLawful long
        → IsSound short (D.files disk) (D.may_leave disk)
        → IsSound long (D.files disk) (D.may_leave disk) }
{}

/// Where a disk reads as before and no image is new, as after a read or when a manifest is steadied,
/// it is still sound.
pub fn fewer_images_keep_sound<D: Disk>()
    ensures { (log : Log) (old new : D)
        → D.files new ≡ D.files old
        → NoNew (D.may_leave old) (D.may_leave new)
        → IsSound log (D.files old) (D.may_leave old)
        → IsSound log (D.files new) (D.may_leave new) }
{}

/// Where one file changes that isn't named, as when a file is staged or removed, a disk with a kept
/// manifest is still sound.
pub fn unnamed_files_keep_sound<D: Disk>()
    ensures { (log : Log) (m : Manifest) (file : ℕ) (old new : D)
        → IsKept (D.may_leave old) m
        → is_named m.file m.state file ≡ false
        → SameBut file (D.files old) (D.files new)
        → ((c : Image) → D.may_leave new c → Elsewhere file (D.may_leave old) c)
        → IsSound log (D.files old) (D.may_leave old)
        → IsSound log (D.files new) (D.may_leave new) }
{}

/// A commit leaves a sound disk, whatever it answers, if its state stands for the log with the files
/// as each image has them, and these are as the disk reads them.
pub fn commits_keep_sound<D: Disk>()
    ensures { (log : Log) (m : Manifest) (A : ℕ → Bool) (state : State) (old new : D)
        → IsKept (D.may_leave old) m
        → ((c : Image) → D.may_leave old c → Stands log A m.file (has_with m state) c)
        → ((c : Image) → D.may_leave old c → AreAlike (D.files old) c state)
        → SameBut m.file (D.files old) (D.files new)
        → ((c : Image) → D.may_leave new c → OldOrNew (D.may_leave old) m.file (has_of m) (has_with m state) c)
        → IsSound log (D.files old) (D.may_leave old)
        → IsSound log (D.files new) (D.may_leave new) }
{}

/// A disk is sound once a store of the log was made on it; and where the making failed it is as sound
/// as it was.
pub fn creations_keep_sound<D: Disk>()
    ensures made { (log : Log) (m : Manifest) (new : D)
        → IsKept (D.may_leave new) m
        → has_of m ≡ new_store log.table (columns_in log) (chain_at log 0)
        → IsSound log (D.files new) (D.may_leave new) }
    ensures failed { (log : Log) (old new : D)
        → IsNew (D.files old)
        → IsUnmade (D.files new) (D.may_leave new)
        → ((c : Image) → D.may_leave new c → OldOrMade (D.may_leave old) (new_store log.table (columns_in log) (chain_at log 0)) c)
        → IsSound log (D.files old) (D.may_leave old)
        → IsSound log (D.files new) (D.may_leave new) }
{}

/// Once the manifest of a sound disk is steadied, what the disk reads of the files that it names each
/// image has.
pub fn opened_images_read_alike<D: Disk>()
    ensures segments { (log : Log) (m : Manifest) (old new : D) (segments : List Segment)
        → IsSound log (D.files old) (D.may_leave old)
        → NoNew (D.may_leave old) (D.may_leave new)
        → IsKept (D.may_leave new) m
        → AreSegmentsRead m.file (D.files old) (columns_in log) m.state.segments segments
        → (c : Image) → D.may_leave new c
        → AreSegmentsRead m.file c (columns_in log) m.state.segments segments }
    ensures regions { (log : Log) (m : Manifest) (old new : D) (A : ℕ → Bool)
        → IsSound log (D.files old) (D.may_leave old)
        → NoNew (D.may_leave old) (D.may_leave new)
        → IsKept (D.may_leave new) m
        → AreRegionsRead m.file (D.files old) log A m.state.regions
        → (c : Image) → D.may_leave new c
        → AreRegionsRead m.file c log A m.state.regions }
{}

/// At each moment of a run on a sound disk each image stands for the log: while a file that isn't
/// named is staged or removed, in a commit whose state stands for the log with the files that are
/// there, while a store is made, and while nothing is changed.
pub fn runs_leave_standing_images<D: Disk>()
    ensures staged { (log : Log) (m : Manifest) (file : ℕ) (old new : D)
        → IsSound log (D.files old) (D.may_leave old)
        → IsKept (D.may_leave old) m
        → is_named m.file m.state file ≡ false
        → LeavesOnly D.moment D.left_since old new (Elsewhere file (D.may_leave old))
        → LeavesOnly D.moment D.left_since old new (StandsForSome log) }
    ensures removed { (log : Log) (m : Manifest) (file : ℕ) (old new : D)
        → IsSound log (D.files old) (D.may_leave old)
        → IsKept (D.may_leave old) m
        → is_named m.file m.state file ≡ false
        → LeavesOnly D.moment D.left_since old new (λ c. (d : Image) × D.may_leave old d × Removed file d c)
        → LeavesOnly D.moment D.left_since old new (StandsForSome log) }
    ensures committed { (log : Log) (m : Manifest) (A : ℕ → Bool) (state : State) (old new : D)
        → IsSound log (D.files old) (D.may_leave old)
        → IsKept (D.may_leave old) m
        → ((c : Image) → D.may_leave old c → Stands log A m.file (has_with m state) c)
        → LeavesOnly D.moment D.left_since old new (OldOrNew (D.may_leave old) m.file (has_of m) (has_with m state))
        → LeavesOnly D.moment D.left_since old new (StandsForSome log) }
    ensures made { (log : Log) (old new : D)
        → IsSound log (D.files old) (D.may_leave old)
        → LeavesOnly D.moment D.left_since old new (OldOrMade (D.may_leave old) (new_store log.table (columns_in log) (chain_at log 0)))
        → LeavesOnly D.moment D.left_since old new (StandsForSome log) }
    ensures unchanged { (log : Log) (old new : D)
        → IsSound log (D.files old) (D.may_leave old)
        → LeavesOnly D.moment D.left_since old new (D.may_leave old)
        → LeavesOnly D.moment D.left_since old new (StandsForSome log) }
{}
