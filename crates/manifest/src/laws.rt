// What holds of a manifest and the images of its disk, whatever a program does.
ghost use Rattle.std.specs.Prelude.{◌≡◌, ◌≢◌, ℕ};
ghost use Rattle.flash_io.specs.Image.{Image};
ghost use Rattle.flash_io.specs.Crash.{Elsewhere};
ghost use Rattle.manifest.specs.declared.store.Manifest.{Manifest};
ghost use Rattle.manifest.specs.Made.{IsUnmade};
ghost use Rattle.manifest.specs.Stores.{IsNew, IsKept, HasStore, Beneath, has_of};

use flash_io::Disk;

/// What a manifest has of its disk stays where files change that are neither the root nor the
/// manifest's: where one of them is made, written over or goes, and where many do.
pub fn kept_elsewhere<D: Disk>()
    ensures one { (m : Manifest) (file : ℕ) (old new : D)
        → file ≢ 0
        → file ≢ m.file
        → IsKept (D.may_leave old) m
        → ((c : Image) → D.may_leave new c → Elsewhere file (D.may_leave old) c)
        → IsKept (D.may_leave new) m }
    ensures many { (m : Manifest) (old new : D)
        → IsKept (D.may_leave old) m
        → ((c : Image) → D.may_leave new c → (d : Image) × D.may_leave old d × (c 0 ≡ d 0) × (c m.file ≡ d m.file))
        → IsKept (D.may_leave new) m }
{}

/// Each image of a disk with a kept manifest has its store, and so has each that is one of them in
/// all files below Next, as images are while files are staged; the manifest is kept there too.
pub fn images_have_the_store<D: Disk>()
    ensures now { (m : Manifest) (old : D) (c : Image)
        → IsKept (D.may_leave old) m
        → D.may_leave old c
        → HasStore c m.file (has_of m) }
    ensures staged { (m : Manifest) (old : D) (c : Image)
        → IsKept (D.may_leave old) m
        → Beneath m.state.next (D.may_leave old) c
        → HasStore c m.file (has_of m) }
    ensures kept { (m : Manifest) (old new : D)
        → IsKept (D.may_leave old) m
        → ((c : Image) → D.may_leave new c → Beneath m.state.next (D.may_leave old) c)
        → IsKept (D.may_leave new) m }
{}

/// On a disk that a crash left, which has one image, a store may be made where nothing was
/// committed.
pub fn one_new_image_is_unmade<D: Disk>()
    ensures { (disk : D)
        → IsNew (D.files disk)
        → ((c : Image) → D.may_leave disk c → (file : ℕ) → c file ≡ D.files disk file)
        → IsUnmade (D.files disk) (D.may_leave disk) }
{}
