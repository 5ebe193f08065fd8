// Examples.
ghost use Rattle.store_image.specs.Small.{SmallImagesStand};

/// What small images stand for, computed, and why others stand for nothing.
pub fn small_images_stand()
    ensures { SmallImagesStand }
{}
