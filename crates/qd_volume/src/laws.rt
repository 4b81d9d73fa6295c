//! What follows from the meaning of a volume, for whoever stands on it.
ghost use Rattle.qd_volume.specs.Disk.{Disk, Image, changed, file_of, images_now, images_since, moment, reads_of};
ghost use Rattle.qd_volume.specs.Files.{Change, IsImageOf, Synced};
ghost use Rattle.std.specs.Prelude.{◌≡◌, ◌≢◌, ◌⊎◌, ◌≤◌, ℕ, List};

/// A volume as it reads is one of its images: a crash may leave all that was done.
pub fn reads_as_an_image()
    ensures { (disk : Disk) → images_now disk (reads_of disk) }
{}

/// After a sync that succeeds a file's only image is what it reads.
pub fn synced_as_it_reads()
    ensures only { (disk : Disk) (file : ℕ) (image : List ℕ) → IsImageOf (file_of (changed disk file Synced) file) image → image ≡ reads_of disk file }
    ensures reads { (disk : Disk) (file other : ℕ) → reads_of (changed disk file Synced) other ≡ reads_of disk other }
{}

/// A call on one file leaves the others: what they read, and their images.
pub fn other_files_stay()
    ensures { (disk : Disk) (file other : ℕ) (change : Change) → file ≢ other → file_of (changed disk file change) other ≡ file_of disk other }
{}

/// The images now are among those since any moment.
pub fn now_is_a_moment_since()
    ensures among { (disk : Disk) (start : ℕ) (image : Image) → images_now disk image → images_since disk start image }

    // Since this moment there is no other.
    ensures only { (disk : Disk) (image : Image) → images_since disk (moment disk) image → images_now disk image }
{}

/// A change adds to the images since a moment what a crash may leave after it, and takes none away.
pub fn moments_go_on()
    ensures no_others { (disk : Disk) (file : ℕ) (change : Change) (start : ℕ) (image : Image) → images_since (changed disk file change) start image → images_now (changed disk file change) image ⊎ images_since disk start image }
    ensures keeps { (disk : Disk) (file : ℕ) (change : Change) (start : ℕ) (image : Image) → start ≤ moment disk → images_since disk start image → images_since (changed disk file change) start image }
{}
