//! Laws of the definitions. The function does nothing: its contract is the law.
ghost use Rattle.std.specs.Prelude.{◌≡◌};
ghost use Rattle.sector_device.specs.Disk.{Image};
ghost use Rattle.half_journal.specs.States.{CarriesInHalf, HalfState};

/// What an image carries in format 1 or 2 is determined: its format, half, bytes, seq and number of openings.
pub fn half_images_carry_one()
    ensures { (image : Image) (one other : HalfState) → CarriesInHalf one image → CarriesInHalf other image → one ≡ other }
{}
