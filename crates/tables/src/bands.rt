// Bands: the number of binary digits of a squared distance.
ghost use Rattle.std.specs.Prelude.{◌<◌, ◌≡◌};
ghost use Rattle.tables.specs.Definitions.Sizes.{band_count};
ghost use Rattle.tables.specs.Definitions.Bands.{binary_digits};

// The band of a squared distance.
pub fn band(d: u32) -> u32
    ensures { (result ≡ binary_digits d) × (result < band_count) }
{
    32 - d.leading_zeros()
}
