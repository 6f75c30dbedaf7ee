// How many links have each number of binary digits in their squared distance, as bytes.
ghost use Rattle.std.specs.Prelude.{◌≤◌, ◌≡◌, length, replicate};
ghost use Rattle.matching.specs.Definitions.Sizes.{link_rows};
ghost use Rattle.tables.specs.Definitions.Sizes.{band_count, count_size, counts_size};
ghost use Rattle.tables.specs.Definitions.Fields.{nat_bytes};
ghost use Rattle.tables.specs.Definitions.Rows.{flat};
ghost use Rattle.tables.specs.Definitions.Bands.{band_bytes};
ghost use Rattle.tables.specs.Laws.Bands.{band_counts};
ghost use Rattle.lists.specs.Lists.{distances, links_of};

use tables::bands::band;
use tables::fields::put_nat;
use tables::sizes::{self, COUNT};

// The number of links in each band.
// At most link_rows links, said here and in each clause that needs it: callers lend a part of a buffer as a slice.
fn tally(links: &[[u32; 4]], found: &mut [u32])
    requires { (length links.now ≤ link_rows) × (found.old ≡ replicate band_count 0) }
    ensures { found.new ≡ band_counts (distances (links_of links.now)) }
{
    for link in links {
        // usize has no From of u32.
        found[band(link[2]) as usize] += 1;
    }
}

// The counts one after the other.
fn put_counts(counts: &mut [u8], found: &[u32])
    requires { (length counts.old ≡ counts_size) × (length found.now ≡ band_count) }
    ensures { counts.new ≡ flat (nat_bytes count_size) found.now }
{
    for k in 0..sizes::BANDS {
        put_nat::<COUNT>(counts, COUNT * k, found[k]);
    }
}

// The counts of the links.
pub fn count_bands(links: &[[u32; 4]], counts: &mut [u8])
    requires { (length links.now ≤ link_rows) × (length counts.old ≡ counts_size) }
    ensures { counts.new ≡ band_bytes (links_of links.now) }
{
    let mut found = [0u32; sizes::BANDS];
    tally(links, &mut found);
    put_counts(counts, &found);
}
