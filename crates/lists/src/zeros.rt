// Whether a list ends before a row.
ghost use Rattle.std.specs.Prelude.{◌≤◌, ◌≡◌, length};
ghost use Rattle.tables.specs.Definitions.Sizes.{link_rows, list_size};
ghost use Rattle.tables.specs.Definitions.Lists.{zero_from};

use tables::sizes::LINK;

// Every byte from `row` to the end is zero. All of them are looked at, so that LLVM takes sixteen at a time.
pub fn zero_from(list: &[u8], row: usize) -> bool
    requires { (length list.now ≡ list_size) × (row ≤ link_rows) }
    ensures { result ≡ zero_from list.now row }
{
    let mut most = 0u8;
    // By k, as `all_from` counts a list's bytes from its front: those of a part would have to be counted over.
    for k in LINK * row..list.len() {
        most = most.max(list[k]);
    }
    most == 0
}
