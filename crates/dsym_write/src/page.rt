//! Pages, at whose ends segments begin.

ghost use Rattle.std.specs.Prelude.{◌≡◌, ◌<◌, ◌^◌};
ghost use Rattle.dsym_write.specs.Bundle;

/// The size of a page in bytes.
const PAGE_SIZE: u128 = 0x1000;

/// The next multiple of the size of a page.
pub(crate) fn page_end(n: u128) -> u128
    requires { n < 2 ^ 127 }
    ensures { result ≡ Bundle.page_end n }
{
    (n + (PAGE_SIZE - 1)) / PAGE_SIZE * PAGE_SIZE
}
