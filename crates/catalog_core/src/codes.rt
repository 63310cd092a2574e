ghost use Rattle.std.specs.Prelude.{◌≡◌, ◌<◌, ◌^◌};
ghost use Rattle.catalog_core.specs.Codes.{name_code};

use row_values::Name;

/// The number by which a name is looked up, below 2^32. Names can share one.
pub fn name_code(start: u64, name: &Name) -> u64
    requires start { start < 2 ^ 32 }
    ensures code { result ≡ name_code start name.now }
{
    let mut code = start;
    for byte in name.as_slice() {
        code = (code * 16777619 + u64::from(*byte)) % (1 << 32);
    }
    code
}
