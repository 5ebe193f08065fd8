// The random numbers, and what a transaction takes from its own.
ghost use Rattle.std.specs.Prelude.{◌≡◌, ◌+◌, ◌*◌, ◌/◌, ◌%◌, ◌^◌, ◌<◌, ◌≤◌, ◌==◌, pos};
ghost use Rattle.generator.specs.Generated.{row_of, region_of};

/// The random number after this one.
pub fn random_after(x: u64) -> u64
    ensures { result ≡ (x * 6364136223846793005 + 1442695040888963407) % 2 ^ 64 }
{
    ((x as u128 * 6_364_136_223_846_793_005 + 1_442_695_040_888_963_407) % (1 << 64)) as u64
}

/// The row of a transaction.
pub fn row_of(x: u64) -> u64
    ensures row { result ≡ row_of x }
    ensures few { result < 8000 }
{
    x / 8_589_934_592 % 8000
}

/// The row's handle.
pub fn handle_of(x: u64) -> i64
    ensures { result ≡ pos (row_of x) }
{
    row_of(x) as i64
}

/// The region that has the row.
pub fn region_of(x: u64) -> u32
    ensures region { result ≡ region_of x }
    ensures few { result ≤ 8 }
{
    (row_of(x) / 1000) as u32 + 1
}

/// Whether a transaction deletes its row.
pub fn is_delete(x: u64) -> bool
    ensures { result ≡ (x / 2 ^ 20 % 8 == 0) }
{
    x / 1_048_576 % 8 == 0
}

/// Whether a put goes through the default family.
pub fn is_long(i: u64) -> bool
    ensures { result ≡ (i % 4 == 0) }
{
    i % 4 == 0
}
