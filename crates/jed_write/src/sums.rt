ghost use Rattle.std.specs.Prelude.{◌≡◌, ◌%◌, sum};
ghost use Rattle.mig_base.specs.FuseText.{fuse_sum as sum_of_fuses};

/// The sum of the bytes modulo 65536, as a transmission sum is.
pub fn byte_sum(bytes: &[u8]) -> u16
    ensures { result ≡ sum bytes.now % 65536 }
{
    let mut total: u16 = 0;
    for byte in bytes {
        total = total.wrapping_add(u16::from(*byte));
    }
    total
}

/// The sum of the fuses modulo 65536, where fuse n is bit n mod 8 of its word.
pub fn fuse_sum(states: &[bool]) -> u16
    ensures { result ≡ sum_of_fuses states.now }
{
    let mut total: u16 = 0;
    for (fuse, blown) in states.iter().enumerate() {
        if *blown {
            total = total.wrapping_add(1 << (fuse % 8));
        }
    }
    total
}
