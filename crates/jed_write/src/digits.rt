ghost use Rattle.std.specs.Prelude.{◌≡◌, ◌+◌, ◌%◌, ◌<◌};
ghost use Rattle.mig_base.specs.WrittenFuses.{four_digits, four_hex, hex_digit as digit_of_hex};

/// The last decimal digit of a number.
fn digit(n: usize) -> u8
    ensures { result ≡ 48 + n % 10 }
{
    b'0' + (n % 10) as u8
}

/// Four decimal digits of a number.
pub fn decimal(n: usize) -> [u8; 4]
    ensures { result ≡ four_digits n }
{
    [digit(n / 1000), digit(n / 100), digit(n / 10), digit(n)]
}

/// The last hexadecimal digit of a number, in upper case.
fn hex_digit(n: u16) -> u8
    ensures { result ≡ digit_of_hex (n % 16) }
{
    let value = (n % 16) as u8;
    if value < 10 {
        b'0' + value
    } else {
        b'A' - 10 + value
    }
}

/// Four upper-case hexadecimal digits of a number.
pub fn hex(n: u16) -> [u8; 4]
    ensures { result ≡ four_hex n }
{
    [
        hex_digit(n / 4096),
        hex_digit(n / 256),
        hex_digit(n / 16),
        hex_digit(n),
    ]
}
