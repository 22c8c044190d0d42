// The CRC-32 of files: IEEE, reflected, as zlib has it.
ghost use Rattle.std.specs.Prelude.{◌≡◌};
ghost use Rattle.image.specs.Crc.{shifted, taken, crc};

// One bit further.
fn shift(rest: u32) -> u32
    ensures { result ≡ shifted rest }
{
    let half = rest >> 1;
    if rest % 2 == 1 {
        half ^ 0xedb8_8320
    } else {
        half
    }
}

// One byte further.
fn take(old: u32, byte: u8) -> u32
    ensures { result ≡ taken old byte }
{
    (0..8u32).fold(old ^ u32::from(byte), |rest, _bit| shift(rest))
}

// The CRC-32 of the bytes.
pub fn crc32(bytes: &[u8]) -> u32
    ensures { result ≡ crc bytes.now }
{
    bytes.iter().fold(u32::MAX, |rest, byte| take(rest, *byte)) ^ u32::MAX
}
