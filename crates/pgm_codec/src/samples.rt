//! What is asked of all samples at once.
ghost use Rattle.std.specs.Prelude.{◌≡◌, nat_lt, false};
ghost use Rattle.std.specs.List.{list_any};

// No byte is above 255: a law. Compiled, the loop is nothing.
pub(crate) fn no_byte_is_above(bytes: &[u8])
    ensures { list_any (λ b. nat_lt 255 b) bytes.now ≡ false }
{
    for i in 0..bytes.len() {
        let _byte = bytes[i];
    }
}

// No sample is above 65535: a law. Compiled, the loop is nothing.
fn no_sample_is_above(samples: &[u16])
    ensures { list_any (λ s. nat_lt 65535 s) samples.now ≡ false }
{
    for i in 0..samples.len() {
        let _sample = samples[i];
    }
}

// Whether some sample is above maxval.
pub(crate) fn is_any_above(samples: &[u16], maxval: u16) -> bool
    ensures { result ≡ list_any (λ s. nat_lt maxval s) samples.now }
{
    if maxval == u16::MAX {
        no_sample_is_above(samples);
        return false;
    }
    let mut greatest = 0;
    for i in 0..samples.len() {
        greatest = samples[i].max(greatest);
    }
    greatest > maxval
}
