// Powers of two, and numbers spliced from the bits of two.
ghost use Rattle.std.specs.Prelude.{◌≡◌, ◌+◌, ◌*◌, ◌/◌, ◌%◌, ◌<◌, ◌^◌};

// A power of two.
pub fn pow2(k: u64) -> u64
    requires { k < 64 }
    ensures { result ≡ 2 ^ k }
{
    1u64 << k
}

// The bits of low below bit k, and from k on those of high.
pub fn splice(low: u64, high: u64, k: u64) -> u64
    requires { k < 64 }
    ensures { result ≡ low % 2 ^ k + high / 2 ^ k * 2 ^ k }
{
    let unit = pow2(k);
    low % unit + high / unit * unit
}
