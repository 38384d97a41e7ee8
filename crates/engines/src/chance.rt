// Numbers by chance, each from a seed.
ghost use Rattle.std.specs.Prelude.{◌<◌};

// The seed after this one (xorshift).
pub fn mix(seed: u32) -> u32 {
    let a = seed ^ (seed << 13);
    let b = a ^ (a >> 17);
    b ^ (b << 5)
}

// One of two sides.
pub fn coin(seed: u32) -> bool {
    seed & 1 == 0
}

// A number below `n`.
pub fn below(seed: u32, n: usize) -> usize
    requires { 0 < n }
    ensures { result < n }
{
    (seed >> 1) as usize % n
}
