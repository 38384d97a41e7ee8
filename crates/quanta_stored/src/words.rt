// The sum of a buffer's words, and what a buffer holds before it is lent.
ghost use Rattle.std.specs.Prelude.{◌≡◌, length, replicate};
ghost use Rattle.quanta_stored.specs.Words.{sum_of, RUBBISH};

// No number of a record.
const RUBBISH: u32 = 0xA5A5A5A5;

// Starts at 1, and each word w makes it (65,599 s + w) mod 4,294,967,291.
pub fn sum(words: &[u32]) -> u32
    ensures { result ≡ sum_of words.now }
{
    let mut sum: u64 = 1;
    for word in words {
        sum = (65599 * sum + u64::from(*word)) % 4294967291;
    }
    sum as u32
}

// Fills a buffer with what no call leaves there.
pub fn spoil(words: &mut [u32])
    ensures { words.new ≡ replicate (length words.old) RUBBISH }
{
    words.fill(RUBBISH);
}
