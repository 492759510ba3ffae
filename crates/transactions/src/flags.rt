// Flags of blocks in octets: block n in octet n / 8 at weight 2^(n mod 8). A test of many blocks goes by words: word j has the 64 blocks from
// block 64 j on, block 64 j + i at weight 2^i.
ghost use Rattle.std.specs.Prelude.{◌≡◌, ◌<◌, true, cond, not, ltb, replicate};
ghost use Rattle.foundation.specs.Order.{every};
ghost use Rattle.transactions.specs.Flags.{flag_octet_count, flag_count, flagged, with_flag};
ghost use Rattle.transactions.specs.Parts.{word_count, word_of, is_between, as_wanted};

// How many octets of flags there are.
pub const FLAG_OCTETS: usize = 8;

// How many flags there are.
pub const FLAGS: usize = 8 * FLAG_OCTETS;

// How many words of 64 flags there are.
const WORDS: usize = FLAG_OCTETS / 8;

// A word of ones.
const ONES: u64 = 0xFFFF_FFFF_FFFF_FFFF;

// The flags of held blocks.
#[derive(Clone, Copy, Debug, PartialEq, Eq)]
pub struct Flags {
    pub octets: [u8; FLAG_OCTETS],
}

// Word j of the blocks below n. That there is a word j is asked here, in `between` and in `word`, not said by a type: a number that only
// every_between counts would need a type of its own and its making.
fn below(n: usize, j: usize) -> u64
    requires { j < word_count }
    ensures { result ≡ word_of (λ i. ltb i n) j }
{
    if n <= 64 * j {
        return 0;
    }
    let k = n - 64 * j;
    if 64 <= k {
        return ONES;
    }
    (1 << k) - 1
}

// Word j of the blocks from `from` on and below `to`.
fn between(from: usize, to: usize, j: usize) -> u64
    requires { j < word_count }
    ensures { result ≡ word_of (is_between from to) j }
{
    below(to, j) & (ONES - below(from, j))
}

// The flags that the blocks of a word are to have: all, or none.
fn due(blocks: u64, wanted: bool) -> u64
    ensures { result ≡ cond wanted blocks 0 }
{
    if wanted { blocks } else { 0 }
}

impl Flags {
    // No block flagged.
    pub fn none() -> Flags
        ensures { result ≡ record { octets = replicate flag_octet_count 0 } }
    {
        Flags {
            octets: [0u8; FLAG_OCTETS],
        }
    }

    // Whether block n is flagged; past the flags none is.
    pub fn is_set(self, n: usize) -> bool
        ensures { result ≡ flagged self.octets n }
    {
        n < FLAGS && (self.octets[n / 8] >> (n % 8)) % 2 == 1
    }

    // These with the flag of block n; past the flags nothing changes.
    pub fn with(self, n: usize) -> Flags
        ensures { result ≡ record { octets = with_flag self.octets n } }
    {
        if FLAGS <= n || self.is_set(n) {
            return self;
        }
        let mut next = self;
        next.octets[n / 8] += 1 << (n % 8);
        next
    }

    // Word j of the flags.
    fn word(self, j: usize) -> u64
        requires { j < word_count }
        ensures { result ≡ word_of (flagged self.octets) j }
    {
        let (words, _) = self.octets.as_chunks::<8>();
        u64::from_le_bytes(words[j])
    }

    // Whether every block from `from` on and below `to` is flagged where `wanted` is true, and none where it is false.
    // Blocks past the flags are not looked at.
    fn every_between(self, from: usize, to: usize, wanted: bool) -> bool
        ensures { result ≡ every flag_count (as_wanted self.octets from to wanted) }
    {
        // `all` over the numbers was tried, and the proof that its closure keeps the flags didn't close.
        for j in 0..WORDS {
            let blocks = between(from, to, j);
            let held = self.word(j) & blocks;
            let expected = due(blocks, wanted);
            if held != expected {
                return false;
            }
        }
        true
    }

    // Whether every block below n is flagged.
    pub fn all_below(self, n: usize) -> bool
        ensures { result ≡ every n (flagged self.octets) }
    {
        n <= FLAGS && self.every_between(0, n, true)
    }

    // Whether no block below n is flagged.
    pub fn none_below(self, n: usize) -> bool
        ensures { result ≡ every n (λ i. not (flagged self.octets i)) }
    {
        self.every_between(0, n, false)
    }

    // Whether no block from n on is flagged.
    pub fn none_from(self, n: usize) -> bool
        ensures { result ≡ every flag_count (λ i. cond (ltb i n) true (not (flagged self.octets i))) }
    {
        self.every_between(n, FLAGS, false)
    }
}
