//! Flags in words of 64 bits: the flag of cell 0 is the lowest bit of word 0.
ghost use Rattle.std.specs.Prelude.{◌≡◌, ◌+◌, ◌-◌, ◌*◌, ◌/◌, ◌%◌, ◌<◌, ◌≤◌, ◌^◌, ℕ, length};
ghost use Rattle.spad_store.specs.Packed.{has_bit, flag_in, HasPut};

/// How many flags a word has.
const WORD_FLAGS: u32 = 64;

/// The flag at a place.
pub(crate) fn flag(words: &[u64], place: u32) -> bool
    requires { place < 64 * length words.now }
    ensures { result ≡ flag_in words.now place }
{
    (words[(place / WORD_FLAGS) as usize] >> (place % WORD_FLAGS)) & 1 == 1
}

/// The flags of up to 64 places as bits, the first one lowest.
pub(crate) fn bits(words: &[u64], place: u32, count: u32) -> u64
    requires inside { place + count ≤ 64 * length words.now }
    requires few { count ≤ 64 }
    requires small { place + count < 2 ^ 32 }
    ensures below { result < 2 ^ count }
    ensures each { (k : ℕ) → k < count → has_bit result k ≡ flag_in words.now (place + k) }
{
    if count == 0 {
        return 0;
    }
    let first = count.min(WORD_FLAGS - place % WORD_FLAGS);
    let low = bits_of_word(words, place, first);
    if first == count {
        return low;
    }
    low | (bits_of_word(words, place + first, count - first) << first)
}

/// Makes the flags of up to 64 places those of these bits.
pub(crate) fn put_bits(words: &mut [u64], place: u32, count: u32, bits: u64)
    requires inside { place + count ≤ 64 * length words.old }
    requires few { count ≤ 64 }
    requires small { place + count < 2 ^ 32 }
    ensures { HasPut words.old words.new place count (has_bit bits) }
{
    if count == 0 {
        return;
    }
    let first = count.min(WORD_FLAGS - place % WORD_FLAGS);
    put_bits_in_word(words, place, first, bits);
    if first < count {
        put_bits_in_word(words, place + first, count - first, bits >> first);
    }
}

/// Makes the flags of so many places this one, word by word.
pub(crate) fn fill(words: &mut [u64], place: u32, count: u32, flag: bool)
    requires inside { place + count ≤ 64 * length words.old }
    requires small { place + count < 2 ^ 32 }
    ensures { HasPut words.old words.new place count (λ _. flag) }
{
    let bits = all(flag);
    let mut done = 0;
    while done < count {
        let at = place + done;
        let some = (count - done).min(WORD_FLAGS - at % WORD_FLAGS);
        put_bits_in_word(words, at, some, bits);
        done += some;
    }
}

/// A word of which every bit is this flag.
fn all(flag: bool) -> u64
    ensures { (k : ℕ) → k < 64 → has_bit result k ≡ flag }
{
    if flag { u64::MAX } else { 0 }
}

/// The flags of some places of one word as bits, the first one lowest.
fn bits_of_word(words: &[u64], place: u32, count: u32) -> u64
    requires inside { place / 64 < length words.now }
    requires some { 0 < count }
    requires in_word { place % 64 + count ≤ 64 }
    ensures below { result < 2 ^ count }
    ensures each { (k : ℕ) → k < count → has_bit result k ≡ flag_in words.now (place + k) }
{
    let word = words[(place / WORD_FLAGS) as usize];
    (word >> (place % WORD_FLAGS)) & ones(count)
}

/// Makes the flags of some places of one word those of these bits.
fn put_bits_in_word(words: &mut [u64], place: u32, count: u32, bits: u64)
    requires inside { place / 64 < length words.old }
    requires some { 0 < count }
    requires in_word { place % 64 + count ≤ 64 }
    ensures { HasPut words.old words.new place count (has_bit bits) }
{
    let first = place % WORD_FLAGS;
    let mask = ones(count) << first;
    let word = &mut words[(place / WORD_FLAGS) as usize];
    *word = (*word & !mask) | ((bits << first) & mask);
}

/// So many ones, the lowest bits of a word.
fn ones(count: u32) -> u64
    requires some { 0 < count }
    requires few { count ≤ 64 }
    ensures { result ≡ 2 ^ count - 1 }
{
    u64::MAX >> (64 - count)
}
