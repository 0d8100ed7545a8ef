//! Marks of the numbers of a window: a bit for each, by which the marked ones are found without a look at the others.

ghost use Rattle.std.specs.Prelude.{◌≡◌, ◌≢◌, ℕ, ◌+◌, ◌/◌, ◌%◌, ◌<◌, ◌≤◌, true, false, length};
ghost use Rattle.std.specs.Int.{bit_at};
ghost use Rattle.vrx_num.specs.declared.limits.TheConstants.{WINDOW};
ghost use Rattle.vrx_window.specs.Marks.{is_marked, is_set};
ghost use Rattle.vrx_window.specs.declared.marks.TheConstants.{BITS, WORDS};

/// How many words there are.
pub(crate) const WORDS: usize = 32;

/// How many bits a word has.
const BITS: u64 = 64;

/// The word of a number.
fn word_of(n: u64) -> usize
    ensures { result ≡ n / BITS % WORDS }
{
    (n / BITS % WORDS as u64) as usize
}

/// A word with one bit set, or not set.
fn with_bit(word: u64, bit: u64, set: bool) -> u64
    requires { bit < BITS }
    ensures here { is_set result bit ≡ set }
    ensures others { (i : ℕ) → i ≢ bit → is_set result i ≡ is_set word i }
{
    if ((word >> bit) % 2 == 1) == set {
        word
    } else {
        word ^ (1 << bit)
    }
}

/// Marks a number, or takes its mark away. Numbers a whole window apart share a mark.
pub(crate) fn mark(marks: &mut [u64; WORDS], n: u64, marked: bool)
    requires { length marks.old ≡ WORDS }
    ensures words { length marks.new ≡ WORDS }
    ensures here { is_marked marks.new n ≡ marked }
    ensures others { (m : ℕ) → m % WINDOW ≢ n % WINDOW → is_marked marks.new m ≡ is_marked marks.old m }
{
    let word = word_of(n);
    marks[word] = with_bit(marks[word], n % BITS, marked);
}

/// How many bits of a word from one on aren't set, up to the first that is.
fn gap_of(word: u64, from: u64) -> u64
    requires { from < BITS }
    ensures few { from + result ≤ BITS }
    ensures none { (i : ℕ) → i < result → is_set word (from + i) ≡ false }
    ensures here { result ≡ 0 → is_set word from ≡ true }
{
    u64::from((word >> from).trailing_zeros()).min(BITS - from)
}

/// The least number from `n` on that is marked, or the end if none before it is.
pub(crate) fn next_marked(marks: &[u64; WORDS], n: u64, end: u64) -> u64
    requires words { length marks.now ≡ WORDS }
    requires before { n ≤ end }
    ensures from { n ≤ result }
    ensures upto { result ≤ end }
    ensures passed { (m : ℕ) → n ≤ m → m < result → is_marked marks.now m ≡ false }
    ensures marked { result < end → is_marked marks.now result ≡ true }
{
    let mut at = n;
    while at < end {
        let gap = gap_of(marks[word_of(at)], at % BITS);
        if gap == 0 {
            return at;
        }
        if end - at <= gap {
            return end;
        }
        at += gap;
    }
    end
}
