// What the lists of a call are made of: u32, f64 and bytes. Here is what they differ in.
use crate::list::Words;

pub trait Entry: Copy {
    // How many words stand before the numbers of a list.
    const HEAD: usize;

    const ZERO: Self;

    // How often the list that stands here repeats its first number.
    fn repeats(words: Words<'_>) -> usize;

    // How many words hold n numbers.
    fn words_for(n: usize) -> usize;

    // Number k of those that are written from here on.
    fn number(words: Words<'_>, k: usize) -> Self;

    // What stands at place i before a call.
    fn pattern(i: usize) -> Self;

    fn is_same(self, other: Self) -> bool;
}

impl Entry for u32 {
    const HEAD: usize = 2;

    const ZERO: u32 = 0;

    fn repeats(words: Words<'_>) -> usize {
        words.count(1)
    }

    fn words_for(n: usize) -> usize {
        n
    }

    fn number(words: Words<'_>, k: usize) -> u32 {
        words.word(k)
    }

    fn pattern(i: usize) -> u32 {
        0xa5a5_0000 + (i % 65536) as u32
    }

    fn is_same(self, other: u32) -> bool {
        self == other
    }
}

// Two words each.
impl Entry for f64 {
    const HEAD: usize = 2;

    const ZERO: f64 = 0.0;

    fn repeats(words: Words<'_>) -> usize {
        words.count(1)
    }

    fn words_for(n: usize) -> usize {
        n.saturating_mul(2)
    }

    fn number(words: Words<'_>, k: usize) -> f64 {
        words.skip(k).skip(k).float()
    }

    fn pattern(i: usize) -> f64 {
        floating::of_bits(0x4321_8765_0000_0000 + (i % 65536) as u64)
    }

    // Equal by its bits, but that a NaN is like any other: two numbers that are equal have the same bits unless they are zeros, and
    // those are told apart by what 1 divided by them is.
    fn is_same(self, other: f64) -> bool {
        if self.is_nan() || other.is_nan() {
            return self.is_nan() && other.is_nan();
        }
        self == other && (self != 0.0 || 1.0 / self == 1.0 / other)
    }
}

// Four to a word, and none is repeated.
impl Entry for u8 {
    const HEAD: usize = 1;

    const ZERO: u8 = 0;

    fn repeats(_words: Words<'_>) -> usize {
        0
    }

    fn words_for(n: usize) -> usize {
        n.div_ceil(4)
    }

    fn number(words: Words<'_>, k: usize) -> u8 {
        words.byte(k)
    }

    fn pattern(i: usize) -> u8 {
        (i % 251) as u8
    }

    fn is_same(self, other: u8) -> bool {
        self == other
    }
}
