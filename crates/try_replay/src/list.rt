// The list of answers: words of 32 bits, the lowest byte first, and within it lists of numbers and of bytes.
//
// Nothing is taken on trust: what is past the list's end reads as 0, and no place goes beyond the largest, so that a list that is damaged gives an
// answer that is wrong and not a program that fails.
use crate::entry::Entry;

// A place in the list.
#[derive(Clone, Copy)]
pub struct Words<'a> {
    list: &'a [[u8; 4]],
    pub at: usize,
}

impl<'a> Words<'a> {
    // The list's beginning.
    pub(crate) fn of(list: &'a [[u8; 4]]) -> Words<'a> {
        Words { list, at: 0 }
    }

    // The place so many words on.
    pub(crate) fn skip(self, n: usize) -> Words<'a> {
        Words {
            at: self.at.saturating_add(n),
            ..self
        }
    }

    // How many words there are from here on.
    pub(crate) fn left(self) -> usize {
        self.list.len().saturating_sub(self.at)
    }

    // The four bytes of word k from here on.
    fn bytes(self, k: usize) -> [u8; 4] {
        match self.list.get(self.at.saturating_add(k)) {
            Some(bytes) => *bytes,
            None => [0; 4],
        }
    }

    // Word k from here on.
    pub(crate) fn word(self, k: usize) -> u32 {
        u32::from_le_bytes(self.bytes(k))
    }

    // The same, as a count or a place.
    pub(crate) fn count(self, k: usize) -> usize {
        self.word(k) as usize
    }

    // The two words here, the lower first.
    pub(crate) fn long(self) -> u64 {
        u64::from(self.word(1)) << 32 | u64::from(self.word(0))
    }

    // The same, as the bits of an f64.
    pub(crate) fn float(self) -> f64 {
        floating::of_bits(self.long())
    }

    // Byte i of the words from here on.
    pub(crate) fn byte(self, i: usize) -> u8 {
        self.bytes(i / 4)[i % 4]
    }

    // ---- a list of numbers that stands here: how many there are, how often the first is repeated at the front, and the others

    // Number i of it.
    pub(crate) fn number<T: Entry>(self, i: usize) -> T {
        T::number(self.skip(T::HEAD), i.saturating_sub(T::repeats(self)))
    }

    // Where the words go on after it.
    pub(crate) fn after<T: Entry>(self) -> Words<'a> {
        let written = self.count(0).saturating_sub(T::repeats(self));
        self.skip(T::HEAD).skip(T::words_for(written))
    }

    // Whether it says that it repeats more numbers than it has.
    pub(crate) fn is_odd<T: Entry>(self) -> bool {
        let repeats = T::repeats(self);
        repeats > 0 && self.count(0) <= repeats
    }
}
