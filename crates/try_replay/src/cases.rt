// One case of a call: the product's own function is asked, with lent lists of the case's rooms, and its whole answer is held to the
// list's. A case's own words are: two for what the call is given beside the mesh, the number, the counts, and for each lent list its room and what
// stands at its front afterwards.
//
// Here is what the cases of all calls share: what a call said, how a case came out, and where its lent lists stand.
use crate::entry::Entry;
use crate::lent;
use crate::list::Words;
use mesh::Refusal;

// More than any room of the list for u32 or f64.
pub const ROOM: usize = 16400;

// What a case is about: where the words of its mesh or of its panel file begin, and where those of the cosines do.
#[derive(Clone, Copy)]
pub struct About<'a> {
    pub subject: Words<'a>,
    pub cosines: Words<'a>,
}

// What a call said: its number, and its counts.
pub type Said<const N: usize> = (u32, [usize; N]);

// An answer: a refusal has its number, and no counts.
pub(crate) fn told<const N: usize>(answer: Result<[usize; N], Refusal>) -> Said<N> {
    match answer {
        Ok(counts) => (0, counts),
        Err(refusal) => (refusal.number(), [0; N]),
    }
}

// Where a case's lent lists begin, behind so many counts.
pub(crate) fn lists_from(case: Words<'_>, counts: usize) -> Words<'_> {
    case.skip(3).skip(counts)
}

// What a call said, held to the case's number and its counts; the words of its lent lists come next.
pub(crate) fn answered<const N: usize>(case: Words<'_>, said: Said<N>) -> Outcome<'_> {
    let (number, counts) = said;
    let mut differs = number != case.word(2);
    for (k, count) in counts.iter().enumerate() {
        differs |= *count != case.count(3 + k);
    }
    Outcome {
        number,
        differs,
        end: lists_from(case, N),
    }
}

// How a case came out: the number that the product answered, whether anything was not as in the list, and up to where the case's words were
// looked at.
#[derive(Clone, Copy)]
pub struct Outcome<'a> {
    pub number: u32,
    pub differs: bool,
    pub end: Words<'a>,
}

impl<'a> Outcome<'a> {
    // The same outcome, where something more was looked at, up to `end`.
    pub(crate) fn also(self, differs: bool, end: Words<'a>) -> Outcome<'a> {
        Outcome {
            number: self.number,
            differs: self.differs || differs,
            end,
        }
    }

    // The outcome so far, with the list that was lent next: `all` is what its room was taken from. Its answer stands at its front, and the pattern
    // behind that, up to the room's end.
    pub(crate) fn hold<T: Entry>(self, all: &[T]) -> Outcome<'a> {
        let room = self.end.count(0);
        let answer = self.end.skip(1);
        let n = answer.count(0);
        let differs = lent::differs(all, room, |i| {
            if i < n {
                answer.number(i)
            } else {
                T::pattern(i)
            }
        });
        let unlike = all.len() < room || room < n || answer.is_odd::<T>();
        self.also(differs || unlike, answer.after::<T>())
    }
}
