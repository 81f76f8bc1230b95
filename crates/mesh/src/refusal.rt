// Why a call refuses: each number of the table of numbers returned but 0.

ghost use Rattle.std.specs.Prelude.{◌≡◌};

#[derive(Clone, Copy, PartialEq, Eq)]
pub enum Refusal {
    // A list is over its limit.
    OverLimit = 1,
    // A length is no multiple of its width, or the sizes don't add up to the corners.
    Misfit = 2,
    // A face size lies outside the limits.
    FaceSize = 3,
    // The sizes aren't grouped: triangles, quadrangles, larger faces.
    Ungrouped = 4,
    // A position index, or another index that isn't missing, is not below its list's count.
    Index = 5,
    // Merging: the tolerance; a coordinate; a coordinate divided by the tolerance.
    Tolerance = 6,
    Coordinate = 7,
    Quotient = 8,
    // A lent list is shorter than its stated room.
    Room = 9,
    // The verdict is neither Oriented nor Closed.
    NoHouseWires = 10,
    // A file is cut, has a record that is none, or goes on after its end.
    FileCut = 11,
    Record = 12,
    AfterEnd = 13,
    // A coordinate of a file is not finite.
    NotFinite = 14,
    // Smoothing: a face is no triangle; one is folded or a position is in no face; the cosines, or too many neighbours.
    NotTriangle = 15,
    FoldedOrUnused = 16,
    UnfitCosines = 17,
    // The list of hems: the triples are not as many as the positions; a coordinate is too large.
    Triples = 18,
    TooFar = 19,
}

impl Refusal {
    ghost use Rattle.mesh.specs.Refusals.{number_of};

    // Its number in the table.
    pub fn number(self) -> u32
        ensures { result ≡ number_of self }
    {
        self as u32
    }
}
