// The mesh: five lent lists, the number that they earn, and the corners of a face.
//
// A mesh comes as five lists: positions and normals, three coordinates each; texture points, two each; corners, four numbers
// each (position, texture, normal, with `MISSING` for a missing texture or normal, and the mark, 0 for none); and the sizes of the faces. `number` says
// which row of the table of numbers returned they earn first, 0 where none; every call on a mesh begins with it. `face` and
// `face_at` hand back the corners of one face as a part of the list of corners.
#![tactic(auto)]

mod kind;
mod refusal;

ghost use Rattle.std.specs.Prelude.{◌≡◌, ℕ, ◌+◌, ◌-◌, ◌*◌, ◌/◌, ◌%◌, ◌<◌, ◌≤◌, map, length};
ghost use Rattle.lists.specs.Lists.{some, sum};
ghost use Rattle.mesh.specs.Limits.{width, largest, face_limit, corner_numbers};
ghost use Rattle.mesh.specs.Mesh.{mesh_of, corners_in, corner_at};
ghost use Rattle.mesh.specs.Table as table;
ghost use Rattle.mesh.specs.Face as part;
ghost use Rattle.mesh.specs.Working.{narrow, strays};

pub use kind::Kind;
pub use refusal::Refusal;

// The largest number that a list of corners or of sizes can hold; and the mark of a missing texture or normal, which is that number.
pub const LARGEST: u32 = 4294967295;

pub const MISSING: u32 = LARGEST;

// How many numbers a position or normal has, a texture point, and a corner (position, texture, normal, mark).
pub const POINT_WIDTH: usize = 3;

pub const TEXEL_WIDTH: usize = 2;

pub const WIDTH: usize = 4;

// The fewest and the most corners that a face may have.
pub const LEAST_RING: usize = 3;

pub const RING: usize = 300;

// The most positions, texture points or normals, the most corners and the most faces of a mesh.
pub const ENTRIES: usize = 2048;

pub const CORNERS: usize = 4096;

pub const FACES: usize = 1365;

// How many numbers they have: positions or normals, texture points, corners.
pub const POINT_NUMBERS: usize = POINT_WIDTH * ENTRIES;

pub const TEXEL_NUMBERS: usize = TEXEL_WIDTH * ENTRIES;

pub const CORNER_NUMBERS: usize = WIDTH * CORNERS;

// A mesh: its five lists, lent to be read.
#[derive(Clone, Copy)]
pub struct Mesh<'a> {
    pub positions: &'a [f64],
    pub textures: &'a [f64],
    pub normals: &'a [f64],
    pub corners: &'a [u32],
    pub sizes: &'a [u32],
}

impl<'a> Mesh<'a> {
    ghost use Rattle.mesh.specs.Refusals.{refused_number};
    ghost use Rattle.mesh.specs.Seen.{seen};

    // The refusal that the five lists earn: the first row of 1 to 5 whose rule says so. Every call begins with it, so it is lean: a row
    // gathers what it finds in a flag and goes on to the end of its list; with no way out of the loop several numbers are looked at at once.
    pub fn check(&self) -> Result<(), Refusal>
        ensures { refused_number result ≡ table.mesh_number (seen self.now) }
    {
        self.shape()?;
        if self.is_astray() {
            return Err(Refusal::Index);
        }
        Ok(())
    }

    // Rows 1 to 4: what concerns the lists' lengths and the sizes.
    fn shape(&self) -> Result<(), Refusal>
        ensures { refused_number result ≡ table.shape_number (seen self.now) }
    {
        if self.is_over_limits() {
            return Err(Refusal::OverLimit);
        }
        if self.is_uneven() {
            return Err(Refusal::Misfit);
        }
        if misfit(self.sizes) {
            return Err(Refusal::FaceSize);
        }
        if ungrouped(self.sizes) {
            return Err(Refusal::Ungrouped);
        }
        Ok(())
    }

    // Row 1: a list holds more numbers than limit times width, or there are more face sizes than the limit.
    #[tactic(auto, unfolding(crate::specs::Table::over_limits))]
    fn is_over_limits(&self) -> bool
        ensures { result ≡ table.over_limits (seen self.now) }
    {
        POINT_NUMBERS < self.positions.len()
            || TEXEL_NUMBERS < self.textures.len()
            || POINT_NUMBERS < self.normals.len()
            || CORNER_NUMBERS < self.corners.len()
            || FACES < self.sizes.len()
    }

    // Row 2: a list's length is no multiple of its width, or the sizes don't add up to the corners.
    #[tactic(auto, unfolding(crate::specs::Table::uneven))]
    fn is_uneven(&self) -> bool
        requires { length self.now.sizes.now ≤ face_limit }
        ensures { result ≡ table.uneven (seen self.now) }
    {
        self.positions.len() % POINT_WIDTH != 0
            || self.textures.len() % TEXEL_WIDTH != 0
            || self.normals.len() % POINT_WIDTH != 0
            || self.corners.len() % WIDTH != 0
            || WIDTH * offset(self.sizes, self.sizes.len()) != self.corners.len()
    }

    // Row 5: a position index, or a texture or normal index that isn't missing, is not below its list's count.
    pub fn is_astray(&self) -> bool
        requires { length self.now.corners.now % width ≡ 0 }
        ensures { result ≡ table.astray (seen self.now) }
    {
        let p = self.positions.len() / POINT_WIDTH;
        let (corners, _) = self.corners.as_chunks::<WIDTH>();
        if p == 0 {
            return !corners.is_empty();
        }
        let last = narrowed(p - 1);
        let t = narrowed(self.textures.len() / TEXEL_WIDTH);
        let n = narrowed(self.normals.len() / POINT_WIDTH);
        let mut found = false;
        for [position, texture, normal, _] in corners {
            found |= is_astray(last, t, n, *position, *texture, *normal);
        }
        found
    }
}

// How many of each kind of entry: positions, texture points, normals.
#[derive(Clone, Copy)]
pub struct Entries {
    pub positions: usize,
    pub textures: usize,
    pub normals: usize,
}

// The number that the five lists earn.
pub fn number(
    positions: &[f64],
    textures: &[f64],
    normals: &[f64],
    corners: &[u32],
    sizes: &[u32],
) -> u32
    ensures { result ≡ table.mesh_number (mesh_of positions.now textures.now normals.now corners.now sizes.now) }
{
    let mesh = Mesh {
        positions,
        textures,
        normals,
        corners,
        sizes,
    };
    match mesh.check() {
        Ok(()) => 0,
        Err(refusal) => refusal.number(),
    }
}

// The corners of face k, as a part of the list of corners; empty where k is no face or the lists earn 1 to 4. It takes the lists one by one, since
// the part outlives what else is lent.
pub fn face<'a>(
    positions: &[f64],
    textures: &[f64],
    normals: &[f64],
    corners: &'a [u32],
    sizes: &[u32],
    k: usize,
) -> &'a [u32]
    ensures { result.now ≡ part.face_part (mesh_of positions.now textures.now normals.now corners.now sizes.now) k }
{
    let mesh = Mesh {
        positions,
        textures,
        normals,
        corners,
        sizes,
    };
    if sizes.len() <= k || mesh.shape().is_err() {
        return &corners[..0];
    }
    face_at(corners, sizes, k, offset(sizes, k))
}

// Row 5: a position index, or a texture or normal index that isn't missing, is not below its list's count.
pub fn astray(
    positions: &[f64],
    textures: &[f64],
    normals: &[f64],
    corners: &[u32],
    sizes: &[u32],
) -> bool
    requires { length corners.now % width ≡ 0 }
    ensures { result ≡ table.astray (mesh_of positions.now textures.now normals.now corners.now sizes.now) }
{
    let mesh = Mesh {
        positions,
        textures,
        normals,
        corners,
        sizes,
    };
    mesh.is_astray()
}

// The corners of face k, before which `at` corners stand: for a caller that goes over the faces and carries `at` along.
pub fn face_at<'a>(corners: &'a [u32], sizes: &[u32], k: usize, at: usize) -> &'a [u32]
    requires { part.Here corners.now sizes.now k at }
    ensures { result.now ≡ part.face_of corners.now sizes.now k }
{
    let n = sizes[k] as usize;
    let a = WIDTH * at;
    let e = a + WIDTH * n;
    &corners[a..e]
}

// Corner k of a list of corners, by value.
pub fn corner_at(corners: &[u32], k: usize) -> [u32; WIDTH]
    requires { (width * (k + 1) ≤ length corners.now) × (length corners.now ≤ corner_numbers) }
    ensures { result ≡ corner_at corners.now k }
{
    let at = WIDTH * k;
    [
        corners[at],
        corners[at + 1],
        corners[at + 2],
        corners[at + 3],
    ]
}

// How many corners stand before face k.
pub fn offset(sizes: &[u32], k: usize) -> usize
    requires { (k ≤ length sizes.now) × (length sizes.now ≤ face_limit) }
    ensures { (result ≡ part.offset_of sizes.now k) × (result ≤ largest * k) }
{
    let mut t: usize = 0;
    for n in &sizes[..k] {
        t += *n as usize;
    }
    t
}

// Row 3: a face size lies outside the limits.
fn misfit(sizes: &[u32]) -> bool
    ensures { result ≡ some table.outside sizes.now }
{
    let mut found = false;
    for n in sizes {
        found |= is_outside(*n);
    }
    found
}

fn is_outside(n: u32) -> bool
    ensures { result ≡ table.outside n }
{
    (n as usize) < LEAST_RING || RING < n as usize
}

// Row 4: sizes aren't grouped: triangles first, then quadrangles, then larger faces.
fn ungrouped(sizes: &[u32]) -> bool
    ensures { result ≡ table.falls (map table.kind sizes.now) }
{
    let mut fallen = false;
    let mut last = Kind::Triangle;
    for n in sizes {
        let kind = Kind::of(*n);
        fallen |= kind < last;
        last = kind;
    }
    fallen
}

// A count or an index in 32 bits: where it is larger than every index, the largest stands for it.
fn narrowed(n: usize) -> u32
    ensures { result ≡ narrow n }
{
    n.min(MISSING as usize) as u32
}

// One corner: `last` is the last position, and t and n texture points and normals are there.
fn is_astray(last: u32, t: u32, n: u32, position: u32, texture: u32, normal: u32) -> bool
    ensures { result ≡ strays last t n position texture normal }
{
    (last < position) | is_beyond(t, texture) | is_beyond(n, normal)
}

// An index that isn't missing and is not below the count: one more than a missing index is 0, which lies above no count.
fn is_beyond(count: u32, i: u32) -> bool
    ensures { result ≡ table.beyond_unless_missing count i }
{
    count < i.wrapping_add(1)
}
