// What kind of face: triangles stand first, then quadrangles, then larger faces.

ghost use Rattle.std.specs.Prelude.{◌≡◌};
ghost use Rattle.mesh.specs.Table as table;

#[derive(Clone, Copy, PartialEq, Eq, PartialOrd, Ord)]
pub enum Kind {
    Triangle,
    Quadrangle,
    Larger,
}

impl Kind {
    ghost use Rattle.mesh.specs.Kinds.{kind_number};

    // The kind of a face of n corners.
    pub fn of(n: u32) -> Self
        ensures { kind_number result ≡ table.kind n }
    {
        match n {
            0..=3 => Kind::Triangle,
            4 => Kind::Quadrangle,
            _ => Kind::Larger,
        }
    }
}
