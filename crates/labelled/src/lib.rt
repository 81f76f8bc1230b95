// The panel of each face, as a list of one number for each face (document 02, CR 13): panels are listed as `components` lists them, without
// the normals setting, and then every face of panel j is labelled j. So no panel is searched for.
#![tactic(auto)]

ghost use Rattle.std.specs.Prelude.{◌≡◌, length};
ghost use Rattle.lists.specs.Cutting.{parts};
ghost use Rattle.mesh.specs.Mesh.{rings};
ghost use Rattle.labelled.specs.Labels.{Labelled, LabelRoom, LabelRows, PartRoom, PartsRoom, marked, labelled};

// The panel of each face of a mesh that is accepted.
pub fn put_labels(corners: &[u32], sizes: &[u32], out: &mut [u32])
    requires { LabelRoom corners.now sizes.now out.old }
    ensures { Labelled (rings sizes.now corners.now) out.new }
{
    let mut flat = [0u32; mesh::FACES];
    let mut lengths = [0u32; mesh::FACES];
    let n = sizes.len();
    label_in(corners, sizes, &mut flat[..n], &mut lengths[..n], out);
}

// The same, in two rows of one number for each face: the faces of all panels, and how many each panel has.
fn label_in(corners: &[u32], sizes: &[u32], flat: &mut [u32], lengths: &mut [u32], out: &mut [u32])
    requires { LabelRows corners.now sizes.now flat.old lengths.old out.old }
    ensures { Labelled (rings sizes.now corners.now) out.new }
{
    let counts = panels::components_of(corners, sizes, false, flat, lengths);
    label_panels(flat, &lengths[..counts.panels], out);
}

// Every face of panel j gets the label j: the panels are the parts of `flat`.
fn label_panels(flat: &[u32], lengths: &[u32], out: &mut [u32])
    requires { PartsRoom flat.now lengths.now out.old }
    ensures { out.new ≡ labelled 0 (parts lengths.now flat.now) out.old }
{
    let mut from: usize = 0;
    for (j, n) in lengths.iter().enumerate() {
        let end = from + *n as usize;
        label_panel(&flat[from..end], j as u32, out);
        from = end;
    }
}

// The faces of one panel.
fn label_panel(part: &[u32], label: u32, out: &mut [u32])
    requires { PartRoom part.now out.old }
    ensures { out.new ≡ marked part.now label out.old }
{
    for x in part {
        out[*x as usize] = label;
    }
}
