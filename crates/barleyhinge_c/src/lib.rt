// Barleyhinge's C interface: the exports of the static library. Each calls the function of its name in crate barleyhinge, with its clauses, and does
// nothing else. The archive is libbarleyhinge.a, and include/barleyhinge.h declares what is in it.
#![tactic(auto)]

ghost use Rattle.std.specs.Prelude.{◌≡◌};
ghost use Rattle.mesh.specs.Mesh.{mesh_of};
ghost use Rattle.mesh.specs.Listed.{listed_of};
ghost use Rattle.mesh.specs.Table.{mesh_number};
ghost use Rattle.faces.specs.Faces.{faces_of, Grouped};
ghost use Rattle.unused.specs.Compaction as compacting;
ghost use Rattle.inplace.specs.InPlace.{InPlace};
ghost use Rattle.removal.specs.Folded as folding;
ghost use Rattle.edges.specs.Answers.{hems_in, HemAnswer};
ghost use Rattle.merging.specs.Merging.{PutTogether};
ghost use Rattle.smoothed.specs.Refusals as smoothed;
ghost use Rattle.smoothing.specs.Smoothing.{Smoothing};
ghost use Rattle.ported.specs.Answers.{PortedAnswer};
ghost use Rattle.house.specs.Answers.{HouseAnswer};
ghost use Rattle.panels.specs.Contract.{PanelsAnswer};
ghost use Rattle.hemlist.specs.Answer.{hem_lists_of, HemsListed};
ghost use Rattle.reading.specs.Answer.{PanelRead};
ghost use Rattle.scanned.specs.Answer.{ScanRead};
ghost use Rattle.written.specs.Answer.{PanelWritten};
ghost use Rattle.cleanfile.specs.Cleaning.{PanelCleaned};
ghost use Rattle.sheet.specs.Sheet.{Printed};
ghost use Rattle.hemfile.specs.HemFile.{HemsPrinted};
ghost use Rattle.answers.specs.Answers as answer;
ghost use Rattle.fileanswers.specs.Answers as fileanswer;
ghost use Rattle.barleyhinge.specs.Calls as call;

// The number that a mesh earns, 0 to 5.
#[unsafe(no_mangle)]
pub extern "C" fn bh_mesh_number(
    positions: &[f64],
    textures: &[f64],
    normals: &[f64],
    corners: &[u32],
    sizes: &[u32],
) -> u32
    ensures { result ≡ mesh_number
        (mesh_of positions.now textures.now normals.now corners.now sizes.now) }
{
    barleyhinge::bh_mesh_number(positions, textures, normals, corners, sizes)
}

// The corners of face k: where they start in the list of corners, and how many numbers they are.
#[unsafe(no_mangle)]
pub extern "C" fn bh_face(
    positions: &[f64],
    textures: &[f64],
    normals: &[f64],
    corners: &[u32],
    sizes: &[u32],
    k: usize,
    start: &mut usize,
    len: &mut usize,
)
    ensures { answer.PartAnswer
        (mesh_of positions.now textures.now normals.now corners.now sizes.now)
        k start.new len.new }
{
    barleyhinge::bh_face(positions, textures, normals, corners, sizes, k, start, len)
}

// Faces in any order, grouped: how many corners and faces are written.
#[unsafe(no_mangle)]
pub extern "C" fn bh_push(
    corners: &[u32],
    sizes: &[u32],
    newcorners: &mut [u32],
    newsizes: &mut [u32],
    cornercount: &mut usize,
    facecount: &mut usize,
) -> u32
    ensures { Grouped
        (faces_of corners.now sizes.now)
        (faces_of newcorners.old newsizes.old)
        (faces_of newcorners.new newsizes.new)
        (answer.pushed_by result cornercount.new facecount.new) }
{
    barleyhinge::bh_push(corners, sizes, newcorners, newsizes, cornercount, facecount)
}

// Compaction.
#[unsafe(no_mangle)]
pub extern "C" fn bh_remove_unused_attrs(
    positions: &[f64],
    textures: &[f64],
    normals: &[f64],
    corners: &[u32],
    sizes: &[u32],
    newcorners: &mut [u32],
    newpositions: &mut [f64],
    newtextures: &mut [f64],
    newnormals: &mut [f64],
    positioncount: &mut usize,
    texturecount: &mut usize,
    normalcount: &mut usize,
) -> u32
    ensures { compacting.Compaction
        (mesh_of positions.now textures.now normals.now corners.now sizes.now)
        (compacting.result_of newcorners.old newpositions.old newtextures.old newnormals.old)
        (compacting.result_of newcorners.new newpositions.new newtextures.new newnormals.new)
        (answer.compacted_by result positioncount.new texturecount.new normalcount.new) }
{
    barleyhinge::bh_remove_unused_attrs(
        positions,
        textures,
        normals,
        corners,
        sizes,
        newcorners,
        newpositions,
        newtextures,
        newnormals,
        positioncount,
        texturecount,
        normalcount,
    )
}

// Compaction in place: the lists and the corners are changed where they stand, beside a list of numbers.
#[unsafe(no_mangle)]
pub extern "C" fn bh_compact_in_place(
    positions: &mut [f64],
    textures: &mut [f64],
    normals: &mut [f64],
    corners: &mut [u32],
    sizes: &[u32],
    numbers: &mut [u32],
    positioncount: &mut usize,
    texturecount: &mut usize,
    normalcount: &mut usize,
) -> u32
    ensures { InPlace
        (mesh_of positions.old textures.old normals.old corners.old sizes.now)
        (mesh_of positions.new textures.new normals.new corners.new sizes.now)
        numbers.old numbers.new
        (answer.compacted_by result positioncount.new texturecount.new normalcount.new) }
{
    barleyhinge::bh_compact_in_place(
        positions,
        textures,
        normals,
        corners,
        sizes,
        numbers,
        positioncount,
        texturecount,
        normalcount,
    )
}

// Removal of folded faces, with the number of the face that each came from.
#[unsafe(no_mangle)]
pub extern "C" fn bh_remove_degenerate_faces(
    positions: &[f64],
    textures: &[f64],
    normals: &[f64],
    corners: &[u32],
    sizes: &[u32],
    newcorners: &mut [u32],
    newsizes: &mut [u32],
    origins: &mut [u32],
    cornercount: &mut usize,
    facecount: &mut usize,
) -> u32
    ensures { folding.Removal
        (mesh_of positions.now textures.now normals.now corners.now sizes.now)
        (folding.result_of newcorners.old newsizes.old origins.old)
        (folding.result_of newcorners.new newsizes.new origins.new)
        (answer.removed_by result cornercount.new facecount.new) }
{
    barleyhinge::bh_remove_degenerate_faces(
        positions,
        textures,
        normals,
        corners,
        sizes,
        newcorners,
        newsizes,
        origins,
        cornercount,
        facecount,
    )
}

// Merging: the new corners, and how many pairs were compared among positions, texture points and normals.
#[unsafe(no_mangle)]
pub extern "C" fn bh_put_together_same_attrs(
    positions: &[f64],
    textures: &[f64],
    normals: &[f64],
    corners: &[u32],
    sizes: &[u32],
    tolerance: f64,
    newcorners: &mut [u32],
    positionpairs: &mut usize,
    texturepairs: &mut usize,
    normalpairs: &mut usize,
) -> u32
    ensures { PutTogether
        (mesh_of positions.now textures.now normals.now corners.now sizes.now) tolerance
        newcorners.old
        newcorners.new
        (answer.merged_by result positionpairs.new texturepairs.new normalpairs.new) }
{
    barleyhinge::bh_put_together_same_attrs(
        positions,
        textures,
        normals,
        corners,
        sizes,
        tolerance,
        newcorners,
        positionpairs,
        texturepairs,
        normalpairs,
    )
}

// The same by the second engine, for scans.
#[unsafe(no_mangle)]
pub extern "C" fn bh_put_together_by_cell(
    positions: &[f64],
    textures: &[f64],
    normals: &[f64],
    corners: &[u32],
    sizes: &[u32],
    tolerance: f64,
    newcorners: &mut [u32],
    positionpairs: &mut usize,
    texturepairs: &mut usize,
    normalpairs: &mut usize,
) -> u32
    ensures { PutTogether
        (mesh_of positions.now textures.now normals.now corners.now sizes.now) tolerance
        newcorners.old
        newcorners.new
        (answer.merged_by result positionpairs.new texturepairs.new normalpairs.new) }
{
    barleyhinge::bh_put_together_by_cell(
        positions,
        textures,
        normals,
        corners,
        sizes,
        tolerance,
        newcorners,
        positionpairs,
        texturepairs,
        normalpairs,
    )
}

// Smoothing by Loop's method: the new positions, corners and sizes, and how many positions, corners and faces they are.
#[unsafe(no_mangle)]
pub extern "C" fn bh_loop_subdivision(
    positions: &[f64],
    textures: &[f64],
    normals: &[f64],
    corners: &[u32],
    sizes: &[u32],
    ones: &[f64],
    twos: &[f64],
    newpositions: &mut [f64],
    newcorners: &mut [u32],
    newsizes: &mut [u32],
    positioncount: &mut usize,
    cornercount: &mut usize,
    facecount: &mut usize,
) -> u32
    ensures { Smoothing
        (mesh_of positions.now textures.now normals.now corners.now sizes.now)
        ones.now twos.now
        (smoothed.lists newpositions.old newcorners.old newsizes.old)
        (smoothed.lists newpositions.new newcorners.new newsizes.new)
        (answer.smoothed_by result positioncount.new cornercount.new facecount.new) }
{
    barleyhinge::bh_loop_subdivision(
        positions,
        textures,
        normals,
        corners,
        sizes,
        ones,
        twos,
        newpositions,
        newcorners,
        newsizes,
        positioncount,
        cornercount,
        facecount,
    )
}

// The verdict, by number: 0 Irregular, 1 Regular, 2 Oriented, 3 Closed. It is written only with 0.
#[unsafe(no_mangle)]
pub extern "C" fn bh_shell_condition(
    positions: &[f64],
    textures: &[f64],
    normals: &[f64],
    corners: &[u32],
    sizes: &[u32],
    verdict: &mut u32,
) -> u32
    ensures { call.VerdictAnswer
        (mesh_of positions.now textures.now normals.now corners.now sizes.now)
        verdict.old verdict.new result }
{
    barleyhinge::bh_shell_condition(positions, textures, normals, corners, sizes, verdict)
}

// The hem edges: where each starts, where each ends, and how many there are.
#[unsafe(no_mangle)]
pub extern "C" fn bh_hem_edges(
    positions: &[f64],
    textures: &[f64],
    normals: &[f64],
    corners: &[u32],
    sizes: &[u32],
    starts: &mut [u32],
    ends: &mut [u32],
    count: &mut usize,
) -> u32
    ensures { HemAnswer
        (mesh_of positions.now textures.now normals.now corners.now sizes.now)
        (hems_in starts.old ends.old)
        (hems_in starts.new ends.new)
        (answer.hemmed_by result count.new) }
{
    barleyhinge::bh_hem_edges(
        positions, textures, normals, corners, sizes, starts, ends, count,
    )
}

// Ported wires: their positions one after the other, and how many each wire has.
#[unsafe(no_mangle)]
pub extern "C" fn bh_extract_boundaries(
    positions: &[f64],
    textures: &[f64],
    normals: &[f64],
    corners: &[u32],
    sizes: &[u32],
    flat: &mut [u32],
    lengths: &mut [u32],
    flatcount: &mut usize,
    wirecount: &mut usize,
) -> u32
    ensures { PortedAnswer
        (mesh_of positions.now textures.now normals.now corners.now sizes.now)
        (listed_of flat.old lengths.old)
        (listed_of flat.new lengths.new)
        (answer.wired_by result flatcount.new wirecount.new) }
{
    barleyhinge::bh_extract_boundaries(
        positions, textures, normals, corners, sizes, flat, lengths, flatcount, wirecount,
    )
}

// House wires, in the same form.
#[unsafe(no_mangle)]
pub extern "C" fn bh_house_wires(
    positions: &[f64],
    textures: &[f64],
    normals: &[f64],
    corners: &[u32],
    sizes: &[u32],
    flat: &mut [u32],
    lengths: &mut [u32],
    flatcount: &mut usize,
    wirecount: &mut usize,
) -> u32
    ensures { HouseAnswer
        (mesh_of positions.now textures.now normals.now corners.now sizes.now)
        (listed_of flat.old lengths.old)
        (listed_of flat.new lengths.new)
        (answer.wired_by result flatcount.new wirecount.new) }
{
    barleyhinge::bh_house_wires(
        positions, textures, normals, corners, sizes, flat, lengths, flatcount, wirecount,
    )
}

// Panels: the faces of all panels one after the other, and how many each panel has.
#[unsafe(no_mangle)]
pub extern "C" fn bh_components(
    positions: &[f64],
    textures: &[f64],
    normals: &[f64],
    corners: &[u32],
    sizes: &[u32],
    use_normal: bool,
    flat: &mut [u32],
    lengths: &mut [u32],
    flatcount: &mut usize,
    panelcount: &mut usize,
) -> u32
    ensures { PanelsAnswer
        (mesh_of positions.now textures.now normals.now corners.now sizes.now) use_normal
        (listed_of flat.old lengths.old)
        (listed_of flat.new lengths.new)
        (answer.panelled_by result flatcount.new panelcount.new) }
{
    barleyhinge::bh_components(
        positions, textures, normals, corners, sizes, use_normal, flat, lengths, flatcount,
        panelcount,
    )
}

// The list of hems: of each its panel, its number of edges and its length, and how many hems there are.
#[unsafe(no_mangle)]
pub extern "C" fn bh_list_hems(
    positions: &[f64],
    textures: &[f64],
    normals: &[f64],
    corners: &[u32],
    sizes: &[u32],
    triples: &[i32],
    panels: &mut [u32],
    edges: &mut [u32],
    lengths: &mut [u64],
    hems: &mut usize,
) -> u32
    ensures { HemsListed
        (mesh_of positions.now textures.now normals.now corners.now sizes.now)
        triples.now
        (hem_lists_of panels.old edges.old lengths.old)
        (hem_lists_of panels.new edges.new lengths.new)
        (answer.listed_by result hems.new) }
{
    barleyhinge::bh_list_hems(
        positions, textures, normals, corners, sizes, triples, panels, edges, lengths, hems,
    )
}

// The reader of a panel file.
#[unsafe(no_mangle)]
pub extern "C" fn bh_read_panel(
    file: &[u8],
    positions: &mut [f64],
    textures: &mut [f64],
    normals: &mut [f64],
    corners: &mut [u32],
    sizes: &mut [u32],
    positioncount: &mut usize,
    texturecount: &mut usize,
    normalcount: &mut usize,
    cornercount: &mut usize,
    facecount: &mut usize,
) -> u32
    ensures { PanelRead file.now
        (mesh_of positions.old textures.old normals.old corners.old sizes.old)
        (mesh_of positions.new textures.new normals.new corners.new sizes.new)
        (fileanswer.read_by result positioncount.new texturecount.new normalcount.new cornercount.new facecount.new) }
{
    barleyhinge::bh_read_panel(
        file,
        positions,
        textures,
        normals,
        corners,
        sizes,
        positioncount,
        texturecount,
        normalcount,
        cornercount,
        facecount,
    )
}

// The reader of a scanner's own file, binary STL.
#[unsafe(no_mangle)]
pub extern "C" fn bh_read_scan(
    file: &[u8],
    positions: &mut [f64],
    textures: &mut [f64],
    normals: &mut [f64],
    corners: &mut [u32],
    sizes: &mut [u32],
    positioncount: &mut usize,
    texturecount: &mut usize,
    normalcount: &mut usize,
    cornercount: &mut usize,
    facecount: &mut usize,
) -> u32
    ensures { ScanRead file.now
        (mesh_of positions.old textures.old normals.old corners.old sizes.old)
        (mesh_of positions.new textures.new normals.new corners.new sizes.new)
        (fileanswer.read_by result positioncount.new texturecount.new normalcount.new cornercount.new facecount.new) }
{
    barleyhinge::bh_read_scan(
        file,
        positions,
        textures,
        normals,
        corners,
        sizes,
        positioncount,
        texturecount,
        normalcount,
        cornercount,
        facecount,
    )
}

// A mesh as a panel file: its bytes, and how many they are.
#[unsafe(no_mangle)]
pub extern "C" fn bh_write_panel(
    positions: &[f64],
    textures: &[f64],
    normals: &[f64],
    corners: &[u32],
    sizes: &[u32],
    file: &mut [u8],
    length: &mut usize,
) -> u32
    ensures { PanelWritten
        (mesh_of positions.now textures.now normals.now corners.now sizes.now)
        file.old file.new
        (fileanswer.saved_by result length.new) }
{
    barleyhinge::bh_write_panel(positions, textures, normals, corners, sizes, file, length)
}

// A panel file, cleaned: the bytes of the cleaned file, and how many they are.
#[unsafe(no_mangle)]
pub extern "C" fn bh_clean_panel(file: &[u8], cleaned: &mut [u8], length: &mut usize) -> u32
    ensures { PanelCleaned file.now cleaned.old cleaned.new (fileanswer.cleaned_by result length.new) }
{
    barleyhinge::bh_clean_panel(file, cleaned, length)
}

// The sheet of a panel file: its bytes, and how many they are.
#[unsafe(no_mangle)]
pub extern "C" fn bh_sheet(file: &[u8], text: &mut [u8], length: &mut usize) -> u32
    ensures { Printed file.now text.old text.new (fileanswer.printed_by result length.new) }
{
    barleyhinge::bh_sheet(file, text, length)
}

// A count, a panel file and triples: the bytes of the hem sheet, and how many they are.
#[unsafe(no_mangle)]
pub extern "C" fn bh_hem_sheet(file: &[u8], text: &mut [u8], length: &mut usize) -> u32
    ensures { HemsPrinted file.now text.old text.new (fileanswer.hems_printed_by result length.new) }
{
    barleyhinge::bh_hem_sheet(file, text, length)
}
