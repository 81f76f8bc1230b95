// Barleyhinge for other programs: the public calls under plain names, for C and for whatever links C.
//
// Each function passes on to the call of the same name and does nothing else. A list passes as a pointer and a length; what a call
// answers beside its number is written to places that the caller lends (crate answers). Every number but 0 leaves each lent list as it was, and
// each count 0; a verdict is written only with 0. No function asks anything of the lists' contents.
// include/barleyhinge.h has the same for a C program.
#![tactic(auto)]

ghost use Rattle.std.specs.Prelude.{◌≡◌};
ghost use Rattle.mesh.specs.Mesh.{mesh_of};
ghost use Rattle.mesh.specs.Listed.{listed_of};
ghost use Rattle.mesh.specs.Table.{mesh_number};
ghost use Rattle.faces.specs.Faces.{faces_of, Grouped};
ghost use Rattle.unused.specs.Compaction as compacting;
ghost use Rattle.inplace.specs.InPlace.{InPlace};
ghost use Rattle.removal.specs.Folded as folding;
ghost use Rattle.edges.specs.Answers.{hems_in, HemAnswer};
ghost use Rattle.merging.specs.Merging.{PutTogether};
ghost use Rattle.smoothed.specs.Refusals as smoothed;
ghost use Rattle.smoothing.specs.Smoothing.{Smoothing};
ghost use Rattle.ported.specs.Answers.{PortedAnswer};
ghost use Rattle.house.specs.Answers.{HouseAnswer};
ghost use Rattle.panels.specs.Contract.{PanelsAnswer};
ghost use Rattle.hemlist.specs.Answer.{hem_lists_of, HemsListed};
ghost use Rattle.reading.specs.Answer.{PanelRead};
ghost use Rattle.scanned.specs.Answer.{ScanRead};
ghost use Rattle.written.specs.Answer.{PanelWritten};
ghost use Rattle.cleanfile.specs.Cleaning.{PanelCleaned};
ghost use Rattle.sheet.specs.Sheet.{Printed};
ghost use Rattle.hemfile.specs.HemFile.{HemsPrinted};
ghost use Rattle.answers.specs.Answers as answer;
ghost use Rattle.fileanswers.specs.Answers as fileanswer;
ghost use Rattle.barleyhinge.specs.Calls as call;

use edges::Judged;
use mesh::Mesh;

// The number that a mesh earns, 0 to 5.
#[unsafe(no_mangle)]
pub extern "C" fn bh_mesh_number(
    positions: &[f64],
    textures: &[f64],
    normals: &[f64],
    corners: &[u32],
    sizes: &[u32],
) -> u32
    ensures { result ≡ mesh_number
        (mesh_of positions.now textures.now normals.now corners.now sizes.now) }
{
    mesh::number(positions, textures, normals, corners, sizes)
}

// The corners of face k: where they start in the list of corners, and how many numbers they are.
#[unsafe(no_mangle)]
pub extern "C" fn bh_face(
    positions: &[f64],
    textures: &[f64],
    normals: &[f64],
    corners: &[u32],
    sizes: &[u32],
    k: usize,
    start: &mut usize,
    len: &mut usize,
)
    ensures { answer.PartAnswer
        (mesh_of positions.now textures.now normals.now corners.now sizes.now)
        k start.new len.new }
{
    answers::part(positions, textures, normals, corners, sizes, k, start, len)
}

// Faces in any order, grouped: how many corners and faces are written.
#[unsafe(no_mangle)]
pub extern "C" fn bh_push(
    corners: &[u32],
    sizes: &[u32],
    newcorners: &mut [u32],
    newsizes: &mut [u32],
    cornercount: &mut usize,
    facecount: &mut usize,
) -> u32
    ensures { Grouped
        (faces_of corners.now sizes.now)
        (faces_of newcorners.old newsizes.old)
        (faces_of newcorners.new newsizes.new)
        (answer.pushed_by result cornercount.new facecount.new) }
{
    let pushed = faces::push(corners, sizes, newcorners, newsizes);
    answers::pushed(pushed, cornercount, facecount)
}

// Compaction.
#[unsafe(no_mangle)]
pub extern "C" fn bh_remove_unused_attrs(
    positions: &[f64],
    textures: &[f64],
    normals: &[f64],
    corners: &[u32],
    sizes: &[u32],
    newcorners: &mut [u32],
    newpositions: &mut [f64],
    newtextures: &mut [f64],
    newnormals: &mut [f64],
    positioncount: &mut usize,
    texturecount: &mut usize,
    normalcount: &mut usize,
) -> u32
    ensures { compacting.Compaction
        (mesh_of positions.now textures.now normals.now corners.now sizes.now)
        (compacting.result_of newcorners.old newpositions.old newtextures.old newnormals.old)
        (compacting.result_of newcorners.new newpositions.new newtextures.new newnormals.new)
        (answer.compacted_by result positioncount.new texturecount.new normalcount.new) }
{
    let mesh = Mesh {
        positions,
        textures,
        normals,
        corners,
        sizes,
    };
    let made = compaction::remove_unused_attrs(
        &mesh,
        newcorners,
        newpositions,
        newtextures,
        newnormals,
    );
    answers::compacted(made, positioncount, texturecount, normalcount)
}

// Compaction in place: the lists and the corners are changed where they stand, beside a list of numbers.
#[unsafe(no_mangle)]
pub extern "C" fn bh_compact_in_place(
    positions: &mut [f64],
    textures: &mut [f64],
    normals: &mut [f64],
    corners: &mut [u32],
    sizes: &[u32],
    numbers: &mut [u32],
    positioncount: &mut usize,
    texturecount: &mut usize,
    normalcount: &mut usize,
) -> u32
    ensures { InPlace
        (mesh_of positions.old textures.old normals.old corners.old sizes.now)
        (mesh_of positions.new textures.new normals.new corners.new sizes.now)
        numbers.old numbers.new
        (answer.compacted_by result positioncount.new texturecount.new normalcount.new) }
{
    let made = inplace::compact_in_place(positions, textures, normals, corners, sizes, numbers);
    answers::compacted(made, positioncount, texturecount, normalcount)
}

// Removal of folded faces, with the number of the face that each came from.
#[unsafe(no_mangle)]
pub extern "C" fn bh_remove_degenerate_faces(
    positions: &[f64],
    textures: &[f64],
    normals: &[f64],
    corners: &[u32],
    sizes: &[u32],
    newcorners: &mut [u32],
    newsizes: &mut [u32],
    origins: &mut [u32],
    cornercount: &mut usize,
    facecount: &mut usize,
) -> u32
    ensures { folding.Removal
        (mesh_of positions.now textures.now normals.now corners.now sizes.now)
        (folding.result_of newcorners.old newsizes.old origins.old)
        (folding.result_of newcorners.new newsizes.new origins.new)
        (answer.removed_by result cornercount.new facecount.new) }
{
    let mesh = Mesh {
        positions,
        textures,
        normals,
        corners,
        sizes,
    };
    let left = folded::remove_degenerate_faces(&mesh, newcorners, newsizes, origins);
    answers::removed(left, cornercount, facecount)
}

// Merging: the new corners, and how many pairs were compared among positions, texture points and normals.
#[unsafe(no_mangle)]
pub extern "C" fn bh_put_together_same_attrs(
    positions: &[f64],
    textures: &[f64],
    normals: &[f64],
    corners: &[u32],
    sizes: &[u32],
    tolerance: f64,
    newcorners: &mut [u32],
    positionpairs: &mut usize,
    texturepairs: &mut usize,
    normalpairs: &mut usize,
) -> u32
    ensures { PutTogether
        (mesh_of positions.now textures.now normals.now corners.now sizes.now) tolerance
        newcorners.old
        newcorners.new
        (answer.merged_by result positionpairs.new texturepairs.new normalpairs.new) }
{
    let merged = merging::put_together_same_attrs(
        positions, textures, normals, corners, sizes, tolerance, newcorners,
    );
    answers::merged(merged, positionpairs, texturepairs, normalpairs)
}

// The same by the second engine, for scans.
#[unsafe(no_mangle)]
pub extern "C" fn bh_put_together_by_cell(
    positions: &[f64],
    textures: &[f64],
    normals: &[f64],
    corners: &[u32],
    sizes: &[u32],
    tolerance: f64,
    newcorners: &mut [u32],
    positionpairs: &mut usize,
    texturepairs: &mut usize,
    normalpairs: &mut usize,
) -> u32
    ensures { PutTogether
        (mesh_of positions.now textures.now normals.now corners.now sizes.now) tolerance
        newcorners.old
        newcorners.new
        (answer.merged_by result positionpairs.new texturepairs.new normalpairs.new) }
{
    let merged = merging::put_together_by_cell(
        positions, textures, normals, corners, sizes, tolerance, newcorners,
    );
    answers::merged(merged, positionpairs, texturepairs, normalpairs)
}

// Smoothing by Loop's method: the new positions, corners and sizes, and how many positions, corners and faces they are.
#[unsafe(no_mangle)]
pub extern "C" fn bh_loop_subdivision(
    positions: &[f64],
    textures: &[f64],
    normals: &[f64],
    corners: &[u32],
    sizes: &[u32],
    ones: &[f64],
    twos: &[f64],
    newpositions: &mut [f64],
    newcorners: &mut [u32],
    newsizes: &mut [u32],
    positioncount: &mut usize,
    cornercount: &mut usize,
    facecount: &mut usize,
) -> u32
    ensures { Smoothing
        (mesh_of positions.now textures.now normals.now corners.now sizes.now)
        ones.now twos.now
        (smoothed.lists newpositions.old newcorners.old newsizes.old)
        (smoothed.lists newpositions.new newcorners.new newsizes.new)
        (answer.smoothed_by result positioncount.new cornercount.new facecount.new) }
{
    let made = smoothing::loop_subdivision(
        positions,
        textures,
        normals,
        corners,
        sizes,
        ones,
        twos,
        newpositions,
        newcorners,
        newsizes,
    );
    answers::smoothed(made, positioncount, cornercount, facecount)
}

// The verdict, by number: 0 Irregular, 1 Regular, 2 Oriented, 3 Closed. It is written only with 0.
#[unsafe(no_mangle)]
pub extern "C" fn bh_shell_condition(
    positions: &[f64],
    textures: &[f64],
    normals: &[f64],
    corners: &[u32],
    sizes: &[u32],
    verdict: &mut u32,
) -> u32
    ensures { call.VerdictAnswer
        (mesh_of positions.now textures.now normals.now corners.now sizes.now)
        verdict.old verdict.new result }
{
    let judged = edges::shell_condition(positions, textures, normals, corners, sizes);
    match judged {
        Judged::Found(condition) => {
            *verdict = answers::verdict_number(condition);
            0
        }
        Judged::Refused(number) => number,
    }
}

// The hem edges: where each starts, where each ends, and how many there are.
#[unsafe(no_mangle)]
pub extern "C" fn bh_hem_edges(
    positions: &[f64],
    textures: &[f64],
    normals: &[f64],
    corners: &[u32],
    sizes: &[u32],
    starts: &mut [u32],
    ends: &mut [u32],
    count: &mut usize,
) -> u32
    ensures { HemAnswer
        (mesh_of positions.now textures.now normals.now corners.now sizes.now)
        (hems_in starts.old ends.old)
        (hems_in starts.new ends.new)
        (answer.hemmed_by result count.new) }
{
    let hems = edges::hem_edges(positions, textures, normals, corners, sizes, starts, ends);
    answers::hemmed(hems, count)
}

// Ported wires: their positions one after the other, and how many each wire has.
#[unsafe(no_mangle)]
pub extern "C" fn bh_extract_boundaries(
    positions: &[f64],
    textures: &[f64],
    normals: &[f64],
    corners: &[u32],
    sizes: &[u32],
    flat: &mut [u32],
    lengths: &mut [u32],
    flatcount: &mut usize,
    wirecount: &mut usize,
) -> u32
    ensures { PortedAnswer
        (mesh_of positions.now textures.now normals.now corners.now sizes.now)
        (listed_of flat.old lengths.old)
        (listed_of flat.new lengths.new)
        (answer.wired_by result flatcount.new wirecount.new) }
{
    let ported = ported::extract_boundaries(
        positions, textures, normals, corners, sizes, flat, lengths,
    );
    answers::wired(ported, flatcount, wirecount)
}

// House wires, in the same form.
#[unsafe(no_mangle)]
pub extern "C" fn bh_house_wires(
    positions: &[f64],
    textures: &[f64],
    normals: &[f64],
    corners: &[u32],
    sizes: &[u32],
    flat: &mut [u32],
    lengths: &mut [u32],
    flatcount: &mut usize,
    wirecount: &mut usize,
) -> u32
    ensures { HouseAnswer
        (mesh_of positions.now textures.now normals.now corners.now sizes.now)
        (listed_of flat.old lengths.old)
        (listed_of flat.new lengths.new)
        (answer.wired_by result flatcount.new wirecount.new) }
{
    let house = house::house_wires(positions, textures, normals, corners, sizes, flat, lengths);
    answers::wired(house, flatcount, wirecount)
}

// Panels: the faces of all panels one after the other, and how many each panel has.
#[unsafe(no_mangle)]
pub extern "C" fn bh_components(
    positions: &[f64],
    textures: &[f64],
    normals: &[f64],
    corners: &[u32],
    sizes: &[u32],
    use_normal: bool,
    flat: &mut [u32],
    lengths: &mut [u32],
    flatcount: &mut usize,
    panelcount: &mut usize,
) -> u32
    ensures { PanelsAnswer
        (mesh_of positions.now textures.now normals.now corners.now sizes.now) use_normal
        (listed_of flat.old lengths.old)
        (listed_of flat.new lengths.new)
        (answer.panelled_by result flatcount.new panelcount.new) }
{
    let found = panels::components(
        positions, textures, normals, corners, sizes, use_normal, flat, lengths,
    );
    answers::panelled(found, flatcount, panelcount)
}

// The list of hems: of each its panel, its number of edges and its length, and how many hems there are.
#[unsafe(no_mangle)]
pub extern "C" fn bh_list_hems(
    positions: &[f64],
    textures: &[f64],
    normals: &[f64],
    corners: &[u32],
    sizes: &[u32],
    triples: &[i32],
    panels: &mut [u32],
    edges: &mut [u32],
    lengths: &mut [u64],
    hems: &mut usize,
) -> u32
    ensures { HemsListed
        (mesh_of positions.now textures.now normals.now corners.now sizes.now)
        triples.now
        (hem_lists_of panels.old edges.old lengths.old)
        (hem_lists_of panels.new edges.new lengths.new)
        (answer.listed_by result hems.new) }
{
    let list = listing::list_hems(
        positions, textures, normals, corners, sizes, triples, panels, edges, lengths,
    );
    answers::listed(list, hems)
}

// The reader of a panel file.
#[unsafe(no_mangle)]
pub extern "C" fn bh_read_panel(
    file: &[u8],
    positions: &mut [f64],
    textures: &mut [f64],
    normals: &mut [f64],
    corners: &mut [u32],
    sizes: &mut [u32],
    positioncount: &mut usize,
    texturecount: &mut usize,
    normalcount: &mut usize,
    cornercount: &mut usize,
    facecount: &mut usize,
) -> u32
    ensures { PanelRead file.now
        (mesh_of positions.old textures.old normals.old corners.old sizes.old)
        (mesh_of positions.new textures.new normals.new corners.new sizes.new)
        (fileanswer.read_by result positioncount.new texturecount.new normalcount.new cornercount.new facecount.new) }
{
    let panel = panelfile::read_panel(file, positions, textures, normals, corners, sizes);
    fileanswers::read(
        panel,
        positioncount,
        texturecount,
        normalcount,
        cornercount,
        facecount,
    )
}

// The reader of a scanner's own file, binary STL.
#[unsafe(no_mangle)]
pub extern "C" fn bh_read_scan(
    file: &[u8],
    positions: &mut [f64],
    textures: &mut [f64],
    normals: &mut [f64],
    corners: &mut [u32],
    sizes: &mut [u32],
    positioncount: &mut usize,
    texturecount: &mut usize,
    normalcount: &mut usize,
    cornercount: &mut usize,
    facecount: &mut usize,
) -> u32
    ensures { ScanRead file.now
        (mesh_of positions.old textures.old normals.old corners.old sizes.old)
        (mesh_of positions.new textures.new normals.new corners.new sizes.new)
        (fileanswer.read_by result positioncount.new texturecount.new normalcount.new cornercount.new facecount.new) }
{
    let scan = scanfile::read_scan(file, positions, textures, normals, corners, sizes);
    fileanswers::read(
        scan,
        positioncount,
        texturecount,
        normalcount,
        cornercount,
        facecount,
    )
}

// A mesh as a panel file: its bytes, and how many they are.
#[unsafe(no_mangle)]
pub extern "C" fn bh_write_panel(
    positions: &[f64],
    textures: &[f64],
    normals: &[f64],
    corners: &[u32],
    sizes: &[u32],
    file: &mut [u8],
    length: &mut usize,
) -> u32
    ensures { PanelWritten
        (mesh_of positions.now textures.now normals.now corners.now sizes.now)
        file.old file.new
        (fileanswer.saved_by result length.new) }
{
    let written = saving::write_panel(positions, textures, normals, corners, sizes, file);
    fileanswers::saved(written, length)
}

// A panel file, cleaned: the bytes of the cleaned file, and how many they are.
#[unsafe(no_mangle)]
pub extern "C" fn bh_clean_panel(file: &[u8], cleaned: &mut [u8], length: &mut usize) -> u32
    ensures { PanelCleaned file.now cleaned.old cleaned.new (fileanswer.cleaned_by result length.new) }
{
    let clean = cleanfile::clean(file, cleaned);
    fileanswers::cleaned(clean, length)
}

// The sheet of a panel file: its bytes, and how many they are.
#[unsafe(no_mangle)]
pub extern "C" fn bh_sheet(file: &[u8], text: &mut [u8], length: &mut usize) -> u32
    ensures { Printed file.now text.old text.new (fileanswer.printed_by result length.new) }
{
    let printed = sheet::sheet(file, text);
    fileanswers::printed(printed, length)
}

// A count, a panel file and triples: the bytes of the hem sheet, and how many they are.
#[unsafe(no_mangle)]
pub extern "C" fn bh_hem_sheet(file: &[u8], text: &mut [u8], length: &mut usize) -> u32
    ensures { HemsPrinted file.now text.old text.new (fileanswer.hems_printed_by result length.new) }
{
    let hems = hemfile::hem_sheet(file, text);
    fileanswers::hems_printed(hems, length)
}
