// Prints the sheet of each panel file that its arguments name: the file's name, and then what `meshsheet` prints for it.
//
// The files stand in data/, and args names every one of them. tools/make_panels makes them again and says what each one is for.
#![tactic(auto)]

use std::io::Write;
use std::{env, fs, io};

fn main(rt: HostRuntime) -> io::Result<()> {
    for name in env::args(&rt)?.skip(1) {
        one_file(&rt, name.as_str())?;
    }
    Ok(())
}

// The file of this name. One byte more than a file may have is taken, as `meshsheet` reads one more.
fn one_file(rt: &HostRuntime, name: &str) -> io::Result<()> {
    let file = fs::read(rt, name)?;
    println!(rt; "== {name}")?;
    print_sheet(rt, &file[..file.len().min(sheet::FILE + 1)])
}

// Its sheet.
fn print_sheet(rt: &HostRuntime, file: &[u8]) -> io::Result<()> {
    let mut out = [0u8; sheet::ROOM];
    let answer = sheet::sheet(file, &mut out);
    rt.stdout().write_all(&out[..answer.length])
}
