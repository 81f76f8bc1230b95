// Prints the sheet of each scan that its arguments name: the file's name, and then what `scansheet` prints for it.
//
// The files stand in data/, and args names every one of them. tools/make_scans makes them again and says what each one is for.
#![tactic(auto)]

use std::io::Write;
use std::{env, fs, io};

fn main(rt: HostRuntime) -> io::Result<()> {
    for name in env::args(&rt)?.skip(1) {
        one_file(&rt, name.as_str())?;
    }
    Ok(())
}

// The file of this name. One byte more than a scan may have is taken, as `scansheet` reads one more.
fn one_file(rt: &HostRuntime, name: &str) -> io::Result<()> {
    let file = fs::read(rt, name)?;
    println!(rt; "== {name}")?;
    print_sheet(rt, &file[..file.len().min(scanning::SCAN + 1)])
}

// Its sheet.
fn print_sheet(rt: &HostRuntime, file: &[u8]) -> io::Result<()> {
    let mut out = [0u8; scanning::ROOM];
    let answer = scanning::scan_sheet(file, &mut out);
    rt.stdout().write_all(&out[..answer.length])
}
