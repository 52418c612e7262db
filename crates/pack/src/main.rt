// Packs program images on the pages of a card: prints each image's page, and then the pages, the steps taken and the pages above the bound.
// Arguments: the budget of the search, and the card files. Without files the sizes are read from standard input, decimal, one a line.
#![tactic(auto)]

mod problem;

use pages::Packing;
use problem::Problem;
use std::process::ExitCode;
use std::rt::{Env, Files};
use std::{env, fs, io};

// Bad input ends with status 2, and one line says what is wrong.
fn main(rt: HostRuntime) -> ExitCode {
    match run(&rt) {
        Ok(()) => ExitCode::SUCCESS,
        Err(problem) => {
            let _ = eprintln!(rt; "{problem}");
            ExitCode::from(2)
        }
    }
}

fn run(rt: &(impl Env + Files + Input + Print + AllocGlobal)) -> Result<(), Problem> {
    let mut arguments = env::args(rt).map_err(Problem::Arguments)?.skip(1);
    let Some(text) = arguments.next() else {
        return Err(Problem::Usage);
    };
    let Ok(budget) = text.parse::<u64>() else {
        return Err(Problem::Budget(text));
    };
    let mut names = Vec::new(rt.alloc());
    for name in arguments {
        names.push(name)?;
    }
    let sizes = if names.is_empty() {
        sizes_of_lines(rt)?
    } else {
        sizes_of_files(rt, &names)?
    };
    let packing = pages::pack(&sizes, budget)?;
    print(rt, &names, sizes.len(), &packing)?;
    Ok(())
}

// A size above 65,535 is taken as 65,535: both are above a page.
fn size(bytes: u64) -> u16 {
    u16::try_from(bytes).unwrap_or(u16::MAX)
}

// The size that stands in a line, digits alone. One of more than 64 bits is above a page too.
fn size_in(line: &str) -> Option<u16> {
    let digits = line.trim();
    if digits.is_empty() || !digits.bytes().all(|b| b.is_ascii_digit()) {
        return None;
    }
    Some(digits.parse::<u64>().map_or(u16::MAX, size))
}

fn sizes_of_lines(rt: &(impl Input + AllocGlobal)) -> Result<Vec<u16>, Problem> {
    let mut sizes = Vec::new(rt.alloc());
    for (number, line) in (1..u64::MAX).zip(rt.lines(rt.alloc())) {
        let text = line.map_err(|error| Problem::Input(number, error))?;
        match size_in(&text) {
            Some(size) => sizes.push(size)?,
            None => return Err(Problem::Line(number, text)),
        }
    }
    Ok(sizes)
}

fn sizes_of_files(rt: &(impl Files + AllocGlobal), names: &[String]) -> Result<Vec<u16>, Problem> {
    let mut sizes = Vec::new(rt.alloc());
    for name in names {
        let bytes = match fs::metadata(rt, name.as_str()) {
            Ok(found) if found.is_file() => found.len(),
            Ok(_) => return Err(Problem::NoFile(name.clone()?)),
            Err(error) => return Err(Problem::File(name.clone()?, error)),
        };
        sizes.push(size(bytes))?;
    }
    Ok(sizes)
}

// An image is told by its file's name, or else by its number in the list, from 1 on.
fn print(rt: &impl Print, names: &[String], count: usize, packing: &Packing) -> io::Result<()> {
    for (i, page) in packing.pages.iter().enumerate().take(count) {
        match names.get(i) {
            Some(name) => println!(rt; "{name} page {page}")?,
            None => println!(rt; "image {} page {page}", i + 1)?,
        }
    }
    println!(rt; "pages {}", packing.opened)?;
    println!(rt; "steps {}", packing.steps)?;
    println!(rt; "above {}", packing.above)
}
