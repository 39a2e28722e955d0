//! Tables, told row by row.

use crate::frame::Frame;
use crate::text::Text;
use std::alloc::Global;
use std::rt::Files;
use std::{fs, io};

/// What is asked of each row of a table.
pub trait Teller {
    /// Adds what is found of a text in a frame, in words.
    fn told(&self, alloc: Global, frame: Frame<'_>, written: &str, found: &mut Text);
}

/// Prints a file's name and its rows: a row as it stands where it is as expected, else with what
/// was found. So what is printed is the table, comments aside, where all is as expected. It takes
/// memory for the file and for one row at a time.
///
/// # Errors
///
/// Those of reading the file, of printing, and of memory.
pub fn tell_table<T: Teller>(
    rt: &(impl Files + Print + AllocGlobal),
    file: &str,
    teller: &T,
) -> io::Result<()> {
    println!(rt; "{file}")?;
    let rows = fs::read_to_string(rt, file)?;
    tell_rows(rt, rows.as_str(), teller, true)
}

/// Prints the rows of a table of which another thing is found than is expected.
///
/// # Errors
///
/// Those of reading the file, of printing, and of memory.
pub fn tell_otherwise<T: Teller>(
    rt: &(impl Files + Print + AllocGlobal),
    file: &str,
    teller: &T,
) -> io::Result<()> {
    let rows = fs::read_to_string(rt, file)?;
    tell_rows(rt, rows.as_str(), teller, false)
}

/// Prints the rows of a table, and the frames of those behind them; or those alone of which another
/// thing is found than is expected.
fn tell_rows<T: Teller>(
    rt: &(impl Print + AllocGlobal),
    rows: &str,
    teller: &T,
    tells_all: bool,
) -> io::Result<()> {
    let mut frame = Frame::WHOLE;
    for row in rows.lines() {
        if let Some(form) = row.strip_prefix("in ") {
            frame = Frame::of(form);
        }
        if !row.starts_with('#') {
            told_row(rt.alloc(), frame, row, teller, tells_all).print(rt)?;
        }
    }
    Ok(())
}

/// A row with what is found of it.
fn told_row<T: Teller>(
    alloc: Global,
    frame: Frame<'_>,
    row: &str,
    teller: &T,
    tells_all: bool,
) -> Text {
    let mut told = Text::new(alloc);
    match row.split_once(" → ") {
        Some((written, expected)) => {
            let mut found = Text::new(alloc);
            teller.told(alloc, frame, written, &mut found);
            if tells_all || found.as_str() != expected {
                push_found(&mut told, written, &found, expected);
            }
        }
        None if tells_all => told.push_line(row),
        None => {}
    }
    told
}

/// Adds a row with what was found of its text, and with what was expected where that isn't it.
fn push_found(told: &mut Text, written: &str, found: &Text, expected: &str) {
    told.heed(found);
    told.push(written);
    told.push(" → ");
    told.push(found.as_str());
    if found.as_str() != expected {
        told.push("   (expected: ");
        told.push(expected);
        told.push(")");
    }
    told.push("\n");
}
