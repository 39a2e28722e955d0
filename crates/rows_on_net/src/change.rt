//! Changes of a report.

use rtl_check::Report;
use vhdl_values::Edge;

/// Changes a report by the words of a row, and tells whether it did. A word that is no number, as
/// `none`, stands for nothing; what is put behind the last entry is one more.
///
/// | words | change |
/// |---|---|
/// | (none) | none |
/// | `bound N` | the bound is N |
/// | `level P N` | process P has level N |
/// | `from P Q` | process P comes from process Q |
/// | `clock K N E` | the clock at K is net N with the edge E: 0 rising, 1 falling, 2 to 1, 3 to 0 |
/// | `drop levels`, `drop from`, `drop clocks` | the last entry goes |
pub fn change(report: &mut Report, line: &str) -> bool {
    let (word, fields) = cut(line);
    let (field, rest) = cut(fields);
    let (given, edge) = cut(rest);
    let place = number(field).unwrap_or(0);
    if word == "bound" {
        report.bound = field.parse::<u32>().unwrap_or(0);
        return true;
    }
    if word == "level" {
        return put(&mut report.levels, place, given.parse::<u32>().ok());
    }
    if word == "from" {
        return put(&mut report.from, place, number(given));
    }
    if word == "clock" {
        let entry = (number(given).unwrap_or(0), edge_of(edge));
        return put(&mut report.clocks, place, entry);
    }
    if word == "drop" {
        return drop_last(report, field);
    }
    word.is_empty()
}

/// The first word of a text, and what stands behind it.
fn cut(text: &str) -> (&str, &str) {
    text.split_once(' ').unwrap_or((text, ""))
}

fn number(word: &str) -> Option<usize> {
    word.parse::<usize>().ok()
}

fn edge_of(word: &str) -> Edge {
    match word.as_bytes() {
        b"1" => Edge::Falling,
        b"2" => Edge::To1,
        b"3" => Edge::To0,
        _ => Edge::Rising,
    }
}

/// Puts an entry at a place, or behind the last one, and tells whether it stands there.
pub fn put<T: Copy>(list: &mut Vec<T>, place: usize, entry: T) -> bool {
    if place < list.len() {
        list[place] = entry;
        return true;
    }
    list.push(entry).is_ok()
}

/// Drops the last entry of a field, if it has one.
fn drop_last(report: &mut Report, field: &str) -> bool {
    if field == "levels" {
        return report.levels.pop().is_some();
    }
    if field == "from" {
        return report.from.pop().is_some();
    }
    field == "clocks" && report.clocks.pop().is_some()
}
