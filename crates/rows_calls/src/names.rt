//! Tables of names.

/// What stands behind a name in a table.
pub fn named<'a, T>(table: &'a [(&str, T)], name: &str) -> Option<&'a T> {
    for (known, found) in table {
        if *known == name {
            return Some(found);
        }
    }
    None
}
