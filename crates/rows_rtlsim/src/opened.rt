//! The netlists that rows name.

use rows_on_net::Nets;
use rtl_net::Net;
use std::alloc::Global;
use vhdl_front::{Asked, open};

/// Netlists that are opened as the program opens them.
pub struct Opened;

impl Nets for Opened {
    fn open(&self, alloc: Global, text: &[u8], top: &[u8]) -> Option<Net> {
        match open(alloc, Asked::plain(text, top)) {
            Ok(net) => Some(net),
            Err(_) => None,
        }
    }
}
