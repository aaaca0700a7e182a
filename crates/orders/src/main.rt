// Reads a book on standard input and prints its sheet. Where a read fails it prints no sheet, since a book cut short is another book; there, and where a
// write fails, it ends with an error, which says on standard error why. It prints nothing else there.
#![tactic(auto)]

mod stream;

use crate::stream::{read_input, write_output};
use anyhow::{Context, Result};
use book::limits::LONGEST_SHEET;
use sheet::{BOOK_SIZE, sheet};

// W6: "`orders` cuts at 6,987": no more is read.
fn main(rt: HostRuntime) -> Result<()> {
    let mut book = [0u8; BOOK_SIZE];
    let n = read_input(&mut rt.stdin(), &mut book).context("orders: reading standard input")?;
    let mut text = [0u8; LONGEST_SHEET];
    let r = sheet(&book[..n], &mut text);
    let k = r.value as usize;
    write_output(&mut rt.stdout(), &text[..k]).context("orders: writing standard output")
}
