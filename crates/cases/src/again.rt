// The kind `again`: a book read and written again.
use crate::show;
use crate::show::{BOOK, ROOM};
use book::fault::FaultAt;
use book::held::RuleBook;
use masks::reply::Reply;

// The reply to writing the book of a line, and the bytes written; of a book with a fault the check's reply.
pub fn results(line: &[u8]) {
    let mut raw = [0u8; BOOK];
    let bytes = show::bytes(line, 2, &mut raw);
    let mut out = show::fresh();
    let m = lines::clip(lines::field_number(line, 3, ROOM), &out);
    match write(bytes, &mut out[..m]) {
        Ok(r) => {
            show::reply(r, 2);
            show::output(r, &out);
        }
        Err(f) => {
            show::reply(f.into(), 2);
            lines::show_bytes(b"");
        }
    }
}

// The reply to writing what is read of a book, or its fault.
fn write(bytes: &[u8], out: &mut [u8]) -> Result<Reply, FaultAt> {
    let mut book = RuleBook::new();
    reading::read_book(bytes, &mut book)?;
    Ok(writing::write_book(&book, out))
}
