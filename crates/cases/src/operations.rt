// The kinds `book`, `short` and `room`: the operations on a book.
use crate::show;
use crate::show::{BOOK, ROOM};
use lines::STDOUT_FILENO;
use masks::reply::Reply;

// The check of a book, and what the operations write of it with room enough.
pub fn book(line: &[u8]) {
    let mut raw = [0u8; BOOK];
    let bytes = show::bytes(line, 2, &mut raw);
    let set = lines::field_hex(line, 3);
    show::reply(reading::check(bytes), 2);
    show_in(ROOM, 3, |out| needs::analyse(bytes, out));
    show_in(ROOM, 2, |out| plan::plan(bytes, out));
    show_in(ROOM, 2, |out| closing::close(bytes, set, out));
    show_in(ROOM, 0, |out| sheet::sheet(bytes, out));
}

// The operations, each in a room one byte shorter than what it writes.
pub fn short(line: &[u8]) {
    let mut raw = [0u8; BOOK];
    let bytes = show::bytes(line, 2, &mut raw);
    let set = lines::field_hex(line, 3);
    show_short(|out| needs::analyse(bytes, out));
    show_short(|out| plan::plan(bytes, out));
    show_short(|out| closing::close(bytes, set, out));
    show_short(|out| sheet::sheet(bytes, out));
}

// One operation in a room of its own.
pub fn room(line: &[u8]) {
    let mut raw = [0u8; BOOK];
    let bytes = show::bytes(line, 3, &mut raw);
    let set = lines::field_hex(line, 4);
    let size = lines::field_number(line, 5, ROOM);
    match lines::field(line, 2) {
        b"analyse" => show_in(size, 3, |out| needs::analyse(bytes, out)),
        b"plan" => show_in(size, 3, |out| plan::plan(bytes, out)),
        b"close" => show_in(size, 3, |out| closing::close(bytes, set, out)),
        b"sheet" => show_in(size, 3, |out| sheet::sheet(bytes, out)),
        _ => show::unknown(),
    }
}

// An operation in a room of this size: the first `count` numbers of the reply, and the bytes written.
fn show_in<F: Fn(&mut [u8]) -> Reply>(size: usize, count: usize, call: F)
    requires { F.IsAlwaysCallable call }
{
    let mut out = show::fresh();
    let m = lines::clip(size, &out);
    let r = call(&mut out[..m]);
    show::reply(r, count);
    show::output(r, &out);
}

// The reply to an operation in a room one byte shorter than what it writes, or `- -` where it writes nothing.
fn show_short<F: Fn(&mut [u8]) -> Reply>(call: F)
    requires { F.IsAlwaysCallable call }
{
    let mut all = show::fresh();
    let k = show::written(call(&mut all));
    if k == 0 {
        io::write_all(STDOUT_FILENO, b" - -");
        return;
    }
    let mut out = show::fresh();
    let m = lines::clip(k - 1, &out);
    let r = call(&mut out[..m]);
    show::reply(r, 2);
    show::spoiled(r, &out);
}
