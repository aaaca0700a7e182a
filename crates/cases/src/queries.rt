// The kind `page`: all the queries of a run, of one book.
use crate::show;
use crate::show::{BOOK, ROOM, RUN};
use tally::Tally;

// The most that a number of a line's tally counts as.
const MOST: usize = 1000000000;

// The reply to the page of a line, the bytes written, and the tally that is left.
pub fn results(line: &[u8]) {
    let mut raw = [0u8; BOOK];
    let bytes = show::bytes(line, 2, &mut raw);
    let mut asked = [0u8; RUN];
    let run = show::bytes(line, 3, &mut asked);
    let mut out = show::fresh();
    let k = lines::clip(lines::field_number(line, 4, ROOM), &out);
    let tally = Tally {
        accepted: lines::field_number(line, 5, MOST) as u64,
        turned_away: lines::field_number(line, 6, MOST) as u64,
    };
    let p = page::page(bytes, run, &mut out[..k], tally);
    show::reply(p.reply, 2);
    show::output(p.reply, &out);
    lines::show_number(p.tally.accepted);
    lines::show_number(p.tally.turned_away);
}
