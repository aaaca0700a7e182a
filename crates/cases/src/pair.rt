// The kind `pair`: the choice and the joint of two constraints.
use crate::show;
use crate::show::{MASKS, ROOM};

// The choice or the joint of the two lists of a line: the reply, and the masks written.
pub fn results(line: &[u8]) {
    let arity = lines::field_number(line, 3, 255) as u8;
    let mut x_raw = [0u8; MASKS];
    let xs = show::bytes(line, 4, &mut x_raw);
    let mut y_raw = [0u8; MASKS];
    let ys = show::bytes(line, 5, &mut y_raw);
    let mut out = show::fresh();
    let k = lines::clip(lines::field_number(line, 6, ROOM), &out);
    let r = match lines::field(line, 2) {
        b"choice" => masks::choice(arity, xs, ys, &mut out[..k]),
        b"joint" => masks::joint(arity, xs, ys, &mut out[..k]),
        _ => {
            show::unknown();
            return;
        }
    };
    show::reply(r, 2);
    show::output(r, &out);
}
