// The kind `fits`: a pattern tried against the masks of a constraint.
use crate::show;
use crate::show::MASKS;
use masks::constraint;

// 1 where the pattern of a line fits its masks, else 0.
pub fn results(line: &[u8]) {
    let pattern = lines::field_number(line, 2, 255) as u8;
    let mut raw = [0u8; MASKS];
    let masks = show::bytes(line, 3, &mut raw);
    lines::show_number(u64::from(constraint::fits(masks, pattern)));
}
