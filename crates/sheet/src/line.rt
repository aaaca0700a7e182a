// Lines of text: a letter, numbers in decimal, each after what parts it from what stands before it, and a newline. Each function answers the place after what
// it has put.
ghost use Rattle.book.specs.Encode.{run};
ghost use Rattle.writing.specs.Wrote.{Room, Wrote};
ghost use Rattle.printing.specs.Sheet.{after, listing};

use writing::put::put_bytes;

// A number in decimal, after what parts it from what stands before it.
pub fn put_field(out: &mut [u8], at: usize, part: &[u8], n: u64) -> usize
    requires { Room out.old at (after part.now n) }
    ensures { Wrote out.old out.new at result (after part.now n) }
{
    let p = put_bytes(out, at, part);
    let mut digits = [0u8; 20];
    let k = io::decimal(n, &mut digits);
    put_bytes(out, p, &digits[..k])
}

// One for each byte.
pub fn put_fields(out: &mut [u8], at: usize, part: &[u8], list: &[u8]) -> usize
    requires { Room out.old at (run (after part.now) list.now) }
    ensures { Wrote out.old out.new at result (run (after part.now) list.now) }
{
    let mut p = at;
    for x in list {
        p = put_field(out, p, part, u64::from(*x));
    }
    p
}

// A field for each byte, or what stands for none.
pub fn put_listing(out: &mut [u8], at: usize, none: &[u8], list: &[u8]) -> usize
    requires { Room out.old at (listing none.now list.now) }
    ensures { Wrote out.old out.new at result (listing none.now list.now) }
{
    if list.is_empty() {
        return put_bytes(out, at, none);
    }
    put_fields(out, at, b" ", list)
}
