// Operations called as the lines of standard input say. A line is
//
//     KIND NAME INPUTS
//
// with one space between fields. It may go on with ` = ` and results, which are passed over, so that a file of expected results can be given as it is.
// For each line the program prints the fields before ` = ` as they are, then ` = ` and the results; a line that begins with `#` or with `requests`
// prints nothing. Bytes are hexadecimal digits, two a byte, `-` is no byte; SET is 16 hexadecimal digits, bit p for predicate p; all else is decimal.
//
//     book NAME BOOK SET              the check `N V`, the analysis `N V ROUNDS TABLE`, the plan `N V PLAN`, the closing over SET `N V CLOSED` and
//                                     the sheet `SHEET`, each with room enough
//     short NAME BOOK SET             the analysis, the plan, the closing and the sheet, each in a room one byte shorter than what it wrote: for
//                                     each `N V`, or `- -` where it wrote nothing
//     room NAME OP BOOK SET ROOM      `N V ROUNDS OUT` of OP, which is analyse, plan, close or sheet, in a room of ROOM bytes
//     pair NAME OP ARITY XS YS ROOM   `N V OUT` of OP, which is choice or joint, of two lists of masks
//     fits NAME PATTERN MASKS         `1` where the pattern fits the masks, else `0`
//     page NAME BOOK RUN ROOM A T     `N V OUT` of the page of RUN in a room of ROOM bytes, and the tally, from A accepted and T turned away, after it
//     again NAME BOOK ROOM            `N V OUT` of the book read and written again; of a book that the check refuses its `N V -`
//     parts NAME BOOK SET             `N V` of the closing, and where N is 0 six comparisons, each a word and `same` or `differs` (see `parts`)
//     same NAME BOOK SET              the plan `N PLAN`, the closed book `CLOSED` and its plan `N PLAN`, and `differs` where that is not what is left of
//                                     the first (see `same`); where the closing is refused, its `N V`
//
// N and V are the number and the value of a reply. A line of another kind, or another OP, prints `?`. A reply that altered a byte it had to leave adds
// the word `spoiled`. Of the input the first 2,097,152 bytes are read, of a book 8,192, of a run 20,480, of a list of masks 32; a number of a tally counts as
// 1,000,000,000 at most; a room has at most 164,585.
#![tactic(auto)]

mod again;
mod fits;
mod operations;
mod pair;
mod parts;
mod queries;
mod same;
mod show;

use lines::{STDIN_FILENO, STDOUT_FILENO};

// How much of the input is read.
const INPUT: usize = 2097152;

// The answers to all lines of the input.
fn main() {
    let mut text = [0u8; INPUT];
    answer_read(&mut text);
}

// The answers to the lines that are read into an array; in `main` itself the check would write out all its zeros.
fn answer_read(text: &mut [u8; INPUT]) {
    let n = io::read_full(STDIN_FILENO, text);
    answer_all(&text[..n]);
}

// The answers to the lines of a text. What stands behind its last newline is a line where it is not empty.
fn answer_all(text: &[u8]) {
    if text.is_empty() {
        return;
    }
    let lines = text.strip_suffix(b"\n").unwrap_or(text);
    for line in lines.split(|&x| x == b'\n') {
        answer(line);
    }
}

// The answer to one line, or nothing where it is passed over.
fn answer(line: &[u8]) {
    if lines::begins(line, b"#") || lines::begins(line, b"requests") {
        return;
    }
    let inputs = lines::inputs(line);
    io::write_all(STDOUT_FILENO, inputs);
    io::write_all(STDOUT_FILENO, b" =");
    results(inputs);
    io::write_all(STDOUT_FILENO, b"\n");
}

// What a line asks for, by its kind.
fn results(line: &[u8]) {
    match lines::field(line, 0) {
        b"book" => operations::book(line),
        b"short" => operations::short(line),
        b"room" => operations::room(line),
        b"pair" => pair::results(line),
        b"fits" => fits::results(line),
        b"page" => queries::results(line),
        b"again" => again::results(line),
        b"parts" => parts::results(line),
        b"same" => same::results(line),
        _ => show::unknown(),
    }
}
